//! Copies of names, tokens, calculations and syntaxes: they are or print what was copied.

use cv_calc::Calc;
use cv_calcread::{CalcErr, read_calc};
use cv_om::{Numeric, OmErr};
use cv_simplify::calc_tokens;
use cv_spec_text::{Name, OutOfMemory, Run, Token};
use cv_syntax::parse_syntax;
use cv_token::tokenise;
use cv_tokser::print;
use cv_valuation::{Key, Property};
use std::alloc::Global;
use std::test::Fail;

#[test]
fn names_tokens_and_keys_are_copied(rt: HostRuntime) -> Result<(), Fail> {
    let alloc = rt.alloc();
    let name = Name::of(alloc, "--a-name-of-many-characters")?;
    assert!(rt; name.copy()? == name);
    let token = Token::Dimension(Name::of(alloc, "1")?, Name::of(alloc, "px")?);
    assert!(rt; token.copy()? == token);
    let run = Run::of(alloc, tokenise(alloc, "a b")?)?;
    assert!(rt; run.copy()?.tokens() == run.tokens());
    let key = Key::Custom(name);
    assert!(rt; key.copy()? == key);
    let key = Key::Table(Property::Width);
    assert!(rt; key.copy()? == key);
    Ok(())
}

fn written(alloc: Global, c: &Calc) -> Result<Vec<u8>, OutOfMemory> {
    let mut out = Vec::new(alloc);
    print(alloc, &calc_tokens(alloc, c)?, &mut out)?;
    Ok(out)
}

fn is_calculation_copied(alloc: Global, text: &str) -> Result<bool, CalcErr> {
    let calculation = read_calc(alloc, &tokenise(alloc, text)?)?;
    let copy = calculation.copy(alloc)?;
    Ok(written(alloc, &copy)? == written(alloc, &calculation)?)
}

fn is_numeric_copied(alloc: Global, text: &str) -> Result<bool, OmErr> {
    let value = Numeric::parse(alloc, text)?;
    Ok(value.copy(alloc)?.equals(&value))
}

// Whether the items of the sum value are copied, which have a value and a unit each.
fn are_items_copied(alloc: Global, text: &str) -> Result<bool, OmErr> {
    let items = Numeric::parse(alloc, text)?.sum_value(alloc)?;
    for item in items.as_slice() {
        let copy = item.copy(alloc)?;
        if copy.value != item.value || copy.units.as_slice() != item.units.as_slice() {
            return Ok(false);
        }
    }
    Ok(!items.is_empty())
}

static CALCULATIONS: [&str; 3] = [
    "calc(1px + 2in)",
    "calc(1px - 2px * 3 / 4)",
    "clamp(1px, min(2px, 3px), max(4px))",
];

#[test]
fn calculations_are_copied(rt: HostRuntime) -> Result<(), Fail> {
    for text in &CALCULATIONS {
        assert!(rt;
            matches!(is_calculation_copied(rt.alloc(), text), Ok(true)),
            "{text}"
        );
        assert!(rt;
            matches!(is_numeric_copied(rt.alloc(), text), Ok(true)),
            "{text}"
        );
        assert!(rt;
            matches!(are_items_copied(rt.alloc(), text), Ok(true)),
            "{text}"
        );
    }
    Ok(())
}

fn is_syntax_copied(alloc: Global, text: &str) -> Result<bool, OutOfMemory> {
    match parse_syntax(alloc, text) {
        Ok(syntax) => {
            let copy = syntax.copy(alloc)?;
            Ok(format!(in alloc; "{copy:?}")? == format!(in alloc; "{syntax:?}")?)
        }
        Err(refusal) => {
            let copy = refusal.copy()?;
            Ok(format!(in alloc; "{copy:?}")? == format!(in alloc; "{refusal:?}")?)
        }
    }
}

static SYNTAXES: [&str; 7] = [
    "*",
    "<length>+ | <number> | <percentage>#",
    "<length-percentage> | <color> | <url> | <integer> | <angle>",
    "<time> | <resolution> | <string> | <custom-ident> | auto",
    "",
    "<image>",
    "a +",
];

#[test]
fn syntaxes_are_copied(rt: HostRuntime) -> Result<(), Fail> {
    for text in &SYNTAXES {
        assert!(rt; is_syntax_copied(rt.alloc(), text)?, "{text}");
    }
    Ok(())
}
