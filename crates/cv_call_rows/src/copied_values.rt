//! Copies of what an element computes, and of checked lists: they print what was copied.

use cv_calc::{Calc, Unit};
use cv_color::Color;
use cv_frac::Frac;
use cv_spec_text::{Name, OutOfMemory, Run, Token};
use cv_token::tokenise;
use cv_tokser::print;
use cv_valuation::{Cause, Computed, Key, Outcome, Property, Valuation, outcome_text};
use cv_value::{Item, Typed};
use cv_var::{Declared, check};
use sqlite_items::Items;
use std::alloc::Global;
use std::test::Fail;

// One item of each kind.
fn items(alloc: Global) -> Result<Vec<Item>, OutOfMemory> {
    let mut items = Vec::new(alloc);
    items.push(Item::Number(Frac::whole(1)))?;
    items.push(Item::Integer(-2))?;
    items.push(Item::Percentage(Frac::whole(3)))?;
    items.push(Item::Length(Frac::whole(4)))?;
    items.push(Item::Mixed(Calc::Num(Frac::whole(5), Unit::Percent)))?;
    items.push(Item::Angle(Frac::whole(6)))?;
    items.push(Item::Time(Frac::whole(7)))?;
    items.push(Item::Resolution(Frac::whole(8)))?;
    items.push(Item::Color(Color::Current))?;
    items.push(Item::Url(Name::of(alloc, "u")?))?;
    items.push(Item::Str(Name::of(alloc, "s")?))?;
    items.push(Item::Ident(Name::of(alloc, "i")?))?;
    Ok(items)
}

const SPACED: &[u8] = b"= 1 -2 3% 4px 5% 6deg 7s 8dppx currentcolor url(\"u\") \"s\" i";

const WITH_COMMAS: &[u8] =
    b"= 1, -2, 3%, 4px, 5%, 6deg, 7s, 8dppx, currentcolor, url(\"u\"), \"s\", i";

fn outcome_copied(alloc: Global, outcome: &Outcome) -> Result<Vec<u8>, OutOfMemory> {
    let mut text = Vec::new(alloc);
    outcome_text(alloc, &outcome.copy(alloc)?, &mut text)?;
    Ok(text)
}

#[test]
fn outcomes_are_copied(rt: HostRuntime) -> Result<(), Fail> {
    let alloc = rt.alloc();
    let spaced = Outcome::Value(Typed::Spaces(Items::from_vec(items(alloc)?)));
    assert_eq!(rt; outcome_copied(alloc, &spaced)?.as_slice(), SPACED);
    let with_commas = Outcome::Value(Typed::Commas(Items::from_vec(items(alloc)?)));
    assert_eq!(rt;
        outcome_copied(alloc, &with_commas)?.as_slice(),
        WITH_COMMAS
    );
    let one = Outcome::Value(Typed::One(Item::Integer(-2)));
    assert_eq!(rt; outcome_copied(alloc, &one)?.as_slice(), b"= -2".as_slice());
    let tokens = Outcome::Tokens(Run::of(alloc, tokenise(alloc, "a b")?)?);
    assert_eq!(rt;
        outcome_copied(alloc, &tokens)?.as_slice(),
        b"= a b".as_slice()
    );
    let invalid = outcome_copied(alloc, &Outcome::Invalid)?;
    assert_eq!(rt; invalid.as_slice(), b"invalid".as_slice());
    Ok(())
}

fn printed(alloc: Global, tokens: &[Token]) -> Result<Vec<u8>, OutOfMemory> {
    let mut out = Vec::new(alloc);
    print(alloc, tokens, &mut out)?;
    Ok(out)
}

// The copies of a list's segments, as they are printed for debugging.
fn segments_copied(alloc: Global, declared: &Declared) -> Result<String, OutOfMemory> {
    let mut copies = Vec::new(alloc);
    for segment in declared.segments()?.as_slice() {
        copies.push(segment.copy(alloc)?)?;
    }
    format!(in alloc; "{:?}", copies.as_slice())
}

const VALUE: &str = "a VAR(--b, c var(--d))";

const SEGMENTS: &str =
    "[Text(Items { items: [Ident(a), White] }), Ref { name: --b, fallback: Some(Items { items: [Text(Items { items: [Ident(c), White] }), Ref { name: --d, fallback: None }] }) }]";

#[test]
fn checked_lists_are_copied(rt: HostRuntime) -> Result<(), Fail> {
    let alloc = rt.alloc();
    match check(alloc, &tokenise(alloc, VALUE)?) {
        Ok(declared) => {
            let copy = declared.copy()?;
            assert_eq!(rt; printed(alloc, copy.tokens())?.as_slice(), VALUE.as_bytes());
            assert_eq!(rt; segments_copied(alloc, &copy)?.as_str(), SEGMENTS);
        }
        Err(_) => return Err(Fail::new("no value")),
    }
    Ok(())
}

// One fault of each cause.
fn faults(alloc: Global) -> Result<Items<(Key, Cause)>, OutOfMemory> {
    let mut faults = Items::new(alloc);
    faults.push((Key::Table(Property::Color), Cause::Cycle))?;
    faults.push((
        Key::Table(Property::Order),
        Cause::Missing(Name::of(alloc, "--a")?),
    ))?;
    faults.push((Key::Table(Property::Top), Cause::Limit(16385)))?;
    faults.push((Key::Table(Property::Width), Cause::Mismatch))?;
    Ok(faults)
}

const FAULTS: &str =
    "[(Table(Color), Cycle), (Table(Order), Missing(--a)), (Table(Top), Limit(16385)), (Table(Width), Mismatch)]";

#[test]
fn computed_values_are_copied(rt: HostRuntime) -> Result<(), Fail> {
    let alloc = rt.alloc();
    let computed = Computed {
        values: Valuation::initial(alloc)?,
        faults: faults(alloc)?,
    };
    let copy = computed.copy()?;
    let color = outcome_copied(alloc, copy.values.get(&Key::Table(Property::Color)))?;
    assert_eq!(rt; color.as_slice(), b"= rgb(0, 0, 0)".as_slice());
    let faults = format!(in alloc; "{:?}", copy.faults.as_slice())?;
    assert_eq!(rt; faults.as_str(), FAULTS);
    Ok(())
}
