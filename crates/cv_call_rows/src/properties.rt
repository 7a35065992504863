//! The ordinary properties: their names, their initial values, and what texts are by their grammars.

use cv_calc::{Basis, Context};
use cv_frac::Frac;
use cv_property::{Property, property_named};
use cv_spec_text::{Name, OutOfMemory};
use cv_token::tokenise;
use cv_tokser::print;
use cv_value::{Item, Typed, ValueErr, typed_tokens};
use std::alloc::Global;
use std::test::Fail;

// The properties in their order: the name, whether it is inherited, and the initial value.
static PROPERTIES: [(&str, bool, &str); 35] = [
    ("font-size", true, "16px"),
    ("color", true, "rgb(0, 0, 0)"),
    ("line-height", true, "normal"),
    ("letter-spacing", true, "normal"),
    ("text-indent", true, "0px"),
    ("visibility", true, "visible"),
    ("orphans", true, "2"),
    ("display", false, "inline"),
    ("width", false, "auto"),
    ("height", false, "auto"),
    ("min-width", false, "auto"),
    ("min-height", false, "auto"),
    ("max-width", false, "none"),
    ("max-height", false, "none"),
    ("margin-top", false, "0px"),
    ("margin-right", false, "0px"),
    ("margin-bottom", false, "0px"),
    ("margin-left", false, "0px"),
    ("padding-top", false, "0px"),
    ("padding-right", false, "0px"),
    ("padding-bottom", false, "0px"),
    ("padding-left", false, "0px"),
    ("top", false, "auto"),
    ("right", false, "auto"),
    ("bottom", false, "auto"),
    ("left", false, "auto"),
    ("row-gap", false, "normal"),
    ("column-gap", false, "normal"),
    ("opacity", false, "1"),
    ("z-index", false, "auto"),
    ("order", false, "0"),
    ("flex-grow", false, "0"),
    ("flex-shrink", false, "1"),
    ("background-color", false, "rgba(0, 0, 0, 0)"),
    ("outline-offset", false, "0px"),
];

fn printed(alloc: Global, value: &Typed) -> Result<Vec<u8>, OutOfMemory> {
    let mut out = Vec::new(alloc);
    print(alloc, &typed_tokens(alloc, value)?, &mut out)?;
    Ok(out)
}

// What is said of the property of a number: its name and its initial value, and a `+` behind them where it is inherited.
fn told(alloc: Global, number: u32) -> Result<Vec<u8>, OutOfMemory> {
    let mut out = Vec::new(alloc);
    match Property::numbered(number) {
        Some(property) => {
            out.extend_from_slice(property.name().as_bytes())?;
            out.extend_from_slice(b": ")?;
            out.extend_from_slice(&printed(alloc, &property.initial(alloc)?)?)?;
            if property.inherits() {
                out.extend_from_slice(b"+")?;
            }
        }
        None => out.extend_from_slice(b"none")?,
    }
    Ok(out)
}

#[test]
fn properties_of_the_table(rt: HostRuntime) -> Result<(), Fail> {
    for (number, (name, inherits, initial)) in (0..35u32).zip(&PROPERTIES) {
        let inherited = if *inherits { "+" } else { "" };
        let said = format!(in rt.alloc(); "{name}: {initial}{inherited}")?;
        assert_eq!(rt; told(rt.alloc(), number)?.as_slice(), said.as_bytes());
    }
    assert_eq!(rt; told(rt.alloc(), 35)?.as_slice(), b"none".as_slice());
    Ok(())
}

#[test]
fn order_is_initially_zero(rt: HostRuntime) -> Result<(), Fail> {
    let value = Property::Order.initial(rt.alloc())?;
    assert!(rt; matches!(&value, Typed::One(Item::Integer(0))));
    Ok(())
}

// A property, a text, and how the value is printed as it is read, or why it is none.
static READ: [(&str, &str, &str); 86] = [
    ("font-size", "MEDIUM", "medium"),
    ("font-size", "2em", "40px"),
    ("font-size", "50%", "10px"),
    ("font-size", "calc(1px + 50%)", "11px"),
    ("font-size", "0", "0px"),
    ("font-size", "-1px", "mismatch"),
    ("font-size", "calc(-1px)", "0px"),
    ("font-size", "large", "mismatch"),
    ("font-size", "1", "mismatch"),
    ("color", "Red", "rgb(255, 0, 0)"),
    ("color", "currentColor", "currentcolor"),
    ("color", "rgb(1e40, 0, 0)", "range"),
    ("color", "1px", "mismatch"),
    ("line-height", "Normal", "normal"),
    ("line-height", "1.5", "1.5"),
    ("line-height", "0", "0"),
    ("line-height", "150%", "30px"),
    ("line-height", "2em", "40px"),
    ("line-height", "-1", "mismatch"),
    ("line-height", "calc(-1)", "0"),
    ("line-height", "calc(-1px)", "0px"),
    ("letter-spacing", "normal", "normal"),
    ("letter-spacing", "-1px", "-1px"),
    ("letter-spacing", "0", "0px"),
    ("letter-spacing", "5%", "mismatch"),
    ("text-indent", "-5%", "-5%"),
    ("text-indent", "calc(1px + 5%)", "calc(5% + 1px)"),
    ("text-indent", "auto", "mismatch"),
    ("visibility", "Collapse", "collapse"),
    ("visibility", "none", "mismatch"),
    ("orphans", "1", "1"),
    ("orphans", "0", "mismatch"),
    ("orphans", "-1", "mismatch"),
    ("orphans", "1.0", "mismatch"),
    ("orphans", "calc(0.4)", "1"),
    ("orphans", "calc(-3)", "1"),
    ("orphans", "calc(2.5)", "3"),
    ("display", "Inline-Block", "inline-block"),
    ("display", "none", "none"),
    ("display", "table", "mismatch"),
    ("display", "inline block", "mismatch"),
    ("width", "AUTO", "auto"),
    ("width", "-5px", "mismatch"),
    ("width", "calc(-5px)", "0px"),
    ("width", "calc(100% - 5px)", "calc(100% - 5px)"),
    ("width", "none", "mismatch"),
    ("width", "inherit", "mismatch"),
    ("width", "calc(9223372036854775807px * 2)", "range"),
    ("width", "1e40px", "range"),
    ("width", "-1e40px", "mismatch"),
    ("height", "min(5%, 8%)", "min(5%, 8%)"),
    ("min-width", "auto", "auto"),
    ("min-height", "5%", "5%"),
    ("max-width", "none", "none"),
    ("max-width", "auto", "mismatch"),
    ("max-height", "1in", "96px"),
    ("margin-top", "auto", "auto"),
    ("margin-right", "-1px", "-1px"),
    ("margin-left", "-3%", "-3%"),
    ("padding-top", "3%", "3%"),
    ("padding-bottom", "auto", "mismatch"),
    ("padding-left", "-1px", "mismatch"),
    ("top", "auto", "auto"),
    ("left", "-1%", "-1%"),
    ("right", "normal", "mismatch"),
    ("row-gap", "normal", "normal"),
    ("row-gap", "-1px", "mismatch"),
    ("column-gap", "calc(1px - 2px)", "0px"),
    ("opacity", "85%", "85%"),
    ("opacity", "2", "2"),
    ("opacity", "-1", "-1"),
    ("opacity", "min(5%, 8%)", "5%"),
    ("opacity", "1px", "mismatch"),
    ("z-index", "auto", "auto"),
    ("z-index", "-7", "-7"),
    ("z-index", "1.5", "mismatch"),
    ("z-index", "calc(1.5)", "2"),
    ("order", "-1", "-1"),
    ("order", "auto", "mismatch"),
    ("flex-grow", "0.5", "0.5"),
    ("flex-grow", "-1", "mismatch"),
    ("flex-shrink", "calc(-1)", "0"),
    ("background-color", "Transparent", "rgba(0, 0, 0, 0)"),
    ("outline-offset", "-1px", "-1px"),
    ("outline-offset", "5%", "mismatch"),
    ("outline-offset", "", "mismatch"),
];

fn context() -> Context {
    Context {
        em: Frac::whole(20),
        rem: Frac::whole(16),
        width: 1280,
        height: 720,
        basis: Basis::Plain,
    }
}

// What is said of a text by the grammar of a property.
fn said(alloc: Global, property: Property, text: &str) -> Result<Vec<u8>, OutOfMemory> {
    let tokens = tokenise(alloc, text)?;
    match property.read(alloc, &tokens, &context()) {
        Ok(value) => printed(alloc, &value),
        Err(ValueErr::Mismatch) => Vec::from_slice(alloc, b"mismatch"),
        Err(ValueErr::Range) => Vec::from_slice(alloc, b"range"),
        Err(ValueErr::Memory) => Err(OutOfMemory),
    }
}

fn fits(alloc: Global, property: Property, text: &str) -> Result<bool, OutOfMemory> {
    property.fits(alloc, &tokenise(alloc, text)?)
}

#[test]
fn texts_by_grammars(rt: HostRuntime) -> Result<(), Fail> {
    for (name, text, expected) in &READ {
        match property_named(&Name::of(rt.alloc(), name)?) {
            Some(property) => {
                let read = said(rt.alloc(), property, text)?;
                assert_eq!(rt; read.as_slice(), expected.as_bytes(), "of {name}: {text}");
                let fits = fits(rt.alloc(), property, text)?;
                assert_eq!(rt; fits, *expected != "mismatch", "of {name}: {text}");
            }
            None => return Err(Fail::new("no property")),
        }
    }
    Ok(())
}
