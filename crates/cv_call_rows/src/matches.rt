//! Texts by syntaxes: the text of the typed value, or why there is none.

ghost use Rattle.std.specs.Prelude.{◌≡◌};

use cv_calc::{Basis, Context};
use cv_frac::Frac;
use cv_spec_text::OutOfMemory;
use cv_syntax::{Syntax, SyntaxErr, parse_syntax};
use cv_token::tokenise;
use cv_tokser::print;
use cv_value::{Item, Typed, ValueErr, match_syntax, typed_tokens};
use std::alloc::Global;
use std::test::Fail;

const ROWS: [(&str, &str, &str); 39] = [
    ("<length>#", "1px, 1in", "1px, 96px"),
    ("<length>#", "red", "mismatch"),
    ("<length>#", "1e30px, 1px", "range"),
    ("<length>#", "1e30px, red", "mismatch"),
    ("<length>#", "calc(1px ", "1px"),
    ("<length>#", "1px, calc(1in ", "1px, 96px"),
    ("<length>#", "calc(1px) ", "mismatch"),
    ("<integer>", "calc(2.5)", "3"),
    ("<integer>", "calc(-2.5)", "-2"),
    ("<integer>", "1.0", "mismatch"),
    ("<integer>", "-7", "-7"),
    ("<integer>", "9223372036854775808", "range"),
    ("<length>", "0", "0px"),
    ("<length>", "calc(0)", "mismatch"),
    ("red", "RED", "mismatch"),
    ("red | RED", "RED", "RED"),
    ("<length>", "1px 2px", "mismatch"),
    ("<length>+", "1px 2px", "1px 2px"),
    ("<length>+", "1px 2px ", "mismatch"),
    ("<number>", "calc(1 / 3)", "calc(1 / 3)"),
    ("<number>", "calc(1 / 0)", "mismatch"),
    ("<number>", "calc(1 / (1e30 - 1e30))", "range"),
    ("<length>", "calc(1cm / 2)", "calc(2400px / 127)"),
    ("<length>", "2em", "40px"),
    ("<percentage>", "min(5%, 8%)", "5%"),
    ("<angle>", "0.5turn", "180deg"),
    ("<time>", "5ms", "0.005s"),
    ("<resolution>", "-1dppx", "mismatch"),
    ("<resolution>", "-1e40dppx", "mismatch"),
    ("<resolution>", "calc(-1dppx)", "0dppx"),
    ("<custom-ident>", "Default", "mismatch"),
    ("<custom-ident>#", "a,b", "a, b"),
    ("<url>", "URL( \"a\"", "url(\"a\")"),
    ("<url>", "url(b)", "url(\"b\")"),
    ("<string>", "'c'", "\"c\""),
    ("<length> | <number>", "5", "5"),
    ("<integer> | <number>", "calc(1.5)", "2"),
    ("<lenght>", "1px", "bad syntax"),
    ("*", "1px", "bad syntax"),
];

// Colours.
const COLORS: [(&str, &str, &str); 5] = [
    ("<color>", "#00000080", "rgba(0, 0, 0, calc(128 / 255))"),
    ("<color>", "rgb(127.5 0 0 / 25%)", "rgba(128, 0, 0, 0.25)"),
    ("<color>", "rgb(50%, 300, 0)", "mismatch"),
    ("<color>", "CurrentColor", "currentcolor"),
    ("<color>+", "rgb(0 0 0 ", "rgb(0, 0, 0)"),
];

// By `<length-percentage>`.
const MIXED: [(&str, &str); 10] = [
    ("50%", "50%"),
    ("calc(3px + 0%)", "calc(0% + 3px)"),
    ("calc(1px + 5% + 2px)", "calc(5% + 3px)"),
    ("min(10px, 5%, 8px)", "min(8px, 5%)"),
    ("calc(0% + 3px)", "calc(0% + 3px)"),
    ("calc(2 * (1px + 5%))", "calc(10% + 2px)"),
    ("calc(1px - min(5%, 2px))", "calc(1px - min(5%, 2px))"),
    ("calc(1cm + 5%)", "calc(5% + (4800px / 127))"),
    ("calc(9223372036854775807px + 1px - 1px)", "range"),
    (
        "calc(1px - 1px + 9223372036854775807px)",
        "9223372036854775807px",
    ),
];

fn context() -> Context {
    Context {
        em: Frac::whole(20),
        rem: Frac::whole(16),
        width: 1280,
        height: 720,
        basis: Basis::Of(Frac::whole(100)),
    }
}

// The typed value of a text by a syntax that isn't universal.
fn matched(alloc: Global, syntax: &Syntax, text: &str) -> Result<Typed, ValueErr>
    requires { syntax.now ≡ Syntax.Any → ⊥ }
{
    let tokens = tokenise(alloc, text)?;
    match_syntax(alloc, syntax, &tokens, &context())
}

// The typed value of a text; nothing where there is no such syntax, or it is universal.
fn typed(alloc: Global, syntax: &str, text: &str) -> Option<Result<Typed, ValueErr>> {
    match parse_syntax(alloc, syntax) {
        Ok(Syntax::Any) => None,
        Ok(syntax) => Some(matched(alloc, &syntax, text)),
        Err(SyntaxErr::Memory) => Some(Err(ValueErr::Memory)),
        Err(_) => None,
    }
}

// What is said of a text: how its value is printed, or the refusal.
fn said(alloc: Global, syntax: &str, text: &str) -> Result<Vec<u8>, OutOfMemory> {
    let mut printed = Vec::new(alloc);
    match typed(alloc, syntax, text) {
        Some(Ok(value)) => {
            let tokens = typed_tokens(alloc, &value)?;
            print(alloc, &tokens, &mut printed)?;
        }
        Some(Err(ValueErr::Mismatch)) => printed.extend_from_slice(b"mismatch")?,
        Some(Err(ValueErr::Range)) => printed.extend_from_slice(b"range")?,
        Some(Err(ValueErr::Memory)) => return Err(OutOfMemory),
        None => printed.extend_from_slice(b"bad syntax")?,
    }
    Ok(printed)
}

#[test]
fn typed_values(rt: HostRuntime) -> Result<(), Fail> {
    for (syntax, text, expected) in ROWS {
        let printed = said(rt.alloc(), syntax, text)?;
        assert_eq!(rt; printed.as_slice(), expected.as_bytes(), "of {text:?}");
    }
    Ok(())
}

#[test]
fn colors(rt: HostRuntime) -> Result<(), Fail> {
    for (syntax, text, expected) in COLORS {
        let printed = said(rt.alloc(), syntax, text)?;
        assert_eq!(rt; printed.as_slice(), expected.as_bytes(), "of {text:?}");
    }
    Ok(())
}

#[test]
fn lengths_with_percentages(rt: HostRuntime) -> Result<(), Fail> {
    for (text, expected) in MIXED {
        let printed = said(rt.alloc(), "<length-percentage>", text)?;
        assert_eq!(rt; printed.as_slice(), expected.as_bytes(), "of {text:?}");
    }
    Ok(())
}

fn is_length(item: &Item, pixels: u32) -> bool {
    match item {
        Item::Length(v) => *v == Frac::whole(pixels),
        _ => false,
    }
}

fn are_lengths(items: &[Item], first: u32, second: u32) -> bool {
    match items {
        [a, b] => is_length(a, first) && is_length(b, second),
        _ => false,
    }
}

fn is_one_length(value: Option<Result<Typed, ValueErr>>, pixels: u32) -> bool {
    match value {
        Some(Ok(Typed::One(item))) => is_length(&item, pixels),
        _ => false,
    }
}

fn is_spaced(value: Option<Result<Typed, ValueErr>>, first: u32, second: u32) -> bool {
    match value {
        Some(Ok(Typed::Spaces(items))) => are_lengths(items.as_slice(), first, second),
        _ => false,
    }
}

fn has_commas(value: Option<Result<Typed, ValueErr>>, first: u32, second: u32) -> bool {
    match value {
        Some(Ok(Typed::Commas(items))) => are_lengths(items.as_slice(), first, second),
        _ => false,
    }
}

#[test]
fn values_are_of_their_kind(rt: HostRuntime) -> Result<(), Fail> {
    let alloc = rt.alloc();
    assert!(rt; is_one_length(typed(alloc, "<length>", "0"), 0));
    assert!(rt; is_spaced(typed(alloc, "<length>+", "1px 2px"), 1, 2));
    assert!(rt; has_commas(typed(alloc, "<length>#", "1px, 1in"), 1, 96));
    Ok(())
}
