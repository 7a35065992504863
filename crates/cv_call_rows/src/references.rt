//! References of values, and values with their references replaced, by how these are printed for debugging.

ghost use Rattle.std.specs.Prelude.{◌≤◌};

use cv_spec_text::{Name, Run};
use cv_subst::{Runs, substitute};
use cv_token::tokenise;
use cv_var::check;
use std::alloc::Global;
use std::test::Fail;

static CHECKED: [(&str, &str); 19] = [
    ("var(a)", "BadVar(0)"),
    ("1 var(--)", "BadVar(2)"),
    ("a;", "BadValue(1)"),
    ("1]", "BadValue(1)"),
    ("a (;] b", "BadValue(4)"),
    ("a !x", "BadValue(2)"),
    ("var(b) var(--a,;) ;", "BadValue(10)"),
    ("x VAR(--a b)", "BadVar(2)"),
    ("[var(--a, var(b))]", "BadVar(5)"),
    ("var(--a, !)", "BadVar(0)"),
    ("\"a\n", "BadValue(0)"),
    ("var()", "BadVar(0)"),
    ("[var(--a , , ]) var(--a", "BadValue(8)"),
    ("", "[] []"),
    (
        "(a;!)",
        "[] [Text(Items { items: [Open(Round), Ident(a), Semicolon, Delim('!'), Close(Round)] })]",
    ),
    (
        "var(--a, x)",
        "[--a] [Ref { name: --a, fallback: Some(Items { items: [Text(Items { items: [Ident(x)] })] }) }]",
    ),
    (
        "a VAR( --b ,var(--c,var(--b)) ) (!;)",
        "[--b, --c] [Text(Items { items: [Ident(a), White] }), Ref { name: --b, fallback: Some(Items { items: [Ref { name: --c, fallback: Some(Items { items: [Ref { name: --b, fallback: None }] }) }] }) }, Text(Items { items: [White, Open(Round), Delim('!'), Semicolon, Close(Round)] })]",
    ),
    (
        "var(--e,)var(--a)",
        "[--e, --a] [Ref { name: --e, fallback: Some(Items { items: [] }) }, Ref { name: --a, fallback: None }]",
    ),
    (
        "f(var(--a",
        "[--a] [Text(Items { items: [Function(f)] }), Ref { name: --a, fallback: None }]",
    ),
];

fn checked(alloc: Global, text: &str) -> Result<String, Fail> {
    match check(alloc, &tokenise(alloc, text)?) {
        Ok(declared) => {
            let names = declared.references()?;
            let segments = declared.segments()?;
            Ok(format!(in alloc; "{:?} {:?}", names.as_slice(), segments.as_slice())?)
        }
        Err(refusal) => Ok(format!(in alloc; "{refusal:?}")?),
    }
}

#[test]
fn references_of_values(rt: HostRuntime) -> Result<(), Fail> {
    for (text, said) in &CHECKED {
        assert_eq!(rt; checked(rt.alloc(), text)?.as_str(), *said, "of {text:?}");
    }
    Ok(())
}

// Values by their names.
static VALUES: [(&str, &str); 3] = [("--e", ""), ("--x", "y"), ("--x", " x")];

// A value, a limit, and the tokens or the cause.
static SUBSTITUTED: [(&str, u32, &str); 9] = [
    ("var(--x)b", 3, "[White, Ident(x), Ident(b)]"),
    ("var(--x)b", 2, "OverLimit(3)"),
    ("var(--a) b", 3, "Missing(--a)"),
    (
        "[var(--x, a b c var(--y))]",
        4,
        "[Open(Square), White, Ident(x), Close(Square)]",
    ),
    (
        "var(--y, a var(--z, var(--e) var(--x) ) )",
        5,
        "[Ident(a), White, White, White, Ident(x)]",
    ),
    (
        "a b c d var(--y, var(--z)) var(--x) var(--w)",
        1,
        "Missing(--z)",
    ),
    ("var(--y,)", 1, "[]"),
    ("var(--e)", 32768, "[]"),
    ("var(--x) var(--x) var(--x)", 7, "OverLimit(8)"),
];

fn values(alloc: Global) -> Result<Runs, Fail> {
    let mut values = Runs::new(alloc);
    for (name, text) in &VALUES {
        let run = Run::of(alloc, tokenise(alloc, text)?)?;
        values.put(Name::of(alloc, name)?, run)?;
    }
    Ok(values)
}

fn substituted(alloc: Global, text: &str, values: &Runs, limit: u32) -> Result<String, Fail>
    requires some { 1 ≤ limit }
    requires most { limit ≤ 32768 }
{
    match check(alloc, &tokenise(alloc, text)?) {
        Ok(declared) => match substitute(alloc, &declared, values, limit) {
            Ok(bounded) => Ok(format!(in alloc; "{:?}", bounded.tokens())?),
            Err(refusal) => Ok(format!(in alloc; "{refusal:?}")?),
        },
        Err(refusal) => Ok(format!(in alloc; "{refusal:?}")?),
    }
}

#[test]
fn values_with_their_references_replaced(rt: HostRuntime) -> Result<(), Fail> {
    let values = values(rt.alloc())?;
    for (text, limit, said) in &SUBSTITUTED {
        let limit = (*limit).clamp(1, 32768);
        let outcome = substituted(rt.alloc(), text, &values, limit)?;
        assert_eq!(rt; outcome.as_str(), *said, "of {text:?}");
    }
    Ok(())
}

// A word so many times, with a space between.
fn repeated(alloc: Global, word: &str, times: usize) -> Result<String, Fail> {
    let mut text = String::from_str(alloc, word)?;
    for _ in 1..times {
        text.push_str(" ")?;
        text.push_str(word)?;
    }
    Ok(text)
}

#[test]
fn lists_are_counted_past_the_limit(rt: HostRuntime) -> Result<(), Fail> {
    let alloc = rt.alloc();
    let mut values = Runs::new(alloc);
    let long = tokenise(alloc, &repeated(alloc, "a", 8192)?)?;
    values.put(Name::of(alloc, "--a")?, Run::of(alloc, long)?)?;
    let many = repeated(alloc, "var(--a)", 1000)?;
    let outcome = substituted(alloc, &many, &values, 16384)?;
    assert_eq!(rt; outcome.as_str(), "OverLimit(16383999)");
    Ok(())
}
