//! Names, runs and keys.

use cv_spec_text::{Name, Run};
use cv_token::tokenise;
use cv_tokser::print;
use cv_valuation::{Key, Property, key_text};
use std::alloc::Global;
use std::test::Fail;

#[test]
fn names_runs_and_keys(rt: HostRuntime) -> Result<(), Fail> {
    let alloc = rt.alloc();
    assert_eq!(rt; Name::of(alloc, "a")?.text(), "a");
    let run = Run::of(alloc, tokenise(alloc, "a b")?)?;
    assert_eq!(rt; run.tokens().len(), 3);
    assert!(rt; run.share()?.tokens() == run.tokens());
    let width = Key::named(alloc, "WIDTH")?;
    assert!(rt; width == Some(Key::Table(Property::Width)));
    assert!(rt; Key::named(alloc, "--")?.is_none());
    assert!(rt; Key::named(alloc, "colour")?.is_none());
    Ok(())
}

// Texts side by side, as they are printed.
static PRINTED: [(&str, &str, &[u8]); 3] = [
    ("20", "px", b"20/**/px"),
    ("\\-1\\ x", "px", b"-\\31 \\ x/**/px"),
    ("a", " ", b"a "),
];

fn printed(alloc: Global, first: &str, second: &str) -> Result<Vec<u8>, Fail> {
    let mut tokens = tokenise(alloc, first)?;
    for token in tokenise(alloc, second)? {
        tokens.push(token)?;
    }
    let mut out = Vec::new(alloc);
    print(alloc, &tokens, &mut out)?;
    Ok(out)
}

#[test]
fn tokens_side_by_side(rt: HostRuntime) -> Result<(), Fail> {
    for (first, second, text) in &PRINTED {
        let out = printed(rt.alloc(), first, second)?;
        assert_eq!(rt; out.as_slice(), *text, "of {first} and {second}");
    }
    let mut text = Vec::new(rt.alloc());
    key_text(
        rt.alloc(),
        &Key::Custom(Name::of(rt.alloc(), "--A b")?),
        &mut text,
    )?;
    assert_eq!(rt; text.as_slice(), b"--A\\ b".as_slice());
    Ok(())
}
