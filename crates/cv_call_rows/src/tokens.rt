//! Texts as tokens, items and rules, by how these are printed for debugging.

use cv_component::{declarations, depth, is_too_deep, rules};
use cv_spec_text::{Bracket, OutOfMemory, Token};
use cv_token::tokenise;
use cv_tokser::joins;
use std::alloc::Global;
use std::test::Fail;

static TOKENS: [(&str, &str); 23] = [
    ("1e3px", "[Dimension(1e3, px)]"),
    ("1e px", "[Dimension(1, e), White, Ident(px)]"),
    ("1e3-", "[Number(1e3), Delim('-')]"),
    ("a/**/b", "[Ident(a), Ident(b)]"),
    (
        "--a:  1px ",
        "[Ident(--a), Colon, White, Dimension(1, px), White]",
    ),
    ("a.5", "[Ident(a), Number(.5)]"),
    ("+1.5%-.5e-2", "[Percentage(+1.5), Number(-.5e-2)]"),
    ("-->", "[Cdc]"),
    ("<!---", "[Cdo, Delim('-')]"),
    ("--\u{0}", "[Ident(--\u{fffd})]"),
    ("@media{", "[At(media), Open(Curly)]"),
    ("#1a #a", "[Hash(1a, false), White, Hash(a, true)]"),
    ("'a\\\nb'", "[Str(ab)]"),
    ("\"a\nb", "[BadStr, White, Ident(b)]"),
    ("\"a\\", "[Str(a)]"),
    ("\\75rl( a\\) )", "[Url(a))]"),
    (
        "URL( 'a' )",
        "[Function(URL), White, Str(a), White, Close(Round)]",
    ),
    ("url(a b\\))c", "[BadUrl, Ident(c)]"),
    ("\\41 b\\\nc", "[Ident(Ab), Delim('\\\\'), White, Ident(c)]"),
    ("\\110000\\", "[Ident(\u{fffd}\u{fffd})]"),
    ("a\r\n\r\u{c}b/*x", "[Ident(a), White, Ident(b)]"),
    ("a /**/ b", "[Ident(a), White, White, Ident(b)]"),
    (
        "var(--x,[1])",
        "[Function(var), Ident(--x), Comma, Open(Square), Number(1), Close(Square), Close(Round)]",
    ),
];

#[test]
fn tokens_of_texts(rt: HostRuntime) -> Result<(), Fail> {
    for (text, said) in &TOKENS {
        let all = tokenise(rt.alloc(), text)?;
        let printed = format!(in rt.alloc(); "{:?}", all.as_slice())?;
        assert_eq!(rt; printed.as_str(), *said, "of {text:?}");
    }
    Ok(())
}

static ITEMS: [(&str, &str); 2] = [
    (
        "a:b;;@x{}c:d",
        "[Decl { name: a, value: Items { items: [Ident(b)] }, important: false }, At, Decl { name: c, value: Items { items: [Ident(d)] }, important: false }]",
    ),
    (
        "--a: (1 ! IMPORTANT",
        "[Decl { name: --a, value: Items { items: [Open(Round), Number(1), White, Delim('!'), White, Ident(IMPORTANT), Close(Round)] }, important: false }]",
    ),
];

#[test]
fn items_of_styles(rt: HostRuntime) -> Result<(), Fail> {
    for (text, said) in &ITEMS {
        let items = declarations(rt.alloc(), &tokenise(rt.alloc(), text)?)?;
        let printed = format!(in rt.alloc(); "{:?}", items.as_slice())?;
        assert_eq!(rt; printed.as_str(), *said, "of {text:?}");
    }
    Ok(())
}

static RULES: [(&str, &str); 2] = [
    (
        "@x; a{}",
        "[At { name: x, prelude: Items { items: [] }, block: None }, Other]",
    ),
    (
        "@p{a:1[",
        "[At { name: p, prelude: Items { items: [] }, block: Some(Items { items: [Ident(a), Colon, Number(1), Open(Square), Close(Square)] }) }]",
    ),
];

#[test]
fn rules_of_sheets(rt: HostRuntime) -> Result<(), Fail> {
    for (text, said) in &RULES {
        let all = rules(rt.alloc(), &tokenise(rt.alloc(), text)?)?;
        let printed = format!(in rt.alloc(); "{:?}", all.as_slice())?;
        assert_eq!(rt; printed.as_str(), *said, "of {text:?}");
    }
    Ok(())
}

fn open_brackets(alloc: Global, count: usize) -> Result<Vec<Token>, OutOfMemory> {
    let mut tokens = Vec::new(alloc);
    for _ in 0..count {
        tokens.push(Token::Open(Bracket::Square))?;
    }
    Ok(tokens)
}

#[test]
fn a_million_brackets(rt: HostRuntime) -> Result<(), Fail> {
    let tokens = open_brackets(rt.alloc(), 1_000_000)?;
    assert!(rt; is_too_deep(&tokens));
    assert_eq!(rt; depth(&tokens), 1_000_000);
    let word = tokenise(rt.alloc(), "a")?;
    assert!(rt;
        word.first()
            .is_some_and(|first| !joins(first, &Token::White))
    );
    Ok(())
}
