//! Colours by name, by digits, by channels and by text, as the text that is printed of them.

use cv_calc::{Basis, Context};
use cv_color::{Color, color_tokens, from_channels, hex, named};
use cv_colorread::read_color;
use cv_frac::Frac;
use cv_numeric::Matched;
use cv_spec_text::Name;
use cv_token::tokenise;
use cv_tokser::print;
use std::alloc::Global;
use std::test::Fail;

fn printed(alloc: Global, color: Option<Color>) -> Result<Vec<u8>, Fail> {
    let mut out = Vec::new(alloc);
    match color {
        None => out.extend_from_slice(b"none")?,
        Some(color) => {
            let tokens = color_tokens(alloc, &color)?;
            print(alloc, &tokens, &mut out)?;
        }
    }
    Ok(out)
}

static NAMED: [(&str, &[u8]); 7] = [
    ("RED", b"rgb(255, 0, 0)"),
    ("rebeccapurple", b"rgb(102, 51, 153)"),
    ("yellowgreen", b"rgb(154, 205, 50)"),
    ("Transparent", b"rgba(0, 0, 0, 0)"),
    ("currentColor", b"currentcolor"),
    ("re", b"none"),
    ("", b"none"),
];

static DIGITS: [(&str, &[u8]); 10] = [
    ("12", b"none"),
    ("1aF", b"rgb(17, 170, 255)"),
    ("1af0", b"rgba(17, 170, 255, 0)"),
    ("12345", b"none"),
    ("0a0B0c", b"rgb(10, 11, 12)"),
    ("0a0b0c33", b"rgba(10, 11, 12, 0.2)"),
    ("00000001", b"rgba(0, 0, 0, calc(1 / 255))"),
    ("ggg", b"none"),
    ("\u{e9}1", b"none"),
    ("", b"none"),
];

#[test]
fn names_and_digits_have_colors(rt: HostRuntime) -> Result<(), Fail> {
    for (name, text) in &NAMED {
        let color = named(&Name::of(rt.alloc(), name)?);
        assert_eq!(rt; printed(rt.alloc(), color)?.as_slice(), *text, "of {name}");
    }
    for (digits, text) in &DIGITS {
        let color = hex(&Name::of(rt.alloc(), digits)?);
        assert_eq!(rt;
            printed(rt.alloc(), color)?.as_slice(),
            *text,
            "of {digits}"
        );
    }
    Ok(())
}

static CHANNELS: [(i128, i128, &[u8]); 6] = [
    (255, 2, b"rgb(128, 128, 128)"),
    (3, 2, b"rgb(2, 2, 2)"),
    (1, 3, b"rgba(0, 0, 0, calc(1 / 3))"),
    (-1, 2, b"rgba(0, 0, 0, 0)"),
    (300, 1, b"rgb(255, 255, 255)"),
    (1, 2, b"rgba(1, 1, 1, 0.5)"),
];

#[test]
fn channels_are_clamped_and_rounded(rt: HostRuntime) -> Result<(), Fail> {
    for (p, q, text) in &CHANNELS {
        let v = Frac::of(*p, *q)?;
        let color = Some(from_channels(v, v, v, v));
        assert_eq!(rt; printed(rt.alloc(), color)?.as_slice(), *text, "of {p}");
    }
    Ok(())
}

fn context() -> Context {
    Context {
        em: Frac::whole(16),
        rem: Frac::whole(16),
        width: 1280,
        height: 720,
        basis: Basis::Length,
    }
}

fn read(alloc: Global, text: &str) -> Result<Vec<u8>, Fail> {
    match read_color(alloc, &tokenise(alloc, text)?, &context())? {
        Matched::No => Ok(Vec::from_slice(alloc, b"no")?),
        Matched::Out => Ok(Vec::from_slice(alloc, b"out")?),
        Matched::Fit(color) => printed(alloc, Some(color)),
    }
}

static READ: [(&str, &[u8]); 22] = [
    ("#00000080", b"rgba(0, 0, 0, calc(128 / 255))"),
    ("rgb(127.5 0 0 / 25%)", b"rgba(128, 0, 0, 0.25)"),
    ("rgb(50%, 300, 0)", b"no"),
    ("currentcolor", b"currentcolor"),
    ("Tan", b"rgb(210, 180, 140)"),
    ("RGBA( 50% , 0% , 100%,.5 )", b"rgba(128, 0, 255, 0.5)"),
    ("rgb(1 2% 3/ 4", b"rgb(1, 5, 3)"),
    ("rgb(calc(1 + 1), 0, min(3, 4", b"rgb(2, 0, 3)"),
    ("rgb(-1 calc(1 / 2) 255.4 / 1%)", b"rgba(0, 1, 255, 0.01)"),
    ("rgb(1e30, 0, 0)", b"out"),
    ("rgb(4e18% 0 0)", b"out"),
    ("rgb(1e30, 0, x)", b"no"),
    ("rgb(0 0 0) x", b"no"),
    ("rgb(0, 0, 0 / 1)", b"no"),
    ("rgb(0 0 0, 1)", b"no"),
    ("rgb(0, 0, 0, 0, 0)", b"no"),
    ("rgb(0 0 0 / 1 / 1)", b"no"),
    ("rgb(0 0)", b"no"),
    ("rgb(1px 0 0)", b"no"),
    ("rgb()", b"no"),
    ("hsl(0 0 0)", b"no"),
    ("", b"no"),
];

#[test]
fn texts_are_colors(rt: HostRuntime) -> Result<(), Fail> {
    for (text, color) in &READ {
        assert_eq!(rt; read(rt.alloc(), text)?.as_slice(), *color, "of {text:?}");
    }
    Ok(())
}
