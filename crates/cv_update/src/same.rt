//! Whether outcomes are the same, without printing them.

ghost use Rattle.std.specs.Prelude.{◌≡◌, IsTrue};

use cv_color::Color;
use cv_frac::Frac;
use cv_props::Outcome;
use cv_spec_text::{Name, Token};
use cv_value::{Item, Typed};

fn same_number(one: Frac, other: Frac) -> bool
    ensures { IsTrue result → one ≡ other }
{
    one.top() == other.top() && one.bottom() == other.bottom()
}

fn same_text(one: &Name, other: &Name) -> bool
    ensures { IsTrue result → one.now ≡ other.now }
{
    one == other
}

fn same_color(one: &Color, other: &Color) -> bool
    ensures { IsTrue result → one.now ≡ other.now }
{
    match (one, other) {
        (Color::Current, Color::Current) => true,
        (
            Color::Rgb { r, g, b, a },
            Color::Rgb {
                r: red,
                g: green,
                b: blue,
                a: alpha,
            },
        ) => *r == *red && *g == *green && *b == *blue && same_number(*a, *alpha),
        _ => false,
    }
}

fn same_item(one: &Item, other: &Item) -> bool
    ensures { IsTrue result → one.now ≡ other.now }
{
    match (one, other) {
        (Item::Number(one), Item::Number(other)) => same_number(*one, *other),
        (Item::Integer(one), Item::Integer(other)) => *one == *other,
        (Item::Percentage(one), Item::Percentage(other)) => same_number(*one, *other),
        (Item::Length(one), Item::Length(other)) => same_number(*one, *other),
        (Item::Angle(one), Item::Angle(other)) => same_number(*one, *other),
        (Item::Time(one), Item::Time(other)) => same_number(*one, *other),
        (Item::Resolution(one), Item::Resolution(other)) => same_number(*one, *other),
        (Item::Color(one), Item::Color(other)) => same_color(one, other),
        (Item::Url(one), Item::Url(other)) => same_text(one, other),
        (Item::Str(one), Item::Str(other)) => same_text(one, other),
        (Item::Ident(one), Item::Ident(other)) => same_text(one, other),
        _ => false,
    }
}

fn same_token(one: &Token, other: &Token) -> bool
    ensures { IsTrue result → one.now ≡ other.now }
{
    *one == *other
}

fn same_tokens(one: &[Token], other: &[Token]) -> bool
    ensures { IsTrue result → one.now ≡ other.now }
{
    let mut rest = one;
    let mut left = other;
    while let Some((token, after)) = rest.split_first() {
        let Some((next, behind)) = left.split_first() else {
            return false;
        };
        if !same_token(token, next) {
            return false;
        }
        rest = after;
        left = behind;
    }
    left.is_empty()
}

fn same_items(one: &[Item], other: &[Item]) -> bool
    ensures { IsTrue result → one.now ≡ other.now }
{
    let mut rest = one;
    let mut left = other;
    while let Some((item, after)) = rest.split_first() {
        let Some((next, behind)) = left.split_first() else {
            return false;
        };
        if !same_item(item, next) {
            return false;
        }
        rest = after;
        left = behind;
    }
    left.is_empty()
}

fn same_value(one: &Typed, other: &Typed) -> bool
    ensures { IsTrue result → one.now ≡ other.now }
{
    match (one, other) {
        (Typed::One(one), Typed::One(other)) => same_item(one, other),
        (Typed::Spaces(one), Typed::Spaces(other)) => same_items(one.as_slice(), other.as_slice()),
        (Typed::Commas(one), Typed::Commas(other)) => same_items(one.as_slice(), other.as_slice()),
        _ => false,
    }
}

/// Whether two outcomes are the same, as far as that is seen without printing them: never where they differ.
pub(crate) fn are_same(one: &Outcome, other: &Outcome) -> bool
    ensures { IsTrue result → one.now ≡ other.now }
{
    match (one, other) {
        (Outcome::Tokens(one), Outcome::Tokens(other)) => same_tokens(one.tokens(), other.tokens()),
        (Outcome::Value(one), Outcome::Value(other)) => same_value(one, other),
        (Outcome::Invalid, Outcome::Invalid) => true,
        _ => false,
    }
}
