//! What a list is as one item.

ghost use Rattle.std.specs.Prelude.{◌≡◌, IfOk};
ghost use Rattle.cv_value.specs.Items as items;

use crate::typed::Item;
use cv_calc::{Calc, Context, Unit};
use cv_colorread::read_color;
use cv_component::trim_front;
use cv_frac::Frac;
use cv_numeric::{
    Matched, Range, angle, integer, length, length_percentage, number, percentage, resolution, time,
};
use cv_spec_text::{Bracket, Name, Token};
use cv_syntax::Kind;
use std::alloc::{AllocError, Global};

/// One number of a unit as a length or a percentage.
fn numeral_item(v: Frac, unit: Unit) -> Item
    ensures { result ≡ items.numeral_item v unit }
{
    match unit {
        Unit::Px => Item::Length(v),
        Unit::Percent => Item::Percentage(v),
        other => Item::Mixed(Calc::Num(v, other)),
    }
}

/// A length, a percentage or both together, as an item.
pub fn mixed_item(c: Calc) -> Item
    ensures { result ≡ items.mixed_item c }
{
    match c {
        Calc::Num(v, unit) => numeral_item(v, unit),
        other => Item::Mixed(other),
    }
}

/// Whether nothing follows but the bracket that closes a function, where it is closed.
fn is_end(tokens: &[Token]) -> bool
    ensures { result ≡ items.is_end tokens.now }
{
    match tokens {
        [] => true,
        [Token::Close(Bracket::Round)] => true,
        _ => false,
    }
}

/// What stands within `url(` as an item.
fn url_inside(tokens: &[Token]) -> Result<Matched<Item>, AllocError>
    ensures { IfOk result (λ o. o ≡ items.url_inside tokens.now) }
{
    match tokens {
        [Token::Str(text), rest @ ..] => {
            if is_end(trim_front(rest)) {
                Ok(Matched::Fit(Item::Url(text.copy()?)))
            } else {
                Ok(Matched::No)
            }
        }
        _ => Ok(Matched::No),
    }
}

/// A url: a token, or `url(` with one string (CSS Values and Units 4, "Resource Locators").
fn url(tokens: &[Token]) -> Result<Matched<Item>, AllocError>
    ensures { IfOk result (λ o. o ≡ items.url tokens.now) }
{
    match tokens {
        [Token::Url(text)] => Ok(Matched::Fit(Item::Url(text.copy()?))),
        [Token::Function(name), rest @ ..] => {
            if name.is_word("url") {
                url_inside(trim_front(rest))
            } else {
                Ok(Matched::No)
            }
        }
        _ => Ok(Matched::No),
    }
}

/// A string (CSS Values and Units 4, "Quoted Strings").
fn string(tokens: &[Token]) -> Result<Matched<Item>, AllocError>
    ensures { IfOk result (λ o. o ≡ items.string tokens.now) }
{
    match tokens {
        [Token::Str(text)] => Ok(Matched::Fit(Item::Str(text.copy()?))),
        _ => Ok(Matched::No),
    }
}

/// An ident that is no CSS-wide keyword and not `default` (CSS Values and Units 4, "Author-defined Identifiers").
fn custom_ident(tokens: &[Token]) -> Result<Matched<Item>, AllocError>
    ensures { IfOk result (λ o. o ≡ items.custom_ident tokens.now) }
{
    match tokens {
        [Token::Ident(name)] => {
            if name.is_css_wide_keyword() || name.is_word("default") {
                Ok(Matched::No)
            } else {
                Ok(Matched::Fit(Item::Ident(name.copy()?)))
            }
        }
        _ => Ok(Matched::No),
    }
}

/// The ident of a syntax, with its case.
fn literal(word: &Name, tokens: &[Token]) -> Result<Matched<Item>, AllocError>
    ensures { IfOk result (λ o. o ≡ items.literal word.now tokens.now) }
{
    match tokens {
        [Token::Ident(name)] => {
            if name == word {
                Ok(Matched::Fit(Item::Ident(name.copy()?)))
            } else {
                Ok(Matched::No)
            }
        }
        _ => Ok(Matched::No),
    }
}

/// What a list is as one item of a kind.
pub(crate) fn item(
    alloc: Global,
    kind: &Kind,
    tokens: &[Token],
    x: &Context,
) -> Result<Matched<Item>, AllocError>
    ensures { IfOk result (λ o. o ≡ items.item kind.now x.now tokens.now) }
{
    match kind {
        Kind::Length => Ok(length(alloc, tokens, x)?.map(|v| Item::Length(v))),
        Kind::Number => Ok(number(alloc, Range::All, tokens, x)?.map(|v| Item::Number(v))),
        Kind::Percentage => Ok(percentage(alloc, tokens, x)?.map(|v| Item::Percentage(v))),
        Kind::LengthPercentage => {
            let found = length_percentage(alloc, Range::All, tokens, x)?;
            Ok(found.map(|c| mixed_item(c)))
        }
        Kind::Color => Ok(read_color(alloc, tokens, x)?.map(|v| Item::Color(v))),
        Kind::Url => url(tokens),
        Kind::Integer => Ok(integer(alloc, tokens, x)?.map(|v| Item::Integer(v))),
        Kind::Angle => Ok(angle(alloc, tokens, x)?.map(|v| Item::Angle(v))),
        Kind::Time => Ok(time(alloc, tokens, x)?.map(|v| Item::Time(v))),
        Kind::Resolution => Ok(resolution(alloc, tokens, x)?.map(|v| Item::Resolution(v))),
        Kind::Str => string(tokens),
        Kind::CustomIdent => custom_ident(tokens),
        Kind::Literal(word) => literal(word, tokens),
    }
}
