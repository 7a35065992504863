//! Red, green and blue as numbers.

ghost use Rattle.std.specs.Prelude.{◌≡◌, ◌<◌, map, IfOk};
ghost use Rattle.cv_colorread.specs.Channels as channels;

use cv_calc::Context;
use cv_frac::Frac;
use cv_numeric::{Matched, Range, number, percentage};
use cv_spec_text::Token;
use std::alloc::{AllocError, Global};

/// Red, green and blue, of which 0 to 255 are in the range of a colour.
#[derive(Clone, Copy)]
pub struct Channels {
    pub red: Frac,
    pub green: Frac,
    pub blue: Frac,
}

/// How a number of a colour function is written.
#[derive(Clone, Copy)]
pub(crate) enum Form {
    Number,
    Percentage,
    Either,
}

/// So many hundredths of a fraction, which have to be in bounds.
fn hundredths(whole: u32, v: Frac) -> Matched<Frac>
    ensures { result ≡ channels.counted (channels.hundredths whole v) }
{
    match v.times_over(Frac::whole(whole), 100) {
        Ok(part) => Matched::Fit(part),
        Err(_) => Matched::Out,
    }
}

/// A percentage as its part of a whole.
fn by_percentage(
    alloc: Global,
    whole: u32,
    tokens: &[Token],
    x: &Context,
) -> Result<Matched<Frac>, AllocError>
    ensures { IfOk result (λ o. o ≡ channels.by_percentage whole x.now tokens.now) }
{
    match percentage(alloc, tokens, x)? {
        Matched::Fit(v) => Ok(hundredths(whole, v)),
        Matched::Out => Ok(Matched::Out),
        Matched::No => Ok(Matched::No),
    }
}

/// A number, or a percentage as its part of a whole.
pub(crate) fn by_either(
    alloc: Global,
    whole: u32,
    tokens: &[Token],
    x: &Context,
) -> Result<Matched<Frac>, AllocError>
    ensures { IfOk result (λ o. o ≡ channels.by_either whole x.now tokens.now) }
{
    match number(alloc, Range::All, tokens, x)? {
        Matched::Fit(v) => Ok(Matched::Fit(v)),
        Matched::Out => Ok(Matched::Out),
        Matched::No => by_percentage(alloc, whole, tokens, x),
    }
}

/// A channel in a form.
fn channel(
    alloc: Global,
    form: Form,
    tokens: &[Token],
    x: &Context,
) -> Result<Matched<Frac>, AllocError>
    ensures { IfOk result (λ o. o ≡ channels.read_as form x.now tokens.now) }
{
    match form {
        Form::Number => number(alloc, Range::All, tokens, x),
        Form::Percentage => by_percentage(alloc, 255, tokens, x),
        Form::Either => by_either(alloc, 255, tokens, x),
    }
}

/// Three channels: no match where one is none, else out of range where one is.
fn together(red: Matched<Frac>, green: Matched<Frac>, blue: Matched<Frac>) -> Matched<Channels>
    ensures { result ≡ channels.together red green blue }
{
    match (red, green, blue) {
        (Matched::No, _, _) => Matched::No,
        (_, Matched::No, _) => Matched::No,
        (_, _, Matched::No) => Matched::No,
        (Matched::Fit(red), Matched::Fit(green), Matched::Fit(blue)) => {
            Matched::Fit(Channels { red, green, blue })
        }
        _ => Matched::Out,
    }
}

/// Three lists as channels in a form.
pub(crate) fn three(
    alloc: Global,
    form: Form,
    lists: &[&[Token]],
    x: &Context,
) -> Result<Matched<Channels>, AllocError>
    ensures { IfOk result (λ o. o ≡ channels.three (channels.read_as form x.now) (map (λ list. list.now) lists.now)) }
{
    match lists {
        [red, green, blue] => {
            let red = channel(alloc, form, red, x)?;
            let green = channel(alloc, form, green, x)?;
            let blue = channel(alloc, form, blue, x)?;
            Ok(together(red, green, blue))
        }
        _ => Ok(Matched::No),
    }
}
