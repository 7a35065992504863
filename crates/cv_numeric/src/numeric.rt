//! Numeric items.

ghost use Rattle.std.specs.Prelude.{◌≡◌, IfOk};
ghost use Rattle.cv_numeric.specs.Numeric as numeric;

use crate::matched::Matched;
use crate::quantity::{Quantity, Range};
use crate::reading::{bytes_of, calculation, is_null};
use cv_calc::{Basis, Calc, Context, Unit};
use cv_frac::Frac;
use cv_spec_text::{Name, Token};
use std::alloc::{AllocError, Global};

/// A context with another basis of percentages.
fn with_basis(basis: Basis, x: &Context) -> Context
    ensures { result ≡ numeric.with_basis basis x.now }
{
    Context {
        em: x.em,
        rem: x.rem,
        width: x.width,
        height: x.height,
        basis,
    }
}

/// The number of a calculation that is one number.
#[tactic(auto, unfolding(cv_spec_ratio::specs::Ratio::zero_ratio))]
fn value_of(c: &Calc) -> Frac
    ensures { result ≡ numeric.value_of c.now }
{
    match c {
        Calc::Num(v, _) => *v,
        _ => Frac::whole(0),
    }
}

/// A quantity in which percentages stand for themselves.
fn measured(
    alloc: Global,
    quantity: Quantity,
    range: Range,
    tokens: &[Token],
    x: &Context,
) -> Result<Matched<Frac>, AllocError>
    ensures { IfOk result (λ o. o ≡ numeric.measured quantity range x.now tokens.now) }
{
    let found = calculation(alloc, quantity, range, tokens, &with_basis(Basis::Plain, x))?;
    Ok(found.map(|c| value_of(&c)))
}

/// A number, as `1.5` or `calc(1 / 3)`, within a range (CSS Values and Units 4, "Real Numbers").
pub fn number(
    alloc: Global,
    range: Range,
    tokens: &[Token],
    x: &Context,
) -> Result<Matched<Frac>, AllocError>
    ensures { IfOk result (λ o. o ≡ numeric.number range x.now tokens.now) }
{
    measured(alloc, Quantity::Number, range, tokens, x)
}

/// A percentage, as `5%`, which is 5 (CSS Values and Units 4, "Percentages").
pub fn percentage(alloc: Global, tokens: &[Token], x: &Context) -> Result<Matched<Frac>, AllocError>
    ensures { IfOk result (λ o. o ≡ numeric.percentage x.now tokens.now) }
{
    measured(alloc, Quantity::Percentage, Range::All, tokens, x)
}

/// An angle in deg, as `1turn`, which is 360 (CSS Values and Units 4, "Angle Units").
pub fn angle(alloc: Global, tokens: &[Token], x: &Context) -> Result<Matched<Frac>, AllocError>
    ensures { IfOk result (λ o. o ≡ numeric.angle x.now tokens.now) }
{
    measured(alloc, Quantity::Angle, Range::All, tokens, x)
}

/// A time in s, as `5ms`, which is 1/200 (CSS Values and Units 4, "Duration Units").
pub fn time(alloc: Global, tokens: &[Token], x: &Context) -> Result<Matched<Frac>, AllocError>
    ensures { IfOk result (λ o. o ≡ numeric.time x.now tokens.now) }
{
    measured(alloc, Quantity::Time, Range::All, tokens, x)
}

/// A resolution in dppx, as `96dpi`, which is 1 (CSS Values and Units 4, "Resolution Units"). It isn't negative.
pub fn resolution(alloc: Global, tokens: &[Token], x: &Context) -> Result<Matched<Frac>, AllocError>
    ensures { IfOk result (λ o. o ≡ numeric.resolution x.now tokens.now) }
{
    measured(alloc, Quantity::Resolution, Range::NotNegative, tokens, x)
}

/// A bare number as a length, which is 0.
#[tactic(auto, unfolding(cv_spec_ratio::specs::Ratio::zero_ratio))]
fn zero_length(spelling: &Name) -> Matched<Frac>
    ensures { result ≡ numeric.zero_length spelling.now }
{
    if is_null(spelling) {
        Matched::Fit(Frac::whole(0))
    } else {
        Matched::No
    }
}

/// A length in px, as `1in`, which is 96, or `0` (CSS Values and Units 4, "Distance Units").
pub fn length(alloc: Global, tokens: &[Token], x: &Context) -> Result<Matched<Frac>, AllocError>
    ensures { IfOk result (λ o. o ≡ numeric.length x.now tokens.now) }
{
    match tokens {
        [Token::Number(n)] => Ok(zero_length(n)),
        _ => measured(alloc, Quantity::Length, Range::All, tokens, x),
    }
}

/// A length, a percentage or both together, with the basis of the context.
pub fn length_percentage_in(
    alloc: Global,
    range: Range,
    tokens: &[Token],
    x: &Context,
) -> Result<Matched<Calc>, AllocError>
    ensures { IfOk result (λ o. o ≡ numeric.length_percentage_in range x.now tokens.now) }
{
    match tokens {
        [Token::Number(n)] => Ok(zero_length(n).map(|v| Calc::Num(v, Unit::Px))),
        _ => calculation(alloc, Quantity::LengthPercentage, range, tokens, x),
    }
}

/// A length, a percentage or both together, as `calc(5% + 3px)`, within a range (CSS Values and Units 4, "Mixing Percentages and
/// Dimensions"). Percentages stand for lengths that aren't known. What is one number is a number of px or of percent.
pub fn length_percentage(
    alloc: Global,
    range: Range,
    tokens: &[Token],
    x: &Context,
) -> Result<Matched<Calc>, AllocError>
    ensures { IfOk result (λ o. o ≡ numeric.length_percentage range x.now tokens.now) }
{
    length_percentage_in(alloc, range, tokens, &with_basis(Basis::Length, x))
}

/// Whether a number in bytes has no point and no exponent.
fn is_digits(text: &[u8]) -> bool
    ensures { result ≡ numeric.is_digits text.now }
{
    for byte in text {
        if !(byte.is_ascii_digit() || *byte == b'+' || *byte == b'-') {
            return false;
        }
    }
    true
}

/// A number token as a whole number.
#[tactic(auto, unfolding(cv_calcread::specs::Literals::is_in_range, cv_calcread::specs::Literals::exact_number))]
fn whole_number(spelling: &Name) -> Matched<i64>
    ensures { result ≡ numeric.whole_number spelling.now }
{
    if !is_digits(bytes_of(spelling)) {
        return Matched::No;
    }
    match Frac::read_spelling(spelling) {
        Ok(value) => Matched::Fit(value.round_half_up()),
        Err(_) => Matched::Out,
    }
}

/// A whole number, as `5` or `calc(9 / 2)`, which is 5 (CSS Values and Units 4, "Integers"). A math function is rounded, halves upwards.
pub fn integer(alloc: Global, tokens: &[Token], x: &Context) -> Result<Matched<i64>, AllocError>
    ensures { IfOk result (λ o. o ≡ numeric.integer x.now tokens.now) }
{
    match tokens {
        [Token::Number(n)] => Ok(whole_number(n)),
        _ => {
            let number = measured(alloc, Quantity::Number, Range::All, tokens, x)?;
            Ok(number.map(|value| value.round_half_up()))
        }
    }
}
