//! The simplified forms of a number, of a sign, of an inverse and of a number within limits.

ghost use Rattle.std.specs.Prelude.{◌≡◌, true, IfOk};
ghost use Rattle.cv_frac.specs.Bounded.{in_bounds};
ghost use Rattle.cv_simplify.specs.Simplified.{negated as negative_of, inverted as inverse_of, clamped as clamped_of, number_clamped};
ghost use Rattle.cv_simplify.specs.Checked.{number_within, percent_within, literal_within, clamped_within};

use crate::joining::{greater, lesser, may_compare};
use cv_calc::{Basis, Calc, Context, Unit, to_canonical};
use cv_frac::Frac;
use sqlite_items::Boxed;
use std::alloc::{AllocError, Global};

/// A percentage, or the length in px that it is a part of.
fn percent_in(v: Frac, basis: Basis) -> Option<Calc>
    ensures { result ≡ percent_within basis v }
{
    match basis {
        Basis::Of(whole) => match v.times_over(whole, 100) {
            Ok(length) => Some(Calc::Num(length, Unit::Px)),
            Err(_) => None,
        },
        Basis::Plain => Some(Calc::Num(v, Unit::Percent)),
        Basis::Length => Some(Calc::Num(v, Unit::Percent)),
    }
}

/// A number in its canonical unit; a percentage of a known length is a length. `None` where it is out of bounds.
fn number_in(v: Frac, unit: Unit, x: &Context) -> Option<Calc>
    ensures { result ≡ number_within x.now v unit }
{
    if unit == Unit::Percent {
        percent_in(v, x.basis)
    } else {
        match to_canonical(v, unit, x) {
            Ok((converted, canonical)) => Some(Calc::Num(converted, canonical)),
            Err(_) => None,
        }
    }
}

/// A fraction, which is in bounds: its two numbers are read for the prover alone, which then knows the bounds of their type.
fn literal(v: Frac) -> Frac
    ensures same { result ≡ v }
    ensures small { in_bounds v ≡ true }
{
    let _top = v.top();
    let _bottom = v.bottom();
    v
}

/// A literal in its canonical unit.
pub(crate) fn literal_in(v: Frac, unit: Unit, x: &Context) -> Option<Calc>
    ensures { result ≡ literal_within x.now v unit }
{
    number_in(literal(v), unit, x)
}

/// The negative of a simplified calculation.
pub(crate) fn negated(alloc: Global, c: Calc) -> Result<Calc, AllocError>
    ensures { IfOk result (λ d. d ≡ negative_of c) }
{
    match c {
        Calc::Num(v, u) => Ok(Calc::Num(v.neg(), u)),
        Calc::Negate(child) => Ok(child.into_inner()),
        other => Ok(Calc::Negate(Boxed::new(alloc, other)?)),
    }
}

/// The inverse of a simplified calculation.
pub(crate) fn inverted(alloc: Global, c: Calc) -> Result<Calc, AllocError>
    ensures { IfOk result (λ d. d ≡ inverse_of c) }
{
    match c {
        Calc::Num(v, u) => inverted_number(alloc, v, u),
        Calc::Invert(child) => Ok(child.into_inner()),
        other => Ok(Calc::Invert(Boxed::new(alloc, other)?)),
    }
}

/// The inverse of a number, which is a number where it has no unit and is not 0.
fn inverted_number(alloc: Global, v: Frac, unit: Unit) -> Result<Calc, AllocError>
    ensures { IfOk result (λ d. d ≡ inverse_of (Calc.Num v unit)) }
{
    if unit == Unit::Number {
        if let Some(inverse) = v.reciprocal() {
            return Ok(Calc::Num(inverse, Unit::Number));
        }
    }
    Ok(Calc::Invert(Boxed::new(alloc, Calc::Num(v, unit))?))
}

/// The limits of a number and the number, with its unit, where the three have one in which they are compared.
fn compared(percents: bool, low: &Calc, middle: &Calc, high: &Calc) -> Option<(Frac, Unit)>
    ensures { result ≡ number_clamped percents low.now middle.now high.now }
{
    match (low, middle, high) {
        (Calc::Num(v, u), Calc::Num(w, t), Calc::Num(z, s)) => {
            if *u == *t && *u == *s && may_compare(percents, *u) {
                Some((greater(*v, lesser(*w, *z)), *u))
            } else {
                None
            }
        }
        _ => None,
    }
}

/// A simplified calculation within simplified limits.
fn clamped(
    alloc: Global,
    percents: bool,
    low: Calc,
    middle: Calc,
    high: Calc,
) -> Result<Calc, AllocError>
    ensures { IfOk result (λ d. d ≡ clamped_of percents low middle high) }
{
    match compared(percents, &low, &middle, &high) {
        Some((number, unit)) => Ok(Calc::Num(number, unit)),
        None => Ok(Calc::Clamp(
            Boxed::new(alloc, low)?,
            Boxed::new(alloc, middle)?,
            Boxed::new(alloc, high)?,
        )),
    }
}

/// A calculation within limits, where the three are in bounds.
pub(crate) fn within_limits(
    alloc: Global,
    percents: bool,
    low: Option<Calc>,
    middle: Option<Calc>,
    high: Option<Calc>,
) -> Result<Option<Calc>, AllocError>
    ensures { IfOk result (λ o. o ≡ clamped_within percents low middle high) }
{
    match low {
        Some(low) => match middle {
            Some(middle) => match high {
                Some(high) => Ok(Some(clamped(alloc, percents, low, middle, high)?)),
                None => Ok(None),
            },
            None => Ok(None),
        },
        None => Ok(None),
    }
}
