//! The value of a calculation that is made of numbers alone.

ghost use Rattle.std.specs.Prelude.{◌≡◌, IfOk, ◌<◌};
ghost use Rattle.cv_spec_ratio.specs.Ratio.{Ratio, add, mul, neg, reciprocal};
ghost use Rattle.cv_spec_ratio.specs.Order.{lesser, greater};
ghost use Rattle.cv_exact.specs.Zero.{is_zero};
ghost use Rattle.cv_calc.specs.Numbers as numbers;
ghost use Rattle.cv_calcread.specs.declared.figure.Joining as joinings;
ghost use Rattle.cv_calcread.specs.Figures.{seen, operation, given, joined_as, mark_of as mark_by_figure};

use cv_calc::Unit;
use cv_exact::Exact;
use cv_frac::Frac;
use std::alloc::{AllocError, Global};

/// What is known of a part of a calculation.
#[derive(Drop)]
pub enum Figure {
    /// It holds a unit.
    Measured,
    /// It has no value, since a divisor in it is 0.
    Undefined,
    /// It has a value, and each fraction in it is in bounds.
    Inside(Frac),
    /// It has a value, and a fraction in it is out of bounds.
    Outside(Exact),
}

/// How two parts are joined.
#[derive(Clone, Copy)]
pub enum Joining {
    Add,
    Multiply,
    Least,
    Greatest,
}

/// What a divisor is.
#[derive(Clone, Copy, Debug)]
pub enum Mark {
    /// It is neither of the others.
    Fine,
    /// It is made of numbers alone and has a value, and a fraction in it is out of bounds.
    Far,
    /// It is made of numbers alone, and is 0.
    Null,
}

/// The figure of a number of a unit.
pub fn unit_figure(value: Frac, unit: Unit) -> Figure
    ensures { seen result ≡ numbers.unit_figure value unit }
{
    if unit == Unit::Number {
        Figure::Inside(value)
    } else {
        Figure::Measured
    }
}

/// The value of two fractions of any size together.
fn exact_value(joining: Joining, a: Exact, b: Exact) -> Result<Exact, AllocError>
    ensures { IfOk result (λ e. e ≡ operation joining a b) }
{
    match joining {
        Joining::Add => a.add(&b),
        Joining::Multiply => a.mul(&b),
        Joining::Least => { if a.at_most(&b)? { Ok(a) } else { Ok(b) } }
        Joining::Greatest => { if a.at_most(&b)? { Ok(b) } else { Ok(a) } }
    }
}

/// The sum of two parts in bounds.
#[tactic(auto, using(crate::proofs::Bounds::bounds))]
fn sum(alloc: Global, a: Frac, b: Frac) -> Result<Figure, AllocError>
    ensures { IfOk result (λ f. seen f ≡ numbers.figure_of (add a b)) }
{
    match a.add(b) {
        Ok(value) => Ok(Figure::Inside(value)),
        Err(_) => Ok(Figure::Outside(Exact::of(alloc, a)?.add(&Exact::of(alloc, b)?)?)),
    }
}

/// The product of two parts in bounds.
#[tactic(auto, using(crate::proofs::Bounds::bounds))]
fn product(alloc: Global, a: Frac, b: Frac) -> Result<Figure, AllocError>
    ensures { IfOk result (λ f. seen f ≡ numbers.figure_of (mul a b)) }
{
    match a.mul(b) {
        Ok(value) => Ok(Figure::Inside(value)),
        Err(_) => Ok(Figure::Outside(Exact::of(alloc, a)?.mul(&Exact::of(alloc, b)?)?)),
    }
}

/// The lesser of two fractions.
fn lesser_of(a: Frac, b: Frac) -> Frac
    ensures { result ≡ lesser a b }
{
    if a.cmp(&b).is_le() { a } else { b }
}

/// The greater of two fractions.
fn greater_of(a: Frac, b: Frac) -> Frac
    ensures { result ≡ greater a b }
{
    if a.cmp(&b).is_le() { b } else { a }
}

/// Two parts in bounds together.
fn inside_joined(alloc: Global, joining: Joining, a: Frac, b: Frac) -> Result<Figure, AllocError>
    ensures { IfOk result (λ f. seen f ≡ given joining (operation joining a b)) }
{
    match joining {
        Joining::Add => sum(alloc, a, b),
        Joining::Multiply => product(alloc, a, b),
        Joining::Least => Ok(Figure::Inside(lesser_of(a, b))),
        Joining::Greatest => Ok(Figure::Inside(greater_of(a, b))),
    }
}

/// A part in bounds and another together.
fn inside_with(alloc: Global, joining: Joining, a: Frac, g: Figure) -> Result<Figure, AllocError>
    ensures { IfOk result (λ f. seen f ≡ joined_as joining (numbers.inside a) (seen g)) }
{
    match g {
        Figure::Measured => Ok(Figure::Measured),
        Figure::Undefined => Ok(Figure::Undefined),
        Figure::Inside(b) => inside_joined(alloc, joining, a, b),
        Figure::Outside(b) => {
            let value = exact_value(joining, Exact::of(alloc, a)?, b)?;
            Ok(Figure::Outside(value))
        }
    }
}

/// A part that is out of bounds and another together.
fn outside_with(alloc: Global, joining: Joining, a: Exact, g: Figure) -> Result<Figure, AllocError>
    ensures { IfOk result (λ f. seen f ≡ joined_as joining (numbers.outside a) (seen g)) }
{
    match g {
        Figure::Measured => Ok(Figure::Measured),
        Figure::Undefined => Ok(Figure::Undefined),
        Figure::Inside(b) => {
            let value = exact_value(joining, a, Exact::of(alloc, b)?)?;
            Ok(Figure::Outside(value))
        }
        Figure::Outside(b) => {
            let value = exact_value(joining, a, b)?;
            Ok(Figure::Outside(value))
        }
    }
}

/// A part without a value and another together.
fn undefined_with(g: Figure) -> Figure
    ensures { (joining : joinings.Joining) → seen result ≡ joined_as joining numbers.undefined (seen g) }
{
    match g {
        Figure::Measured => Figure::Measured,
        Figure::Undefined => Figure::Undefined,
        Figure::Inside(_) => Figure::Undefined,
        Figure::Outside(_) => Figure::Undefined,
    }
}

/// Two parts together.
pub fn joined(alloc: Global, joining: Joining, f: Figure, g: Figure) -> Result<Figure, AllocError>
    ensures { IfOk result (λ r. seen r ≡ joined_as joining (seen f) (seen g)) }
{
    match f {
        Figure::Measured => Ok(Figure::Measured),
        Figure::Undefined => Ok(undefined_with(g)),
        Figure::Inside(a) => inside_with(alloc, joining, a, g),
        Figure::Outside(a) => outside_with(alloc, joining, a, g),
    }
}

/// The negative of a part.
pub fn negated(f: Figure) -> Figure
    ensures { seen result ≡ numbers.negated (seen f) }
{
    match f {
        Figure::Measured => Figure::Measured,
        Figure::Undefined => Figure::Undefined,
        Figure::Inside(a) => Figure::Inside(a.neg()),
        Figure::Outside(a) => Figure::Outside(a.neg()),
    }
}

/// What a part is as a divisor.
pub fn inverted(f: Figure) -> Result<Figure, AllocError>
    ensures { IfOk result (λ r. seen r ≡ numbers.inverted (seen f)) }
{
    match f {
        Figure::Measured => Ok(Figure::Measured),
        Figure::Undefined => Ok(Figure::Undefined),
        Figure::Inside(a) => match a.reciprocal() {
            None => Ok(Figure::Undefined),
            Some(value) => Ok(Figure::Inside(value)),
        },
        Figure::Outside(a) => match a.reciprocal() {
            None => Ok(Figure::Undefined),
            Some(value) => Ok(Figure::Outside(value)),
        },
    }
}

/// Whether a fraction in bounds is zero.
fn is_null(value: Frac) -> bool
    ensures { result ≡ is_zero value }
{
    value.top() == 0
}

/// What a divisor is.
pub fn mark_of(f: &Figure) -> Mark
    ensures { result ≡ mark_by_figure (seen f.now) }
{
    match f {
        Figure::Measured => Mark::Fine,
        Figure::Undefined => Mark::Fine,
        Figure::Inside(value) => {
            if is_null(*value) {
                Mark::Null
            } else {
                Mark::Fine
            }
        }
        Figure::Outside(_) => Mark::Far,
    }
}
