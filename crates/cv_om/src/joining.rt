//! How numeric values are joined.

ghost use Rattle.std.specs.Prelude.{◌≡◌};
ghost use Rattle.cv_spec_ratio.specs.Order.{lesser, greater};
ghost use Rattle.cv_om.specs.Arithmetic.{one_unit, times_unit, unit_joined, number_joined};
ghost use Rattle.cv_om.specs.Refusal.{in_range};

use crate::error::OmErr;
use cv_calc::Unit;
use cv_frac::{Frac, FracErr};

/// Values are added or multiplied, or the least or the greatest of them is taken.
#[derive(Clone, Copy)]
pub enum Joining {
    Sum,
    Product,
    Least,
    Greatest,
}

/// A fraction that has to be in bounds.
pub(crate) fn in_range(found: Result<Frac, FracErr>) -> Result<Frac, OmErr>
    ensures { result ≡ in_range found }
{
    match found {
        Ok(value) => Ok(value),
        Err(_) => Err(OmErr::Range),
    }
}

/// The lesser of two fractions.
pub(crate) fn lesser(v: Frac, w: Frac) -> Frac
    ensures { result ≡ lesser v w }
{
    if v <= w { v } else { w }
}

/// The greater of two fractions.
pub(crate) fn greater(v: Frac, w: Frac) -> Frac
    ensures { result ≡ greater v w }
{
    if v <= w { w } else { v }
}

/// The one unit of two single values.
fn one_unit(u: Option<Unit>, t: Option<Unit>) -> Option<Unit>
    ensures { result ≡ one_unit u t }
{
    let first = u?;
    let second = t?;
    if first == second { Some(first) } else { None }
}

/// The unit of the product of two single values, of which at most one isn't a plain number.
fn times_unit(u: Option<Unit>, t: Option<Unit>) -> Option<Unit>
    ensures { result ≡ times_unit u t }
{
    let first = u?;
    let second = t?;
    if first == Unit::Number {
        Some(second)
    } else if second == Unit::Number {
        Some(first)
    } else {
        None
    }
}

/// The unit of two single values together.
pub(crate) fn unit_joined(how: Joining, u: Option<Unit>, t: Option<Unit>) -> Option<Unit>
    ensures { result ≡ unit_joined how u t }
{
    match how {
        Joining::Sum => one_unit(u, t),
        Joining::Product => times_unit(u, t),
        Joining::Least => one_unit(u, t),
        Joining::Greatest => one_unit(u, t),
    }
}

/// Two numbers together.
pub(crate) fn number_joined(how: Joining, v: Frac, w: Frac) -> Result<Frac, OmErr>
    ensures { result ≡ number_joined how v w }
{
    match how {
        Joining::Sum => in_range(v.add(w)),
        Joining::Product => in_range(v.mul(w)),
        Joining::Least => Ok(lesser(v, w)),
        Joining::Greatest => Ok(greater(v, w)),
    }
}
