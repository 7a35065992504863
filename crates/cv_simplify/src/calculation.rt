//! The simplified form of a calculation.

ghost use Rattle.std.specs.Prelude.{◌≡◌, true, false, IfOk, OnOk, option_map, map};
ghost use Rattle.std.specs.Option.{option_and_then};
ghost use Rattle.cv_calc.specs.Linear.{is_linear};
ghost use Rattle.cv_calc.specs.Types.{type_of};
ghost use Rattle.cv_simplify.specs.Simplified.{one_or, compares_percent, simp};
ghost use Rattle.cv_simplify.specs.Agrees.{KeepsValue};
ghost use Rattle.cv_simplify.specs.Canonical.{holds_canonical};
ghost use Rattle.cv_simplify.specs.Counted.{is_in_range};
ghost use Rattle.cv_simplify.specs.Normal.{number_terms, other_terms, EachUnitOnce};
ghost use Rattle.cv_simplify.specs.TypeIn.{type_in};
ghost use Rattle.cv_simplify.specs.Checked.{checked as checked_of, row_within, factors_within, shown as shown_of};

use crate::error::SimpErr;
use crate::factors::{Factors, shown, with_child};
use crate::joining::{Joining, compares_percent};
use crate::parted::{Normal, parted, terms_alone};
use crate::row::{Row, with_simple};
use crate::single::{inverted, literal_in, negated, within_limits};
use cv_calc::{Calc, Context};
use sqlite_items::Items;
use std::alloc::{AllocError, Global};

/// The simplified form, or `None` where a fraction that is counted is out of bounds.
#[cycle(simplify)]
#[tactic(auto, using(crate::proofs::Steps::checked_equations))]
fn checked(alloc: Global, c: &Calc, x: &Context) -> Result<Option<Calc>, AllocError>
    ensures { IfOk result (λ o. o ≡ checked_of x.now c.now) }
{
    match c {
        Calc::Num(v, u) => Ok(literal_in(*v, *u, x)),
        Calc::Sum(children) => sum(alloc, children.as_slice(), x),
        Calc::Product(children) => product(alloc, children.as_slice(), x),
        Calc::Negate(child) => match checked(alloc, child.get(), x)? {
            Some(simple) => Ok(Some(negated(alloc, simple)?)),
            None => Ok(None),
        },
        Calc::Invert(child) => match checked(alloc, child.get(), x)? {
            Some(simple) => Ok(Some(inverted(alloc, simple)?)),
            None => Ok(None),
        },
        Calc::Min(children) => least(alloc, children.as_slice(), x),
        Calc::Max(children) => greatest(alloc, children.as_slice(), x),
        Calc::Clamp(low, middle, high) => {
            let low = checked(alloc, low.get(), x)?;
            let middle = checked(alloc, middle.get(), x)?;
            let high = checked(alloc, high.get(), x)?;
            within_limits(alloc, compares_percent(x), low, middle, high)
        }
    }
}

/// The simplified children, of which numbers of one unit are joined.
#[cycle(simplify)]
fn row(
    alloc: Global,
    how: Joining,
    children: &[Calc],
    x: &Context,
) -> Result<Option<Items<Calc>>, AllocError>
    ensures { IfOk result (λ o. o ≡ row_within how (map (checked_of x.now) children.now)) }
{
    let mut row = Row::new(alloc)?;
    for child in children {
        match checked(alloc, child, x)? {
            Some(simple) => match with_simple(alloc, how, row, simple)? {
                Some(next) => row = next,
                None => return Ok(None),
            },
            None => return Ok(None),
        }
    }
    Ok(Some(row.into_terms()))
}

/// The sum of some children.
#[cycle(simplify)]
fn sum(alloc: Global, children: &[Calc], x: &Context) -> Result<Option<Calc>, AllocError>
    ensures { IfOk result (λ o. o ≡ option_map (one_or Calc.Sum) (row_within Joining.Sum (map (checked_of x.now) children.now))) }
{
    match row(alloc, Joining::Sum, children, x)? {
        Some(mut row) => {
            if row.len() == 1 {
                Ok(Some(row.remove(0)))
            } else {
                Ok(Some(Calc::Sum(row)))
            }
        }
        None => Ok(None),
    }
}

/// The least of some children.
#[cycle(simplify)]
fn least(alloc: Global, children: &[Calc], x: &Context) -> Result<Option<Calc>, AllocError>
    ensures { IfOk result (λ o. o ≡ option_map (one_or Calc.Min) (row_within (Joining.Least (compares_percent x.now.basis)) (map (checked_of x.now) children.now))) }
{
    let percents = compares_percent(x);
    match row(alloc, Joining::Least(percents), children, x)? {
        Some(mut row) => {
            if row.len() == 1 {
                Ok(Some(row.remove(0)))
            } else {
                Ok(Some(Calc::Min(row)))
            }
        }
        None => Ok(None),
    }
}

/// The greatest of some children.
#[cycle(simplify)]
fn greatest(alloc: Global, children: &[Calc], x: &Context) -> Result<Option<Calc>, AllocError>
    ensures { IfOk result (λ o. o ≡ option_map (one_or Calc.Max) (row_within (Joining.Greatest (compares_percent x.now.basis)) (map (checked_of x.now) children.now))) }
{
    let percents = compares_percent(x);
    match row(alloc, Joining::Greatest(percents), children, x)? {
        Some(mut row) => {
            if row.len() == 1 {
                Ok(Some(row.remove(0)))
            } else {
                Ok(Some(Calc::Max(row)))
            }
        }
        None => Ok(None),
    }
}

/// The factors of some children.
#[cycle(simplify)]
fn factors_of(alloc: Global, children: &[Calc], x: &Context) -> Result<Option<Factors>, AllocError>
    ensures { IfOk result (λ o. o ≡ factors_within (map (checked_of x.now) children.now)) }
{
    let mut factors = Factors::Plain(Items::new(alloc));
    for child in children {
        match checked(alloc, child, x)? {
            Some(simple) => match with_child(alloc, factors, simple)? {
                Some(next) => factors = next,
                None => return Ok(None),
            },
            None => return Ok(None),
        }
    }
    Ok(Some(factors))
}

/// The product of some children.
#[cycle(simplify)]
fn product(alloc: Global, children: &[Calc], x: &Context) -> Result<Option<Calc>, AllocError>
    ensures { IfOk result (λ o. o ≡ option_and_then shown_of (factors_within (map (checked_of x.now) children.now))) }
{
    match factors_of(alloc, children, x)? {
        Some(factors) => shown(alloc, factors),
        None => Ok(None),
    }
}

/// The simplified form of a linear calculation in a context (CSS Values and Units 4, "Simplification").
///
/// # Errors
///
/// `Range` where a fraction that is counted is out of bounds, and `Memory`.
pub fn simplify(alloc: Global, c: &Calc, x: &Context) -> Result<Calc, SimpErr>
    requires { is_linear c.now ≡ true }
    ensures value { IfOk result (λ s. s ≡ simp x.now c.now) }
    ensures in_range { OnOk result (is_in_range x.now c.now ≡ true) }
    ensures range { result ≡ Err SimpErr.Range → is_in_range x.now c.now ≡ false }
    ensures units { IfOk result (λ s. holds_canonical s ≡ true) }
    ensures kept { IfOk result (KeepsValue x.now c.now) }
    ensures type_kept { IfOk result (λ s. type_of s ≡ type_in x.now.basis c.now) }
{
    match checked(alloc, c, x)? {
        Some(simple) => Ok(simple),
        None => Err(SimpErr::Range),
    }
}

/// The simplified form of a linear calculation in a context as a sum (CSS Values and Units 4, "Simplification"): 3px and 5%, and no
/// other terms, for `1px + 5% + 2px` where percentages are kept.
///
/// # Errors
///
/// `Range` where a fraction that is counted is out of bounds, and `Memory`.
pub fn normal(alloc: Global, c: &Calc, x: &Context) -> Result<Normal, SimpErr>
    requires { is_linear c.now ≡ true }
    ensures terms { IfOk result (λ n. n.terms ≡ number_terms (simp x.now c.now)) }
    ensures others { IfOk result (λ n. n.others ≡ other_terms (simp x.now c.now)) }
    ensures once { IfOk result (λ n. EachUnitOnce n.terms) }
    ensures in_range { OnOk result (is_in_range x.now c.now ≡ true) }
    ensures range { result ≡ Err SimpErr.Range → is_in_range x.now c.now ≡ false }
{
    match simplify(alloc, c, x) {
        Ok(simple) => Ok(parted(alloc, terms_alone(alloc, simple)?)?),
        Err(error) => Err(error),
    }
}
