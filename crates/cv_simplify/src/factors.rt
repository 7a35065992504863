//! The factors of a product, of which those that are numbers are multiplied at the place of the first.

ghost use Rattle.std.specs.Prelude.{◌≡◌, ◌∷◌, ◌++◌, IfOk, fold, Some, []};
ghost use Rattle.cv_calc.specs.declared.calc.Calc.TheViews.{out-Calc};
ghost use Rattle.cv_simplify.specs.Simplified.{factors_of, one_or};
ghost use Rattle.cv_simplify.specs.Checked.{number_factor as number_factor_of, other_factor as other_factor_of, with_factor as factors_with, term_scaled as scaled_term, with_scaled, all_nums as all_are_nums, is_num as is_num_as, outcome, scaled_within, other_scaled as scaled_other_of, shown as shown_of, is_shown, with_child as factors_with_child};

use crate::joining::Joined;
use crate::number::Number;
use crate::reversed::reversed;
use cv_calc::{Calc, Unit};
use cv_frac::Frac;
use sqlite_items::Items;
use std::alloc::{AllocError, Global};

/// Factors without a number, or those before the first number, the product of the numbers, and the others after it.
#[derive(Drop)]
pub(crate) enum Factors {
    Plain(Items<Calc>),
    Numbered(Items<Calc>, Number, Items<Calc>),
}

/// Multiplies by a number.
fn number_factor(alloc: Global, factors: Factors, v: Frac) -> Result<Factors, AllocError>
    ensures { IfOk result (λ fs. fs ≡ number_factor_of factors v) }
{
    match factors {
        Factors::Plain(others) => Ok(Factors::Numbered(
            others,
            Number::of(alloc, v),
            Items::new(alloc),
        )),
        Factors::Numbered(before, mut number, after) => {
            number.times(v)?;
            Ok(Factors::Numbered(before, number, after))
        }
    }
}

/// Adds a factor that isn't a number.
fn other_factor(factors: Factors, c: Calc) -> Result<Factors, AllocError>
    ensures { IfOk result (λ fs. fs ≡ other_factor_of factors c) }
{
    match factors {
        Factors::Plain(mut others) => {
            others.push(c)?;
            Ok(Factors::Plain(others))
        }
        Factors::Numbered(before, number, mut after) => {
            after.push(c)?;
            Ok(Factors::Numbered(before, number, after))
        }
    }
}

/// A further factor.
fn with_factor(alloc: Global, factors: Factors, c: Calc) -> Result<Factors, AllocError>
    ensures { IfOk result (λ fs. fs ≡ factors_with factors c) }
{
    match c {
        Calc::Num(v, u) => {
            if u == Unit::Number {
                number_factor(alloc, factors, v)
            } else {
                other_factor(factors, Calc::Num(v, u))
            }
        }
        other => other_factor(factors, other),
    }
}

/// The factors of a product within a product.
fn with_factors(
    alloc: Global,
    mut factors: Factors,
    more: Items<Calc>,
) -> Result<Factors, AllocError>
    ensures { IfOk result (λ fs. fs ≡ fold factors_with factors more) }
{
    let mut rest = reversed(alloc, more)?;
    while let Some(factor) = rest.pop() {
        factors = with_factor(alloc, factors, factor)?;
    }
    Ok(factors)
}

/// The factors that a child gives.
fn with_factors_of(alloc: Global, factors: Factors, c: Calc) -> Result<Factors, AllocError>
    ensures { IfOk result (λ fs. fs ≡ fold factors_with factors (factors_of c)) }
{
    match c {
        Calc::Product(more) => with_factors(alloc, factors, more),
        factor => with_factor(alloc, factors, factor),
    }
}

/// A number times a term that is a number, where it is in bounds.
fn term_scaled(alloc: Global, number: &Number, term: &Calc) -> Result<Option<Calc>, AllocError>
    ensures { IfOk result (λ o. o ≡ scaled_term number.now term.now) }
{
    match term {
        Calc::Num(w, u) => match number.times_within(alloc, *w)? {
            Some(product) => Ok(Some(Calc::Num(product, *u))),
            None => Ok(None),
        },
        _ => Ok(None),
    }
}

/// A number times each of some terms.
fn terms_scaled(
    alloc: Global,
    number: &Number,
    terms: &[Calc],
) -> Result<Option<Items<Calc>>, AllocError>
    ensures { IfOk result (λ o. o ≡ fold (with_scaled number.now) (Some []) terms.now) }
{
    let mut row = Items::new(alloc);
    for term in terms {
        match term_scaled(alloc, number, term)? {
            Some(product) => row.push(product)?,
            None => return Ok(None),
        }
    }
    Ok(Some(row))
}

/// Whether a term is a number, with a unit or without.
fn is_num(term: &Calc) -> bool
    ensures { result ≡ is_num_as (out-Calc term.now) }
{
    matches!(term, Calc::Num(_, _))
}

/// Whether each of some terms is a number.
fn all_nums(terms: &[Calc]) -> bool
    ensures { result ≡ all_are_nums terms.now }
{
    for term in terms {
        if !is_num(term) {
            return false;
        }
    }
    true
}

/// A number times the other factor, where this is a number with a unit or a sum of numbers.
fn scaled(alloc: Global, number: &Number, other: &Calc) -> Result<Joined, AllocError>
    ensures { IfOk result (λ j. outcome j ≡ scaled_within number.now other.now) }
{
    match other {
        Calc::Num(_, _) => match term_scaled(alloc, number, other)? {
            Some(product) => Ok(Joined::One(product)),
            None => Ok(Joined::Outside),
        },
        Calc::Sum(terms) => {
            if all_nums(terms.as_slice()) {
                match terms_scaled(alloc, number, terms.as_slice())? {
                    Some(row) => Ok(Joined::One(Calc::Sum(row))),
                    None => Ok(Joined::Outside),
                }
            } else {
                Ok(Joined::Apart)
            }
        }
        _ => Ok(Joined::Apart),
    }
}

/// A number times the other factor, where there is one alone into which it is multiplied.
fn other_scaled(
    alloc: Global,
    before: &[Calc],
    number: &Number,
    after: &[Calc],
) -> Result<Joined, AllocError>
    ensures { IfOk result (λ j. outcome j ≡ scaled_other_of before.now number.now after.now) }
{
    match (before, after) {
        ([other], []) => scaled(alloc, number, other),
        ([], [other]) => scaled(alloc, number, other),
        _ => Ok(Joined::Apart),
    }
}

/// Whether what the factors show is in bounds.
fn is_within(alloc: Global, factors: &mut Factors) -> Result<bool, AllocError>
    ensures within { IfOk result (λ b. b ≡ is_shown (shown_of factors.old)) }
    ensures same { factors.new ≡ factors.old }
{
    match factors {
        Factors::Plain(_) => Ok(true),
        Factors::Numbered(before, number, after) => {
            match other_scaled(alloc, before.as_slice(), number, after.as_slice())? {
                Joined::One(_) => Ok(true),
                Joined::Outside => Ok(false),
                Joined::Apart => Ok(number.value(alloc)?.is_some()),
            }
        }
    }
}

/// One factor alone, or their product.
fn one_or_product(mut factors: Items<Calc>) -> Calc
    ensures { result ≡ one_or Calc.Product factors }
{
    if factors.len() == 1 {
        factors.remove(0)
    } else {
        Calc::Product(factors)
    }
}

/// The product of some factors and a number among them.
fn product_with(mut before: Items<Calc>, v: Frac, after: Items<Calc>) -> Result<Calc, AllocError>
    ensures { IfOk result (λ c. c ≡ one_or Calc.Product (before ++ Calc.Num v Unit.Number ∷ after)) }
{
    before.push(Calc::Num(v, Unit::Number))?;
    before.append(after)?;
    Ok(one_or_product(before))
}

/// What the factors show, where it is in bounds.
pub(crate) fn shown(alloc: Global, factors: Factors) -> Result<Option<Calc>, AllocError>
    ensures { IfOk result (λ o. o ≡ shown_of factors) }
{
    match factors {
        Factors::Plain(others) => Ok(Some(one_or_product(others))),
        Factors::Numbered(before, mut number, after) => {
            match other_scaled(alloc, before.as_slice(), &number, after.as_slice())? {
                Joined::One(product) => Ok(Some(product)),
                Joined::Outside => Ok(None),
                Joined::Apart => match number.value(alloc)? {
                    Some(v) => Ok(Some(product_with(before, v, after)?)),
                    None => Ok(None),
                },
            }
        }
    }
}

/// A further child, where what the factors then show is in bounds.
pub(crate) fn with_child(
    alloc: Global,
    factors: Factors,
    c: Calc,
) -> Result<Option<Factors>, AllocError>
    ensures { IfOk result (λ o. o ≡ factors_with_child factors c) }
{
    let mut next = with_factors_of(alloc, factors, c)?;
    if is_within(alloc, &mut next)? {
        Ok(Some(next))
    } else {
        Ok(None)
    }
}
