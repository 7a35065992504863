//! How numbers of one unit are joined.

ghost use Rattle.std.specs.Prelude.{◌≡◌};
ghost use Rattle.cv_spec_ratio.specs.Order.{lesser as lesser_of, greater as greater_of};
ghost use Rattle.cv_simplify.specs.Simplified.{compares_percent as percents_compared, may_compare as may_compare_in};
ghost use Rattle.cv_simplify.specs.Checked.{may_join as may_join_by, number_joined as number_joined_by, joined_within};

use cv_calc::{Basis, Calc, Context, Unit};
use cv_frac::Frac;

/// What becomes of two numbers of one unit: their sum, or the least or the greatest of them.
#[derive(Clone, Copy)]
pub(crate) enum Joining {
    Sum,
    /// Percentages are compared or not.
    Least(bool),
    Greatest(bool),
}

/// Two calculations that aren't joined, or that become one, which may be out of bounds.
#[derive(Drop)]
pub(crate) enum Joined {
    Apart,
    Outside,
    One(Calc),
}

/// Whether percentages are compared: where they stand for themselves.
pub(crate) fn compares_percent(x: &Context) -> bool
    ensures { result ≡ percents_compared x.now.basis }
{
    match x.basis {
        Basis::Plain => true,
        Basis::Length => false,
        Basis::Of(_) => false,
    }
}

/// Whether numbers of a unit are compared.
pub(crate) fn may_compare(percents: bool, unit: Unit) -> bool
    ensures { result ≡ may_compare_in percents unit }
{
    if percents {
        true
    } else {
        !(unit == Unit::Percent)
    }
}

/// Whether numbers of a unit are joined.
fn may_join(how: Joining, unit: Unit) -> bool
    ensures { result ≡ may_join_by how unit }
{
    match how {
        Joining::Sum => true,
        Joining::Least(percents) => may_compare(percents, unit),
        Joining::Greatest(percents) => may_compare(percents, unit),
    }
}

/// The lesser of two fractions.
pub(crate) fn lesser(v: Frac, w: Frac) -> Frac
    ensures { result ≡ lesser_of v w }
{
    if v <= w { v } else { w }
}

/// The greater of two fractions.
pub(crate) fn greater(v: Frac, w: Frac) -> Frac
    ensures { result ≡ greater_of v w }
{
    if v <= w { w } else { v }
}

/// What two numbers of one unit become, or `None` where their sum is out of bounds.
fn number_joined(how: Joining, v: Frac, w: Frac) -> Option<Frac>
    ensures { result ≡ number_joined_by how v w }
{
    match how {
        Joining::Sum => v.add(w).ok(),
        Joining::Least(_) => Some(lesser(v, w)),
        Joining::Greatest(_) => Some(greater(v, w)),
    }
}

/// The number that two calculations become, where they are joined.
pub(crate) fn join(how: Joining, c: &Calc, d: &Calc) -> Joined
    ensures { result ≡ joined_within how c.now d.now }
{
    match c {
        Calc::Num(v, u) => match d {
            Calc::Num(w, t) => {
                if *u == *t && may_join(how, *u) {
                    match number_joined(how, *v, *w) {
                        Some(number) => Joined::One(Calc::Num(number, *u)),
                        None => Joined::Outside,
                    }
                } else {
                    Joined::Apart
                }
            }
            _ => Joined::Apart,
        },
        _ => Joined::Apart,
    }
}
