//! What a numeric item is, and which numbers it may be.

ghost use Rattle.std.specs.Prelude.{◌≡◌, Some};
ghost use Rattle.cv_calc.specs.Types.{if_equal as if_equal_of, same_powers as same_powers_of, unit_type as type_of_unit};
ghost use Rattle.cv_numeric.specs.Quantities as quantities;

use cv_calc::{Base, Calc, NumType, Unit, type_of};
use cv_frac::Frac;

/// What a numeric item is (CSS Values and Units 4, "Numeric Data Types" to "Resolution Units").
#[derive(Clone, Copy, Debug, PartialEq, Eq)]
pub enum Quantity {
    Number,
    Percentage,
    Length,
    LengthPercentage,
    Angle,
    Time,
    Resolution,
}

/// Which numbers are in range (CSS Values and Units 4, "Range Restrictions and Range Definition Notation").
#[derive(Clone, Copy, Debug, PartialEq, Eq)]
pub enum Range {
    All,
    NotNegative,
}

/// Another test, where two powers are the same.
fn if_equal(a: i64, b: i64, rest: bool) -> bool
    ensures { result ≡ if_equal_of a b rest }
{
    if a == b { rest } else { false }
}

/// Whether two types have the same powers.
fn same_powers(s: NumType, t: NumType) -> bool
    ensures { result ≡ same_powers_of s t }
{
    let percent = if_equal(s.percent, t.percent, true);
    let flex = if_equal(s.flex, t.flex, percent);
    let resolution = if_equal(s.resolution, t.resolution, flex);
    let frequency = if_equal(s.frequency, t.frequency, resolution);
    let time = if_equal(s.time, t.time, frequency);
    let angle = if_equal(s.angle, t.angle, time);
    if_equal(s.length, t.length, angle)
}

/// The type of a number of a unit.
#[tactic(auto, using(crate::proofs::Plain::plain_type))]
fn unit_type(unit: Unit) -> Option<NumType>
    ensures { result ≡ Some (type_of_unit unit) }
{
    type_of(&Calc::Num(Frac::whole(0), unit))
}

/// Whether a type has the powers of a unit.
fn has_powers_of(unit: Unit, t: NumType) -> bool
    ensures { result ≡ same_powers_of t (type_of_unit unit) }
{
    match unit_type(unit) {
        Some(u) => same_powers(t, u),
        None => false,
    }
}

/// Whether a type is that of a unit.
fn is_type_of(unit: Unit, t: NumType) -> bool
    ensures { result ≡ quantities.is_type_of unit t }
{
    has_powers_of(unit, t) && t.hint.is_none()
}

/// Whether a type is that of a length in which percentages stand for lengths.
fn is_mixed_length(t: NumType) -> bool
    ensures { result ≡ quantities.is_mixed_length t }
{
    has_powers_of(Unit::Px, t) && matches!(t.hint, Some(Base::Length))
}

/// Whether a quantity takes calculations of a type.
pub(crate) fn takes(quantity: Quantity, t: NumType) -> bool
    ensures { result ≡ quantities.takes quantity t }
{
    match quantity {
        Quantity::Number => is_type_of(Unit::Number, t),
        Quantity::Percentage => is_type_of(Unit::Percent, t),
        Quantity::Length => is_type_of(Unit::Px, t),
        Quantity::LengthPercentage => {
            is_type_of(Unit::Px, t) || is_type_of(Unit::Percent, t) || is_mixed_length(t)
        }
        Quantity::Angle => is_type_of(Unit::Deg, t),
        Quantity::Time => is_type_of(Unit::S, t),
        Quantity::Resolution => is_type_of(Unit::Dppx, t),
    }
}

/// Whether a quantity takes numbers of a unit.
pub(crate) fn takes_unit(quantity: Quantity, unit: Unit) -> bool
    ensures { result ≡ quantities.takes quantity (type_of_unit unit) }
{
    match unit_type(unit) {
        Some(t) => takes(quantity, t),
        None => false,
    }
}

/// A number within a range: the nearest in it.
#[tactic(auto, unfolding(cv_spec_ratio::specs::Ratio::zero_ratio))]
pub(crate) fn clamped(range: Range, v: Frac) -> Frac
    ensures { result ≡ quantities.clamped range v }
{
    match range {
        Range::All => v,
        Range::NotNegative => {
            let zero = Frac::whole(0);
            if v.cmp(&zero).is_le() { zero } else { v }
        }
    }
}
