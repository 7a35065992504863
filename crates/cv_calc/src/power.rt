//! The powers of a type, and their bounds.

ghost use Rattle.std.specs.Prelude.{◌≡◌, ◌+ℤ◌, neg_ℤ};
ghost use Rattle.std.specs.Ordering.{int_eq};
ghost use Rattle.cv_calc.specs.Types.{power_fits as is_power, powers, within as type_within, same_powers as powers_same};

use crate::unit::{Base, NumType};

/// The first power that is out of bounds.
const LIMIT: u128 = 0x8000_0000_0000_0000;

pub(crate) const NO_POWERS: NumType = NumType {
    length: 0,
    angle: 0,
    time: 0,
    frequency: 0,
    resolution: 0,
    flex: 0,
    percent: 0,
    hint: None,
};

/// Whether a power is within bounds.
fn power_fits(power: i128) -> bool
    ensures { result ≡ is_power power }
{
    power.unsigned_abs() < LIMIT
}

/// The type of some powers, where they are within bounds.
pub(crate) fn within(
    length: i128,
    angle: i128,
    time: i128,
    frequency: i128,
    resolution: i128,
    flex: i128,
    percent: i128,
    hint: Option<Base>,
) -> Option<NumType>
    ensures { result ≡ type_within (powers length angle time frequency resolution flex percent hint) }
{
    if !power_fits(length) {
        return None;
    }
    if !power_fits(angle) {
        return None;
    }
    if !power_fits(time) {
        return None;
    }
    if !power_fits(frequency) {
        return None;
    }
    if !power_fits(resolution) {
        return None;
    }
    if !power_fits(flex) {
        return None;
    }
    if !power_fits(percent) {
        return None;
    }
    Some(NumType {
        length: length as i64,
        angle: angle as i64,
        time: time as i64,
        frequency: frequency as i64,
        resolution: resolution as i64,
        flex: flex as i64,
        percent: percent as i64,
        hint,
    })
}

/// The sum of two powers.
pub(crate) fn sum(a: i64, b: i64) -> i128
    ensures { result ≡ a +ℤ b }
{
    i128::from(a) + i128::from(b)
}

/// A power in 128 bits.
pub(crate) fn wide(a: i64) -> i128
    ensures { result ≡ a }
{
    i128::from(a)
}

/// The negative of a power.
pub(crate) fn negative(a: i64) -> i128
    ensures { result ≡ neg_ℤ a }
{
    -i128::from(a)
}

/// Whether two powers are the same.
fn same_power(a: i64, b: i64) -> bool
    ensures { result ≡ int_eq a b }
{
    a == b
}

/// Whether two types have the same powers, whatever their hints (CSS Typed OM 1, "Numeric Value Typing").
pub fn same_powers(s: NumType, t: NumType) -> bool
    ensures { result ≡ powers_same s t }
{
    if !same_power(s.length, t.length) {
        return false;
    }
    if !same_power(s.angle, t.angle) {
        return false;
    }
    if !same_power(s.time, t.time) {
        return false;
    }
    if !same_power(s.frequency, t.frequency) {
        return false;
    }
    if !same_power(s.resolution, t.resolution) {
        return false;
    }
    if !same_power(s.flex, t.flex) {
        return false;
    }
    same_power(s.percent, t.percent)
}
