//! The order of units.

ghost use Rattle.std.specs.Prelude.{◌≡◌, ◌<◌};
ghost use Rattle.cv_simplify.specs.Text.{unit_rank as rank_of_unit, last_rank};

use cv_calc::Unit;

/// The rank of what isn't a number, behind those of the units.
pub(crate) const LAST_RANK: u32 = 30;

/// The number of ranks.
pub(crate) const RANKS: u32 = LAST_RANK + 1;

/// The place of a unit in the order of names, behind numbers and percentages.
pub(crate) fn unit_rank(unit: Unit) -> u32
    ensures rank { result ≡ rank_of_unit unit }
    ensures below { result < last_rank }
{
    match unit {
        Unit::Number => 0,
        Unit::Percent => 1,
        Unit::Q => 2,
        Unit::Ch => 3,
        Unit::Cm => 4,
        Unit::Deg => 5,
        Unit::Dpcm => 6,
        Unit::Dpi => 7,
        Unit::Dppx => 8,
        Unit::Em => 9,
        Unit::Ex => 10,
        Unit::Fr => 11,
        Unit::Grad => 12,
        Unit::Hz => 13,
        Unit::Ic => 14,
        Unit::Inch => 15,
        Unit::Khz => 16,
        Unit::Mm => 17,
        Unit::Ms => 18,
        Unit::Pc => 19,
        Unit::Pt => 20,
        Unit::Px => 21,
        Unit::Rem => 22,
        Unit::S => 23,
        Unit::Turn => 24,
        Unit::Vh => 25,
        Unit::Vmax => 26,
        Unit::Vmin => 27,
        Unit::Vw => 28,
        Unit::X => 29,
    }
}
