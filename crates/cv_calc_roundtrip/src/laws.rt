//! The laws.

ghost use Rattle.cv_calc_roundtrip.specs.ReadsBack.{NumbersReadBack, CalculationsReadBack};

/// The text of a number that is in bounds and of a canonical unit is one token that means it, as `0.5px`, or a quotient that simplifies to
/// it, as `calc(1px / 3)` (CSSOM, "Serializing CSS Values").
pub fn numbers_read_back()
    ensures { NumbersReadBack }
{}

/// The text of what a linear calculation of lengths and percentages simplifies to, where a percentage is a part of a length that isn't
/// known, reads back as a calculation of the same type and value: that of `calc(1px + 2 * (3% + 1em))` at 16px is `calc(6% + 33px)`
/// (CSSOM, "Serializing CSS Values").
pub fn calculations_read_back()
    ensures { CalculationsReadBack }
{}
