//! Calculations that simplify to one number.

ghost use Rattle.cv_calc_laws.specs.Single.{SimplifiesToValue, TypesAreTold, AnswersHaveValues, AnswersAreNumbers, LengthsSimplifyToValue, AnswersAreLengths};

/// A linear calculation that has the type of a unit and a value simplifies to this value in the canonical unit: `calc(1in + 4px)`, which
/// is 100, to `100px` (CSS Values and Units 4, "Simplification"). Of percentages this is so where they stand for themselves.
pub fn calculations_are_numbers()
    ensures value { SimplifiesToValue }
    ensures kinds { TypesAreTold }
{}

/// Where percentages are parts of a known length, a linear calculation that is a length, a percentage or both together simplifies to its
/// value in px: `calc(1px + 50%)` of 10px to `6px`.
pub fn lengths_are_numbers()
    ensures value { LengthsSimplifyToValue }
    ensures number { AnswersAreLengths }
{}

/// A linear calculation that the reader answers has a value, since it refuses divisors that are 0. So one of the type of a unit
/// simplifies to one number.
pub fn answers_are_numbers()
    ensures value { AnswersHaveValues }
    ensures number { AnswersAreNumbers }
{}
