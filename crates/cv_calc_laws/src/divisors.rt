//! The divisors of a calculation.

ghost use Rattle.cv_calc_laws.specs.Divisors.{FiguresAreCounted, UnitsHaveNoFigure};
ghost use Rattle.cv_calc_laws.specs.Refused.{RefusalsAreDivisors};

/// A calculation that is made of numbers alone is out of range as a divisor exactly where a fraction that is counted in it is out of
/// bounds, and else simplifies to its value. One that holds a unit is no such divisor.
pub fn divisors_are_counted()
    ensures counted { FiguresAreCounted }
    ensures units { UnitsHaveNoFigure }
{}

/// A calculation that is refused for a divisor, as `calc(1 / (2 - 2))` is, is read with that divisor at the place that is told, and with
/// none of its kind before.
pub fn refusals_are_divisors()
    ensures { RefusalsAreDivisors }
{}
