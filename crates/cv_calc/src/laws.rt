//! Laws of the definitions.

ghost use Rattle.cv_calc.specs.Figures.{FiguresAreValues};

/// The figure of a calculation that is made of numbers alone tells its value, whatever units mean.
pub fn figures_are_values()
    ensures { FiguresAreValues }
{}
