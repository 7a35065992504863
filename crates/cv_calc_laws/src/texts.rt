//! Texts of calculations.

ghost use Rattle.cv_calc_laws.specs.Pieces.{TextsAreTaken};

/// The text of a calculation is made of numbers, percentages and dimensions of its units, of the functions `calc`, `min`, `max` and
/// `clamp`, and of brackets, operators, commas and whitespace: a test that takes these takes each token of it (CSS Values and Units 4,
/// "Serialization").
pub fn texts_are_taken()
    ensures { TextsAreTaken }
{}
