//! Laws of the definitions.

ghost use Rattle.cv_gen.specs.Summary.{SmallSumsAreWithin};

/// The sums of a summary are in bounds where the lengths are whole and no more than 2 ^ 40 px.
pub fn small_sums_are_within()
    ensures { SmallSumsAreWithin }
{}
