//! What winning declarations are.

ghost use Rattle.cv_props.specs.WinnerLaws.{WinnersAreByKey};

/// Each kept key stands once, at the place at which it was first kept, with its winning declaration.
pub fn winners_are_by_key()
    ensures { WinnersAreByKey }
{}
