//! What no context changes, and what spellings say.

ghost use Rattle.cv_numeric.specs.Alike.{IsMismatchAlike};
ghost use Rattle.cv_numeric.specs.Signs.{SignsAreTold};

/// Whether a list is no match doesn't depend on the context.
pub fn mismatch_is_alike()
    ensures { IsMismatchAlike }
{}

/// A number is 0 or negative, as its spelling says, where its fraction is.
pub fn signs_are_told()
    ensures { SignsAreTold }
{}
