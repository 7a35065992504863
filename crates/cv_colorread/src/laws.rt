//! What no context changes, and what is read of a colour's text.

ghost use Rattle.cv_colorread.specs.Alike.{IsMismatchAlike};
ghost use Rattle.cv_colorread.specs.ReadsBack.{ColorsReadBack};

use cv_numeric::mismatch_is_alike as numbers_are_alike;

/// Whether a list is no colour doesn't depend on the context.
#[tactic(auto, using(crate::proofs::NoMatch::mismatch_alike))]
pub fn mismatch_is_alike()
    ensures { IsMismatchAlike }
{
    numbers_are_alike()
}

/// The text of a colour whose channels are in range is read as the colour, where the texts of numbers are read as the numbers.
#[tactic(auto, using(crate::proofs::Back::colors_back))]
pub fn colors_read_back()
    ensures { ColorsReadBack }
{}
