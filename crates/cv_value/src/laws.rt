//! What no context changes.

ghost use Rattle.cv_value.specs.Alike.{IsMismatchAlike};

use cv_colorread::mismatch_is_alike as colors_are_alike;
use cv_numeric::mismatch_is_alike as numbers_are_alike;

/// Whether a list matches a syntax doesn't depend on the context.
pub fn mismatch_is_alike()
    ensures { IsMismatchAlike }
{
    numbers_are_alike();
    colors_are_alike();
}
