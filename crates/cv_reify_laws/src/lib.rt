//! Laws of the objects of declarations.
#![tactic(auto)]

ghost use Rattle.cv_reify_laws.specs.Ranges.{RangesAreOut};

use cv_numeric::mismatch_is_alike;
use cv_property::matches_are_alike;

/// A declaration of an ordinary property that has no object, since a number in it is out of range, is out of range as a value of the
/// property.
pub fn ranges_are_out()
    ensures { RangesAreOut }
{
    mismatch_is_alike();
    matches_are_alike();
}
