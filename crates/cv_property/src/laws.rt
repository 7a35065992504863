//! What the table keeps.

ghost use Rattle.cv_property.specs.Alike.{MatchesAreAlike};
ghost use Rattle.cv_property.specs.Portions.{PortionsAreCounted};
ghost use Rattle.cv_property.specs.TableLaws.{TableIsFound};

use cv_colorread::mismatch_is_alike as colors_are_alike;
use cv_numeric::mismatch_is_alike as numbers_are_alike;

/// Each property has a number of its own and a name of its own, and is found by them.
pub fn table_is_found()
    ensures { TableIsFound }
{}

/// Whether a list is a value of a property doesn't depend on the context.
pub fn matches_are_alike()
    ensures { MatchesAreAlike }
{
    numbers_are_alike();
    colors_are_alike();
}

/// The part of 1 that a percentage as an opacity is, is in bounds.
pub fn portions_are_counted()
    ensures { PortionsAreCounted }
{}
