//! What a valuation may keep of the value of an ordinary property.

ghost use Rattle.cv_property_laws.specs.Keeping.{PropertiesMayBeKept};

use cv_value_laws::items_are_free;

/// The value of a list, its computed value and the initial value of a property may be kept: their calculations are in canonical units, and
/// their idents are those of texts and no CSS-wide keywords.
pub fn properties_may_be_kept()
    ensures { PropertiesMayBeKept }
{
    items_are_free();
}
