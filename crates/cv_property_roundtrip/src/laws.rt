//! The law.

ghost use Rattle.cv_property_roundtrip.specs.ReadsBack.{PropertiesReadBack};

use cv_calc_laws::texts_are_free;
use cv_value_laws::sizes_are_numbers;
use cv_value_roundtrip::{items_read_back, numbers_are_read, ranges_are_kept, sizes_read_back};

/// The text of the value that a list is of a property, and that of its computed value, as far as they are nested at most 128 deep, read back
/// as an equal value of the property, in every context, where the sizes of fonts that the list was read with aren't negative: as `width`,
/// `calc(2% + 1in)` is `calc(2% + 96px)`, and this text is an equal calculation (CSSOM, "Serializing CSS Values").
pub fn properties_read_back()
    ensures { PropertiesReadBack }
{
    texts_are_free();
    sizes_are_numbers();
    items_read_back();
    numbers_are_read();
    ranges_are_kept();
    sizes_read_back();
}
