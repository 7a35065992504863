//! The laws.

ghost use Rattle.cv_om_roundtrip.specs.Read.{PrintedValuesAreRead};

/// The text of a numeric value, as `print` appends it, is read by `parse` as a value of the same type and, whatever units mean, of the same
/// value, or of none in both: `calc(1px + (1px / 3))` is read as the sum of 1px and of a product. Where a divisor in it that is made of
/// numbers alone is out of range, it is refused with `Range`, and else, where one is 0, with `Syntax` (CSSOM, "Serializing CSS Values").
pub fn printed_values_are_read()
    ensures { PrintedValuesAreRead }
{}
