//! Laws of the definitions.

ghost use Rattle.cv_simplify.specs.UnitOrder.{RanksAreByteOrder};

/// In a text the numbers of a sum or product stand in the byte order of their units' names.
pub fn ranks_are_byte_order()
    ensures { RanksAreByteOrder }
{}
