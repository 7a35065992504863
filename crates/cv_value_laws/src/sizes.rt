//! Lengths and percentages of a known length.

ghost use Rattle.cv_value_laws.specs.Sizes.{SizesAreNumbers};

/// Where percentages are parts of a known length, what fits as a length or percentage is one number of px, as a font size is: `50%` of 16px
/// is 8px, and `calc(1px + 50%)` is 9px. In the range from 0 on, it isn't negative, where neither that length nor the size of a font is.
pub fn sizes_are_numbers()
    ensures { SizesAreNumbers }
{}
