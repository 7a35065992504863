//! What the computed value of `font-size` is.

ghost use Rattle.cv_property_laws.specs.Sizes.{FontSizesAreNumbers};

use cv_value_laws::sizes_are_numbers;

/// The computed value of `font-size` is one number of px: `calc(1px + 50%)` within 10px is 6px, and `medium` is 16px. It isn't negative,
/// where `em` and `rem` aren't (CSS Fonts 4, "Font size: the font-size property").
pub fn font_sizes_are_numbers()
    ensures { FontSizesAreNumbers }
{
    sizes_are_numbers();
}
