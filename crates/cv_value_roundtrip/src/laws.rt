//! The laws.

ghost use Rattle.cv_value_roundtrip.specs.Numbers.{NumbersAreRead, RangesAreKept};
ghost use Rattle.cv_value_roundtrip.specs.ReadsBack.{ItemsReadBack, SizesReadBack};
ghost use Rattle.cv_value_roundtrip.specs.Typed.{TypedValuesReadBack};

/// The text of a number is that number to each quantity that takes its unit: `0.5px` is a half pixel, and `calc(1px / 3)`, which has no
/// decimal, exactly a third (CSSOM, "Serializing CSS Values").
pub fn numbers_are_read()
    ensures { NumbersAreRead }
{}

/// The text of an item reads back as an equal item of its kind, in every context: that of `1in` as a length, `96px`, as 96px, and that of
/// a third of a pixel, `calc(1px / 3)`, as a third of a pixel (CSSOM, "Serializing CSS Values").
pub fn items_read_back()
    ensures { ItemsReadBack }
{}

/// The text of the value that a component of a syntax gives, as far as it is nested at most 128 deep, reads back as an equal value by this
/// component alone, in every context: `red, #0000ff80` by `<color>#` as `rgb(255, 0, 0), rgba(0, 0, 255, calc(128 / 255))`, and this text as
/// the same colours. So where a syntax has one component, to substitute the text of a value is to substitute its value (CSS Properties and
/// Values API 1, "Calculation of Computed Values").
pub fn typed_values_read_back()
    ensures { TypedValuesReadBack }
{}

/// The text of a number within a range is that number within the range, and so is that of a number of px as a length or percentage (CSS
/// Values and Units 4, "Range Restrictions and Range Definition Notation").
pub fn ranges_are_kept()
    ensures { RangesAreKept }
{}

/// The text of a length or percentage within a range reads back as an equal one within the range, in every context, where the sizes of fonts
/// that it was read with aren't negative (CSSOM, "Serializing CSS Values").
pub fn sizes_read_back()
    ensures { SizesReadBack }
{}
