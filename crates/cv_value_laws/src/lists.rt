//! Texts of lists, and their parts.

ghost use Rattle.cv_value_laws.specs.Lists.{EntriesAreSplit, TextsAreSplit};

/// A list of component values that are neither whitespace nor commas, with whitespace between them or with commas and whitespace, has
/// these as its parts: `1px calc(1% + 2px)` the parts `1px` and `calc(1% + 2px)`, and `1px, rgb(0, 0, 0)` the parts `1px` and
/// `rgb(0, 0, 0)` (CSS Values and Units 4, "Component Value Multipliers"). It has no whitespace at its ends.
pub fn entries_are_split()
    ensures { EntriesAreSplit }
{}

/// The text of each item is one component value, a token or a function. So the parts of the text of a list are the texts of its items:
/// those of `red, rgb(0, 0, 0)` are `red` and `rgb(0, 0, 0)`. And no text has whitespace at its ends: trimmed, it is itself.
pub fn texts_are_split()
    ensures { TextsAreSplit }
{}
