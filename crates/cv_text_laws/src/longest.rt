//! What is read is the longest that stands there.

ghost use Rattle.cv_text_laws.specs.EscapeSpellings.{EscapesAreLongest, NoEscapeIsMissed};
ghost use Rattle.cv_text_laws.specs.NameSpellings.{NamesAreLongest, WhitespaceIsLongest};
ghost use Rattle.cv_text_laws.specs.NumberSpellings.{NoNumberIsMissed, NumbersAreLongest};

/// A number that is read is the longest spelling of a number that stands there, and where none is read none stands.
pub fn numbers_are_longest()
    ensures longest { NumbersAreLongest }
    ensures none { NoNumberIsMissed }
{}

/// An escape that is read is the longest escape that stands there, and where none is read none stands.
pub fn escapes_are_longest()
    ensures longest { EscapesAreLongest }
    ensures none { NoEscapeIsMissed }
{}

/// A name sequence that is read is the longest that stands there, each escape in it as long as one stands there.
pub fn names_are_longest()
    ensures { NamesAreLongest }
{}

/// A run of whitespace that is read is the longest that stands there.
pub fn whitespace_is_longest()
    ensures { WhitespaceIsLongest }
{}
