//! Texts of matched values are read again.

ghost use Rattle.cv_value_laws.specs.Functions.{ValuesAreTaken};
ghost use Rattle.cv_value_laws.specs.Texts.{TextsAreClean, TextsAreSpelt};

/// The text of each typed value is clean: no bad token, no two whitespace tokens together, and a string behind each `url(`.
pub fn texts_are_clean()
    ensures { TextsAreClean }
{}

/// Where a list of tokens of texts matches a syntax, each token of the value's text is one of a text. So that text, printed and tokenised,
/// is the same list (CSS Syntax 3, "Serialization"). This is so of each value whose strings and idents are those of texts, whatever gave it.
pub fn texts_are_spelt()
    ensures { TextsAreSpelt }
{}

/// The text of each typed value is made of texts of calculations, of strings and idents, of the functions `rgb`, `rgba` and `url`, and of
/// commas and whitespace: a test that takes these takes each token of it. So it holds no `var()` (Cascading Variables 1, "Using Cascading
/// Variables: the var() notation").
pub fn values_are_taken()
    ensures { ValuesAreTaken }
{}
