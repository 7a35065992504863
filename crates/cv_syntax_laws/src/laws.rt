//! The law.

ghost use Rattle.cv_syntax_laws.specs.Grammar.{SyntaxStringsAreSaid};

/// What a text says is what the grammar of syntax strings says of it: components with lines between them, each a name in angle brackets or
/// an ident, with a multiplier right behind it or none, and whitespace around it; or `*` alone (Properties and Values API 1, "Syntax
/// Strings").
pub fn syntax_strings_are_said()
    ensures { SyntaxStringsAreSaid }
{}
