//! What is so of each syntax that a syntax string says.

ghost use Rattle.cv_syntax.specs.Told.{SyntaxesHaveNoKeyword};

/// No literal of a syntax that a syntax string says is a CSS-wide keyword: `auto | inherit` says none (Properties and Values API 1,
/// "Syntax Strings").
pub fn syntaxes_have_no_keyword()
    ensures { SyntaxesHaveNoKeyword }
{}
