//! Kinds of code points.

ghost use Rattle.std.specs.Prelude.{◌≡◌};
ghost use Rattle.cv_spec_text.specs.Characters.{is_whitespace, is_ident_start, is_ident_code_point, is_quote};

/// Whether this is an LF, a tab or a space.
pub fn is_whitespace(c: char) -> bool
    ensures { result ≡ is_whitespace c }
{
    c == '\n' || c == '\t' || c == ' '
}

/// Whether an identifier may begin with this code point.
pub fn is_ident_start(c: char) -> bool
    ensures { result ≡ is_ident_start c }
{
    c.is_ascii_alphabetic() || c == '_' || c >= '\u{80}'
}

/// Whether this code point may stand in an identifier.
pub fn is_ident_code_point(c: char) -> bool
    ensures { result ≡ is_ident_code_point c }
{
    is_ident_start(c) || c.is_ascii_digit() || c == '-'
}

/// Whether this is `"` or `'`.
pub fn is_quote(c: char) -> bool
    ensures { result ≡ is_quote c }
{
    c == '"' || c == '\''
}
