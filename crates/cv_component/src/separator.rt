//! What stands between the parts of a list.

ghost use Rattle.std.specs.Prelude.{◌≡◌};
ghost use Rattle.cv_component.specs.Parts as parts;

use cv_spec_text::Token;

/// What stands between the parts of a list.
#[derive(Clone, Copy, Debug, PartialEq, Eq)]
pub enum Separator {
    White,
    Comma,
    Solidus,
}

/// Whether a token separates parts.
pub(crate) fn separates(separator: Separator, token: &Token) -> bool
    ensures { result ≡ parts.separates separator token.now }
{
    match (separator, token) {
        (Separator::White, Token::White) => true,
        (Separator::Comma, Token::Comma) => true,
        (Separator::Solidus, Token::Delim(sign)) => *sign == '/',
        _ => false,
    }
}
