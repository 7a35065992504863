//! The CSS-wide keywords (Values and Units 4, "CSS-wide keywords").

ghost use Rattle.std.specs.Prelude.{◌≡◌, option_map};
ghost use Rattle.cv_spec_valuation.specs.Element.{keyword, keyword_named};
ghost use Rattle.cv_element.specs.Keywords.{wide, alone};

use cv_spec_text::{Name, Token};

#[derive(Clone, Copy)]
pub enum Keyword {
    Initial,
    Inherit,
    Unset,
    Revert,
    RevertLayer,
}

// The keyword of this name, without ASCII case.
fn named(name: &Name) -> Option<Keyword>
    ensures { option_map wide result ≡ keyword_named name.now }
{
    if name.is_word("initial") {
        Some(Keyword::Initial)
    } else if name.is_word("inherit") {
        Some(Keyword::Inherit)
    } else if name.is_word("unset") {
        Some(Keyword::Unset)
    } else if name.is_word("revert") {
        Some(Keyword::Revert)
    } else if name.is_word("revert-layer") {
        Some(Keyword::RevertLayer)
    } else {
        None
    }
}

/// The keyword that the token is.
pub fn keyword_of(token: &Token) -> Option<Keyword>
    ensures { option_map wide result ≡ keyword token.now }
{
    match token {
        Token::Ident(name) => named(name),
        _ => None,
    }
}

/// The keyword that the list of one token is.
pub fn alone(list: &[Token]) -> Option<Keyword>
    ensures { option_map wide result ≡ alone list.now }
{
    match list {
        [token] => keyword_of(token),
        _ => None,
    }
}
