//! The parts of a list, as they are lent.

ghost use Rattle.std.specs.Prelude.{◌≡◌, All, IfSome, option_map};
ghost use Rattle.cv_spec_text.specs.Splits.{IsSpelt};
ghost use Rattle.cv_var.specs.Flat.{flat, IsSpeltPiece};
ghost use Rattle.cv_var.specs.Places.{flat_at};

use crate::place::Place;
use cv_spec_text::{Name, Token};
use sqlite_items::at;

/// A part of a checked list.
#[derive(Clone, Copy, Debug, Drop)]
pub enum Part<'a> {
    /// A token that stands for itself.
    Token(&'a Token),
    /// A reference. The parts of its fallback come next, and `fallback` is their number; None where it has no fallback.
    Reference {
        name: &'a Name,
        fallback: Option<usize>,
    },
}

/// The part that stands at a place of the list.
pub fn lent(tokens: &[Token], place: Place) -> Option<Part<'_>>
    ensures flat { option_map flat result ≡ flat_at tokens.now place }
    ensures spelt { All IsSpelt tokens.now → IfSome result (λ part. IsSpeltPiece (flat part)) }
{
    match place {
        Place::Token(token) => match at(tokens, token) {
            Some(token) => Some(Part::Token(token)),
            None => None,
        },
        Place::Reference { name, fallback } => match at(tokens, name) {
            Some(Token::Ident(name)) => Some(Part::Reference { name, fallback }),
            _ => None,
        },
    }
}
