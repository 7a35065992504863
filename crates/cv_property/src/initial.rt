//! Initial values.

ghost use Rattle.std.specs.Prelude.{◌≡◌, IfOk};
ghost use Rattle.cv_property.specs.Initial.{initial_value as value_of, shade as shade_of};
ghost use Rattle.cv_property.specs.Keywords.{keyword_text};

use crate::grammar::Keyword;
use crate::table::Initial;
use cv_color::Color;
use cv_frac::Frac;
use cv_spec_text::Name;
use cv_value::{Item, Typed};
use std::alloc::{AllocError, Global};

// Black with this alpha.
fn shade(a: Frac) -> Typed
    ensures { result ≡ shade_of a }
{
    Typed::One(Item::Color(Color::Rgb {
        r: 0,
        g: 0,
        b: 0,
        a,
    }))
}

// The text of a keyword.
pub(crate) fn word(alloc: Global, keyword: Keyword) -> Result<Name, AllocError>
    ensures { IfOk result (λ name. name ≡ keyword_text keyword) }
{
    Name::of(alloc, keyword.text())
}

// The initial value that a row says.
pub(crate) fn initial_value(alloc: Global, initial: Initial) -> Result<Typed, AllocError>
    ensures { IfOk result (λ v. v ≡ value_of initial) }
{
    match initial {
        Initial::Keyword(keyword) => Ok(Typed::One(Item::Ident(word(alloc, keyword)?))),
        Initial::Px(n) => Ok(Typed::One(Item::Length(Frac::whole(n)))),
        Initial::Number(n) => Ok(Typed::One(Item::Number(Frac::whole(n)))),
        Initial::Integer(n) => Ok(Typed::One(Item::Integer(n))),
        Initial::Black => Ok(shade(Frac::whole(1))),
        Initial::Transparent => Ok(shade(Frac::whole(0))),
    }
}
