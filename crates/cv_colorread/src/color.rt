//! A list as a colour.

ghost use Rattle.std.specs.Prelude.{◌≡◌, IfOk};
ghost use Rattle.cv_colorread.specs.Colors as colors;

use crate::function::function;
use cv_calc::Context;
use cv_color::{Color, hex, named};
use cv_numeric::Matched;
use cv_spec_text::Token;
use std::alloc::{AllocError, Global};

fn fitting(color: Option<Color>) -> Matched<Color>
    ensures { result ≡ colors.fitting color }
{
    match color {
        Some(color) => Matched::Fit(color),
        None => Matched::No,
    }
}

/// A list as a colour: `red`, `#f00`, `rgb(255, 0, 0)` or `rgb(100% 0% 0% / calc(1 / 2))` (CSS Color 4, "The <color> syntax", "The RGB
/// functions: rgb() and rgba()"). Each number may be a math function. It is out of range where a number, a percentage or what is
/// computed of one is no fraction within bounds.
#[tactic(auto, unfolding(crate::specs::Colors::color))]
pub fn read_color(
    alloc: Global,
    tokens: &[Token],
    x: &Context,
) -> Result<Matched<Color>, AllocError>
    ensures { IfOk result (λ o. o ≡ colors.color x.now tokens.now) }
{
    match tokens {
        [Token::Ident(name)] => Ok(fitting(named(name))),
        [Token::Hash(digits, _)] => Ok(fitting(hex(digits))),
        [Token::Function(name), ..] => function(alloc, name, tokens, x),
        _ => Ok(Matched::No),
    }
}
