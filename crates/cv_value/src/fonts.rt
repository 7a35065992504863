//! Whether a list holds a unit relative to a font.

ghost use Rattle.std.specs.Prelude.{◌≡◌, not};
ghost use Rattle.cv_calc_laws.specs.Fonts.{is_font_unit as is_relative, holds_no_font_unit, is_other_unit};
ghost use Rattle.cv_calc_laws.specs.Units.{token_passes};

use cv_calc::{Unit, unit_named};
use cv_spec_text::Token;

// Whether the unit is relative to the font of the element itself.
fn is_font_unit(root: bool, unit: Unit) -> bool
    ensures { result ≡ is_relative root unit }
{
    match unit {
        Unit::Em | Unit::Ex | Unit::Ch | Unit::Ic => true,
        Unit::Rem => root,
        _ => false,
    }
}

// Whether the token is a dimension of such a unit.
fn is_of_font(root: bool, token: &Token) -> bool
    ensures { result ≡ not (token_passes (is_other_unit root) token.now) }
{
    match token {
        Token::Dimension(_, name) => match unit_named(name) {
            Some(unit) => is_font_unit(root, unit),
            None => false,
        },
        _ => false,
    }
}

/// Whether a token of the list has a unit relative to the font of the element itself: `em`, `ex`, `ch` or `ic`, and on the root, which the
/// first argument tells, `rem` too (CSS Values and Units 4, "Font-relative Lengths").
pub fn has_font_unit(root: bool, tokens: &[Token]) -> bool
    ensures { result ≡ not (holds_no_font_unit root tokens.now) }
{
    for token in tokens {
        if is_of_font(root, token) {
            return true;
        }
    }
    false
}
