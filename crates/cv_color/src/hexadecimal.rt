//! Colours by their hexadecimal digits.

ghost use Rattle.std.specs.Prelude.{◌≡◌, ◌<◌, true, pos};
ghost use Rattle.std.specs.List.{list_all};
ghost use Rattle.std.specs.Char.{is_ascii_hexdigit as is_hexadecimal, digit_value};
ghost use Rattle.cv_color.specs.Hex.{byte as byte_of, twice as twice_of, alpha as alpha_of, of_digits as color_of_digits, hex as color_of};
ghost use Rattle.cv_spec_ratio.specs.Ratio.{ratio};
ghost use Rattle.cv_color.specs.declared.color.Color.{Color};

use crate::color::Color;
use cv_frac::Frac;
use cv_spec_text::Name;

#[tactic(auto, using(crate::proofs::Digits::digit_small))]
fn digit(c: u8) -> u8
    requires { is_hexadecimal c ≡ true }
    ensures value { result ≡ digit_value c }
    ensures small { result < 16 }
{
    if c <= b'9' {
        c - b'0'
    } else if c <= b'F' {
        c - b'A' + 10
    } else {
        c - b'a' + 10
    }
}

#[tactic(auto, using(crate::proofs::Digits::digit_small))]
fn byte(high: u8, low: u8) -> u8
    requires high { is_hexadecimal high ≡ true }
    requires low { is_hexadecimal low ≡ true }
    ensures { result ≡ byte_of high low }
{
    digit(high) * 16 + digit(low)
}

fn twice(c: u8) -> u8
    requires { is_hexadecimal c ≡ true }
    ensures { result ≡ twice_of c }
{
    byte(c, c)
}

fn opaque(r: u8, g: u8, b: u8) -> Option<Color>
    ensures { result ≡ Some (Color.Rgb r g b (ratio (pos 1) 1)) }
{
    Some(Color::Rgb {
        r,
        g,
        b,
        a: Frac::whole(1),
    })
}

/// With the alpha of a byte, which is always a fraction within bounds.
#[tactic(auto, using(crate::proofs::Alphas::alpha_fits))]
fn with_alpha(r: u8, g: u8, b: u8, alpha: u8) -> Option<Color>
    ensures { result ≡ Some (Color.Rgb r g b (alpha_of alpha)) }
{
    match Frac::of(i128::from(alpha), 255) {
        Ok(a) => Some(Color::Rgb { r, g, b, a }),
        Err(_) => None,
    }
}

/// The colour of some hexadecimal digits.
#[tactic(auto, using(crate::proofs::Digits::digit_at, crate::proofs::Digits::other_length))]
fn of_digits(digits: &[u8]) -> Option<Color>
    requires { list_all is_hexadecimal digits.now ≡ true }
    ensures { result ≡ color_of_digits digits.now }
{
    match digits {
        [r, g, b] => opaque(twice(*r), twice(*g), twice(*b)),
        [r, g, b, a] => with_alpha(twice(*r), twice(*g), twice(*b), twice(*a)),
        [r_high, r_low, g_high, g_low, b_high, b_low] => opaque(
            byte(*r_high, *r_low),
            byte(*g_high, *g_low),
            byte(*b_high, *b_low),
        ),
        [r_high, r_low, g_high, g_low, b_high, b_low, a_high, a_low] => with_alpha(
            byte(*r_high, *r_low),
            byte(*g_high, *g_low),
            byte(*b_high, *b_low),
            byte(*a_high, *a_low),
        ),
        _ => None,
    }
}

fn are_digits(bytes: &[u8]) -> bool
    ensures { result ≡ list_all is_hexadecimal bytes.now }
{
    bytes.iter().all(|c| c.is_ascii_hexdigit())
}

fn of_bytes(bytes: &[u8]) -> Option<Color>
    ensures { result ≡ color_of bytes.now }
{
    if are_digits(bytes) {
        of_digits(bytes)
    } else {
        None
    }
}

/// The colour of hexadecimal digits, as `f00` or `FF000080`: 3, 4, 6 or 8 of them, of which 3 or 4 are doubled each. The last one or
/// two of 4 or 8 are the alpha, a byte over 255 (CSS Color 4, "The RGB Hexadecimal Notations: #RRGGBB").
pub fn hex(name: &Name) -> Option<Color>
    ensures { result ≡ color_of name.now }
{
    of_bytes(name.text().as_bytes())
}
