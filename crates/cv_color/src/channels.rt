//! Colours by their channels.

ghost use Rattle.std.specs.Prelude.{◌≡◌};
ghost use Rattle.cv_color.specs.Channels.{clamped as clamped_to, channel as channel_of, from_channels as color_of};

use crate::color::Color;
use cv_frac::Frac;

/// The nearest fraction from 0 to a whole number.
fn clamped(most: u32, v: Frac) -> Frac
    ensures { result ≡ clamped_to most v }
{
    v.max(Frac::whole(0)).min(Frac::whole(most))
}

#[tactic(auto, using(crate::proofs::Bytes::channel_small))]
fn channel(v: Frac) -> u8
    ensures { result ≡ channel_of v }
{
    clamped(255, v).round_half_up().unsigned_abs() as u8
}

/// The colour of these channels (CSS Color 4, "The RGB functions: rgb() and rgba()"). Red, green and blue are clamped to 0 to 255 and
/// rounded, halves upwards, as 127.5, which is 128; the alpha is clamped to 0 to 1 and stays exact.
pub fn from_channels(r: Frac, g: Frac, b: Frac, a: Frac) -> Color
    ensures { result ≡ color_of r g b a }
{
    Color::Rgb {
        r: channel(r),
        g: channel(g),
        b: channel(b),
        a: clamped(1, a),
    }
}
