//! The colour.

use cv_frac::Frac;

/// A computed colour of sRGB (CSS Color 4, "sRGB Colors"), or the keyword `currentcolor`.
#[derive(Clone, Copy)]
pub enum Color {
    /// `currentcolor` ("The currentcolor Keyword"), which is computed as itself.
    Current,
    /// Red, green and blue from 0 to 255, and the alpha. The calls of this crate answer an alpha from 0 to 1.
    Rgb { r: u8, g: u8, b: u8, a: Frac },
}
