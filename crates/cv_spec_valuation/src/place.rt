//! Where an element stands.

use cv_frac::Frac;

/// Where an element stands: the size of the viewport in px, and the font size of the root in px, which is none on the root
/// itself.
#[derive(Clone, Copy)]
pub struct Place {
    pub width: u32,
    pub height: u32,
    pub root: Option<Frac>,
}
