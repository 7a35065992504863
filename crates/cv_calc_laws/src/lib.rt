//! Laws of calculations by the kind of their type and by context.
#![tactic(auto)]

mod divisors;
mod fonts;
mod single;
mod texts;
mod types;

pub use divisors::{divisors_are_counted, refusals_are_divisors};
pub use fonts::{contexts_differ_in_fonts, font_units_are_told, texts_are_free, units_are_read};
pub use single::{answers_are_numbers, calculations_are_numbers, lengths_are_numbers};
pub use texts::texts_are_taken;
pub use types::{contexts_are_ignored, units_are_of_type};
