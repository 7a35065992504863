//! What is so of the values of ordinary properties.
#![tactic(auto)]

mod keeping;
mod sizes;

pub use keeping::properties_may_be_kept;
pub use sizes::font_sizes_are_numbers;
