//! Laws of the texts of numeric values.
#![tactic(auto)]

mod bounds;
mod laws;

pub use bounds::{numbers_are_in_bounds, value_is_read};
pub use laws::printed_values_are_read;
