//! Numeric items: what one numeric token or one math function is as a number, a length or another quantity.
#![tactic(auto)]

mod laws;
pub mod matched;
mod numeric;
pub mod quantity;
mod reading;

pub use laws::{mismatch_is_alike, signs_are_told};
pub use matched::Matched;
pub use numeric::{
    angle, integer, length, length_percentage, length_percentage_in, number, percentage,
    resolution, time,
};
pub use quantity::{Quantity, Range};
pub use std::alloc::AllocError as OutOfMemory;
