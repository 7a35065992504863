//! Reads a list of tokens as a colour.
#![tactic(auto)]

mod alpha;
pub mod channels;
mod color;
mod function;
mod laws;

pub use color::read_color;
pub use laws::{colors_read_back, mismatch_is_alike};
pub use std::alloc::AllocError as OutOfMemory;
