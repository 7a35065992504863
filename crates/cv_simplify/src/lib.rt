//! Simplification of calculations.
#![tactic(auto)]

mod calculation;
pub mod error;
mod exact;
mod factors;
mod joining;
mod laws;
mod number;
mod parted;
mod place;
mod rank;
mod reversed;
mod row;
mod single;
mod text;
mod tokens;

pub use calculation::{normal, simplify};
pub use error::SimpErr;
pub use laws::ranks_are_byte_order;
pub use parted::Normal;
pub use std::alloc::AllocError as OutOfMemory;
pub use text::calc_tokens;
