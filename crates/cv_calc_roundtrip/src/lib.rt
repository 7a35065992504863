//! The text of a calculation reads back as an equal calculation.
#![tactic(auto)]

mod laws;

pub use laws::{calculations_read_back, numbers_read_back};
