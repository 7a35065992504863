//! The ordinary properties: their table, their grammars and their computed values.
#![tactic(auto)]

mod computed;
pub mod grammar;
mod initial;
mod laws;
pub mod property;
pub mod reading;
mod table;

pub use laws::{matches_are_alike, portions_are_counted, table_is_found};
pub use property::{Property, property_named};
pub use std::alloc::AllocError as OutOfMemory;
