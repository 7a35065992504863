//! The text of a value of an ordinary property reads back as an equal value.
#![tactic(auto)]

mod laws;

pub use laws::properties_read_back;
