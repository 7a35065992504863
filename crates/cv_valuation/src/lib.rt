//! What properties stand for, and the values of an element with the causes of those that are bad.
#![tactic(auto)]

mod computed;
mod key;
mod laws;
mod outcome;
mod row;
mod trie;
mod valuation;

pub use computed::{Cause, Computed};
pub use cv_property::Property;
pub use key::{Key, key_text};
pub use laws::{outcomes_are_by_key, properties_are_found};
pub use outcome::{Outcome, outcome_text};
pub use std::alloc::AllocError as OutOfMemory;
pub use valuation::Valuation;
