//! The document that the job `gen` computes, by its number of elements, and the summary of what is computed of it.
#![tactic(auto)]

mod document;
mod laws;
mod style;
mod totals;

pub use document::document_of_size;
pub use laws::small_sums_are_within;
pub use totals::{SummaryErr, summary};
