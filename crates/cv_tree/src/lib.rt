//! The tree of a document's elements: what the document says of each, and what is computed of all.
#![tactic(auto)]

mod contents;
mod document;
mod laws;
mod names;
mod styles;
mod tree;

pub use contents::{Contents, contents_of};
pub use document::{computed_of_document, counted_names};
pub use laws::{shown_names_are_keys, trees_have_one_result};
pub use tree::{Stop, computed_of};
