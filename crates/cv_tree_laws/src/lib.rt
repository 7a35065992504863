//! What is computed of a document that is in range: something, and nothing else.
#![tactic(auto)]

mod laws;

pub use laws::{
    documents_in_range_have_one_result, sheets_register_entries, trees_in_range_have_one_result,
};
