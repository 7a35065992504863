//! What is computed of an element is single, and stands under the registry.
#![tactic(auto)]

mod laws;

pub use laws::{elements_have_one_result, styles_are_declared};
