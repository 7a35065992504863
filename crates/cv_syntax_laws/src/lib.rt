//! What a syntax string is, by its grammar.
#![tactic(auto)]

mod laws;

pub use laws::syntax_strings_are_said;
