//! What a sheet registers, and the kept and winning declarations of a style.
#![tactic(auto)]

mod decls;
mod descriptors;
mod entry;
mod initial;
mod laws;
mod memo;
mod note;
mod refusal;
mod registration;
mod registry;
mod style;

pub use cv_valuation::{
    Cause, Computed, Key, Outcome, Property, Valuation, key_text, outcome_text,
    outcomes_are_by_key, properties_are_found,
};
pub use decls::{Decl, Decls};
pub use entry::Entry;
pub use laws::winners_are_by_key;
pub use note::{Note, NotePlace, Why};
pub use registry::Registry;
