//! The element whose values are computed: definitions in `specs/`, over a registry, declarations, the parent's values and a
//! place.
#![tactic(auto)]

mod place;

pub use place::Place;
