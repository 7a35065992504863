//! Declared lists: values, and the references in them.
#![tactic(auto)]

mod declared;
mod flat;
mod laws;
mod names;
mod parts;
mod place;
mod reference;
mod refusal;
mod segment;
mod value;

pub use declared::{Declared, check};
pub use flat::Part;
pub use laws::{checked_lists_hold_no_var, pieces_are_read, references_are_found};
pub use parts::has_var;
pub use refusal::VarErr;
pub use segment::Segment;
pub use value::is_value;
