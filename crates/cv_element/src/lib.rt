//! The values of one element: the one solution of its equations.
#![tactic(auto)]

mod answers;
mod faults;
mod graph;
mod held;
mod judging;
mod keywords;
mod laws;
mod planning;
mod reading;
mod refusal;
mod settling;
mod starting;
mod valuation;
mod values;

pub use cv_spec_valuation::Place;
pub use laws::elements_are_lawful;
pub use refusal::ElemErr;
pub use valuation::element;
