//! Substitution of references under a limit on tokens.
#![tactic(auto)]

mod bounded;
mod refusal;
mod runs;
mod walk;

pub use bounded::Bounded;
pub use refusal::SubstErr;
pub use runs::Runs;
pub use walk::substitute;
