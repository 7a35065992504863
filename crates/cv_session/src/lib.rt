//! Commands over the declarations of a document's elements: how each is answered, and what it changes. The definition of a session.
#![tactic(auto)]

mod altering;
mod answer;
mod answering;
mod declaring;
mod opening;
mod reading;
mod replies;
mod scene;

pub use answer::{Altered, Answer};
pub use opening::OpenErr;
pub use replies::reply_line;
pub use scene::Scene;
