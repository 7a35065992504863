//! Watchers: what is told of each change of a value in a session, and what they write of it.
#![tactic(auto)]

mod change;
mod lines;
mod refuser;
mod tally;
mod trail;
mod watcher;

pub use change::Change;
pub use refuser::Refuser;
pub use std::alloc::AllocError as OutOfMemory;
pub use tally::Tally;
pub use trail::Trail;
pub use watcher::Watcher;
