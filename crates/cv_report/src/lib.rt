//! The lines of a report, and their way into a sink.
#![tactic(auto)]

mod causes;
mod lines;
mod writing;

pub use lines::{note_line, value_lines};
pub use writing::report;
