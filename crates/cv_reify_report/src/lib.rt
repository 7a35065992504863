//! The lines of a report that shows objects of Typed OM, and their way into a sink.
#![tactic(auto)]

mod lines;
mod writing;

pub use writing::reify_report;
