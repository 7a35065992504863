//! The top call: words and a document in, a report and a status out.
#![tactic(auto)]

mod generated;
mod laws;
mod report;
mod running;
mod status;
mod status_line;
mod writing;

pub use cv_doc::{BadDoc, What};
pub use laws::{documents_have_one_report, documents_in_range_have_one_report, runs_have_one_text};
pub use running::run;
pub use status::Status;
