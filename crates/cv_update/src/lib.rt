//! What is computed of a tree once one element's declarations are others: of that element and its descendants anew, and of no other. And
//! what changes by that.
#![tactic(auto)]

mod alone;
mod changing;
mod fresh;
mod names;
mod renewal;
mod renewed;
mod renewing;
mod same;

pub use fresh::{Fresh, put_fresh};
pub use names::{Named, names_of};
pub use renewal::Renewal;
pub use renewed::{Renewed, renew};
