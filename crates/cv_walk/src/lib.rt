//! Walks over a part of a tree: an element and its descendants.
#![tactic(auto)]

mod ending;
mod extent;
mod marks;
mod walking;

pub use ending::extents;
pub use extent::Extents;
pub use walking::{WalkErr, walk_from};
