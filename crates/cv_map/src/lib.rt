//! Property maps: the declarations of an element, as calls by name read and change them.
#![tactic(auto)]

mod between;
mod error;
mod laws;
mod map;
mod value;

pub use error::MapErr;
pub use laws::lists_match_alike;
pub use map::PropertyMap;
pub use std::alloc::AllocError as OutOfMemory;
