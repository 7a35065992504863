//! Typed values: how a list matches a syntax, and how a typed value is written.
#![tactic(auto)]

pub mod error;
mod fonts;
mod laws;
mod list;
mod many;
mod matching;
mod parts;
mod single;
mod text;
pub mod typed;

pub use error::ValueErr;
pub use fonts::has_font_unit;
pub use laws::mismatch_is_alike;
pub use matching::match_syntax;
pub use single::mixed_item;
pub use std::alloc::AllocError as OutOfMemory;
pub use text::typed_tokens;
pub use typed::{Item, Typed};
