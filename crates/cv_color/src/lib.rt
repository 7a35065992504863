//! Colours by name, by hexadecimal digits and by channels, and their text.
#![tactic(auto)]

mod channels;
pub mod color;
mod hexadecimal;
mod names;
mod text;

pub use channels::from_channels;
pub use color::Color;
pub use hexadecimal::hex;
pub use names::{named, names_are_found};
pub use std::alloc::AllocError as OutOfMemory;
pub use text::color_tokens;
