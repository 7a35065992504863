//! Documents: a JSON object with a viewport, a style sheet, a tree of elements with their styles, names to show and commands.
//! `Document::of_bytes` reads one, or answers the first refusal, and `walk` steps over its elements.
#![tactic(auto)]

mod array;
mod command;
mod commands;
mod document;
mod elements;
mod names;
mod refusal;
mod show;
mod value;
mod viewport;
mod walking;

pub use command::Command;
pub use document::Document;
pub use elements::Elem;
pub use refusal::{BadDoc, DocErr, What};
pub use walking::{Step, walk};
