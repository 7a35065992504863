//! Laws of matching: what contexts change, and how texts of lists are split.
#![tactic(auto)]

mod contexts;
mod lists;
mod sizes;
mod texts;
mod values;

pub use contexts::{
    matches_alike, matches_ignore_contexts, numbers_ignore_contexts, numbers_read_alike,
};
pub use lists::{entries_are_split, texts_are_split};
pub use sizes::sizes_are_numbers;
pub use texts::{texts_are_clean, texts_are_spelt, values_are_taken};
pub use values::{items_are_free, values_are_free, values_may_be_kept};
