//! That what is read of a text is the longest that stands there, and ends at its first end, in the grammar's own words.
#![tactic(auto)]

mod ends;
mod longest;
mod values;

pub use ends::{comments_end_first, strings_end_first, urls_end_first};
pub use longest::{
    escapes_are_longest, names_are_longest, numbers_are_longest, whitespace_is_longest,
};
pub use values::{escapes_stand_for_code_points, names_spell_code_points};
