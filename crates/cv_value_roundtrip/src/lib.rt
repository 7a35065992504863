//! The text of a typed value reads back as an equal value.
#![tactic(auto)]

mod laws;

pub use laws::{
    items_read_back, numbers_are_read, ranges_are_kept, sizes_read_back, typed_values_read_back,
};
