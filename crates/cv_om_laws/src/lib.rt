//! Laws of numeric values: the value of each answer is the operation on the values.
#![tactic(auto)]

mod laws;

pub use laws::{
    conversions_are_kept, sum_values_are_kept, sums_are_kept, tables_are_whole, values_are_kept,
};
