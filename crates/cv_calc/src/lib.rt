//! Calculations: units, types and trees, with what they mean.
#![tactic(auto)]

pub mod calc;
pub mod context;
mod laws;
mod names;
mod power;
mod product;
mod shape;
mod types;
pub mod unit;

pub use calc::Calc;
pub use context::{Basis, Context, to_canonical};
pub use laws::figures_are_values;
pub use names::{unit_name, unit_named};
pub use power::same_powers;
pub use shape::{is_linear, type_of};
pub use std::alloc::AllocError as OutOfMemory;
pub use types::unit_type;
pub use unit::{Base, NumType, Unit};
