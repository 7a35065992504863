//! Numeric values of Typed OM, in exact fractions.
#![tactic(auto)]

mod arithmetic;
mod choices;
mod collection;
mod conversion;
mod equality;
mod error;
mod item;
mod joining;
mod numeric;
mod operations;
mod own_units;
mod parsing;
mod place;
mod products;
mod sum_value;
mod terms;
mod text;
mod tokens;
mod turned;
mod unit_factor;
mod unit_map;

pub use error::OmErr;
pub use item::SumItem;
pub use numeric::Numeric;
