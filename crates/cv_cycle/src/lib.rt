//! Which nodes of a graph stand on a cycle, an order along its edges, and which nodes are reached from given ones.
#![tactic(auto)]

mod cycles;
mod order;
mod reversing;
mod spread;
mod stacks;
mod walk;

pub use cycles::{cyclic, ordered};
pub use order::Order;
pub use reversing::reaching;
pub use spread::reached;
