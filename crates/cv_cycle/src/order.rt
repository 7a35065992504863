//! An order along the edges of a graph.

/// The nodes of a graph, in an order along its edges.
#[derive(Drop)]
pub struct Order {
    /// Whether each node stands on a cycle.
    pub cyclic: Vec<bool>,
    /// Each node once. Where a node is on no cycle, every node to which an edge leads from it stands earlier.
    pub nodes: Vec<u32>,
}
