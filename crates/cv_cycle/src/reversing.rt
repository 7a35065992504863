//! From which nodes of a graph given ones are reached.

ghost use Rattle.std.specs.Prelude.{◌≡◌, ◌≢◌, ◌++◌, ◌∷◌, [], ℕ, ◌+◌, ◌<◌, ◌≤◌, ◌↔◌, length, eqb, IfOk, OnOk};
ghost use Rattle.std.specs.List.{IsDistinct};
ghost use Rattle.cv_graph.specs.Edges.{IsGraph, targets, most_targets};
ghost use Rattle.cv_cycle.specs.Marks.{IsMarked};
ghost use Rattle.cv_cycle.specs.Reversing.{IsReachedBack, IsReversed};

use crate::spread::reached;
use cv_graph::{Graph, OutOfMemory, Steps};
use std::alloc::Global;
use std::sync::ledger::Ledger;

// Turns an edge round if it leads to a marked node.
fn turn(through: &[bool], from: u32, to: u32, back: &mut Graph) -> Result<(), OutOfMemory>
    requires from { from < length back.old }
    requires to { to < length back.old }
    requires through { to < length through.now }
    requires room { length (targets back.old to) < most_targets }
    ensures on { OnOk result (IsMarked through.now to → targets back.new to ≡ targets back.old to ++ from ∷ []) }
    ensures off { OnOk result (¬ IsMarked through.now to → back.new ≡ back.old) }
    ensures others { (node : ℕ) → node ≢ to → targets back.new node ≡ targets back.old node }
    ensures count { length back.new ≡ length back.old }
{
    if through[to as usize] {
        back.add_edge(to, from)?;
    }
    Ok(())
}

// Turns the edges of the node round that lead to marked nodes.
fn reverse_row<L: Ledger>(
    graph: &Graph,
    through: &[bool],
    from: u32,
    back: &mut Graph,
    steps: &mut Steps<L>,
) -> Result<(), OutOfMemory>
    requires valid { IsGraph graph.now }
    requires from { from < length graph.now }
    requires few { length graph.now ≤ most_targets }
    requires through { length through.now ≡ length graph.now }
    requires once { IsDistinct eqb (targets graph.now from) }
    requires nodes { length back.old ≡ length graph.now }
    requires back { IsReversed graph.now through.now from back.old }
    ensures back { OnOk result (IsReversed graph.now through.now (from + 1) back.new) }
    ensures nodes { OnOk result (length back.new ≡ length back.old) }
{
    for edge in 0..4294967288 {
        match graph.next(from, edge, steps) {
            Some(to) => turn(through, from, to, back)?,
            None => return Ok(()),
        }
    }
    Ok(())
}

// The edges that lead to marked nodes, turned round.
fn reversed<L: Ledger>(
    alloc: Global,
    graph: &Graph,
    through: &[bool],
    steps: &mut Steps<L>,
) -> Result<Graph, OutOfMemory>
    requires few { length graph.now ≤ most_targets }
    requires through { length through.now ≡ length graph.now }
    requires once { (node : ℕ) → node < length graph.now → IsDistinct eqb (targets graph.now node) }
    ensures back { IfOk result (IsReversed graph.now through.now (length graph.now)) }
    ensures nodes { IfOk result (λ back. length back ≡ length graph.now) }
{
    let count = graph.nodes();
    let mut back = Graph::new(alloc, count)?;
    for from in 0..count {
        reverse_row(graph, through, from, &mut back, steps)?;
    }
    Ok(back)
}

/// Marks the nodes that are goals, or from which edges lead to one through nodes that may be passed, the goal itself among them. Each edge
/// is read once, and those that lead to nodes that may be passed once more. No node has two edges to one node.
pub fn reaching<L: Ledger>(
    alloc: Global,
    graph: &Graph,
    through: &[bool],
    goals: &[bool],
    steps: &mut Steps<L>,
) -> Result<Vec<bool>, OutOfMemory>
    requires few { length graph.now ≤ most_targets }
    requires through { length through.now ≡ length graph.now }
    requires goals { length goals.now ≡ length graph.now }
    requires once { (node : ℕ) → node < length graph.now → IsDistinct eqb (targets graph.now node) }
    ensures count { IfOk result (λ marks. length marks.items ≡ length graph.now) }
    ensures reaching { IfOk result (λ marks. (node : ℕ) → IsMarked marks.items node ↔ IsReachedBack graph.now through.now goals.now node) }
{
    let back = reversed(alloc, graph, through, steps)?;
    reached(alloc, &back, goals, steps)
}
