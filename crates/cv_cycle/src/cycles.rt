//! Which nodes of a graph stand on a cycle.

ghost use Rattle.std.specs.Prelude.{◌≡◌, ℕ, ◌<◌, ◌≤◌, ◌+◌, ◌↔◌, length, slice_index, sum, IfOk, OnErr};
ghost use Rattle.cv_graph.specs.Edges.{IsGraph, HasEdge, edge_count};
ghost use Rattle.cv_spec_element.specs.Walks.{IsCyclic};
ghost use Rattle.cv_cycle.specs.Marks.{IsMarked, StandsIn};
ghost use Rattle.cv_cycle.specs.Search.{IsSearch};

use crate::order::Order;
use crate::walk::Walk;
use cv_graph::{Graph, OutOfMemory, Steps};
use std::alloc::Global;
use std::sync::ledger::Ledger;

/// Walks over what is reached from the root, a node that wasn't met.
fn explore<L: Ledger>(walk: &mut Walk, graph: &Graph, root: u32, steps: &mut Steps<L>)
    requires valid { IsGraph graph.now }
    requires search { IsSearch graph.now walk.old }
    requires path { walk.old.height ≡ 0 }
    requires root { root < length graph.now }
    requires unmet { ¬ IsMarked walk.old.met root }
    ensures search { IsSearch graph.now walk.new }
    ensures path { walk.new.height ≡ 0 }
    ensures root { IsMarked walk.new.met root }
    ensures met { (node : ℕ) → IsMarked walk.old.met node → IsMarked walk.new.met node }
    ensures steps { steps.new + sum walk.old.reads ≡ steps.old + sum walk.new.reads }
{
    walk.enter(root);
    while !walk.is_done() {
        walk.advance(graph, steps);
    }
}

/// Walks over the whole graph.
fn explore_all<L: Ledger>(walk: &mut Walk, graph: &Graph, steps: &mut Steps<L>)
    requires search { IsSearch graph.now walk.old }
    requires path { walk.old.height ≡ 0 }
    ensures search { IsSearch graph.now walk.new }
    ensures path { walk.new.height ≡ 0 }
    ensures met { (node : ℕ) → node < length graph.now → IsMarked walk.new.met node }
    ensures steps { steps.new + sum walk.old.reads ≡ steps.old + sum walk.new.reads }
{
    for root in 0..graph.nodes() {
        if !walk.has_met(root) {
            explore(walk, graph, root, steps);
        }
    }
}

/// Whether each node stands on a cycle, and the nodes in an order along the edges.
///
/// One walk reads each edge once, and asks each node once more. All memory is taken before the first step, so that
/// only then it can be refused.
pub fn ordered<L: Ledger>(
    alloc: Global,
    graph: &Graph,
    steps: &mut Steps<L>,
) -> Result<Order, OutOfMemory>
    ensures flags { IfOk result (λ order. length order.cyclic.items ≡ length graph.now) }
    ensures cyclic { IfOk result (λ order. (node : ℕ) → IsMarked order.cyclic.items node ↔ IsCyclic (HasEdge graph.now) node) }
    ensures nodes { IfOk result (λ order. length order.nodes.items ≡ length graph.now) }
    ensures stands { IfOk result (λ order. (node : ℕ) → node < length graph.now ↔ StandsIn order.nodes.items 0 (length graph.now) node) }
    ensures once { IfOk result (λ order. (i j : ℕ) → i < length graph.now → j < length graph.now → slice_index order.nodes.items i ≡ slice_index order.nodes.items j → i ≡ j) }
    ensures earlier { IfOk result (λ order. (place to : ℕ) → place < length graph.now → ¬ IsCyclic (HasEdge graph.now) (slice_index order.nodes.items place) → HasEdge graph.now (slice_index order.nodes.items place) to → StandsIn order.nodes.items 0 place to) }
    ensures bound { steps.new ≤ steps.old + (edge_count graph.now + length graph.now) }
    ensures counted { steps.old ≤ steps.new }
    ensures refused { OnErr result (steps.new ≡ steps.old) }
{
    let mut walk = Walk::new(alloc, graph.nodes() as usize)?;
    explore_all(&mut walk, graph, steps);
    Ok(walk.into_order())
}

/// Whether each node stands on a cycle: the flag of a node is set exactly where one edge or more lead from the node to
/// itself (Cascading Variables 1, "Resolving Dependency Cycles").
///
/// These are the flags of [`ordered`], by the same walk.
pub fn cyclic<L: Ledger>(
    alloc: Global,
    graph: &Graph,
    steps: &mut Steps<L>,
) -> Result<Vec<bool>, OutOfMemory>
    ensures count { IfOk result (λ flags. length flags.items ≡ length graph.now) }
    ensures cyclic { IfOk result (λ flags. (node : ℕ) → IsMarked flags.items node ↔ IsCyclic (HasEdge graph.now) node) }
    ensures bound { steps.new ≤ steps.old + (edge_count graph.now + length graph.now) }
    ensures counted { steps.old ≤ steps.new }
    ensures refused { OnErr result (steps.new ≡ steps.old) }
{
    let order = ordered(alloc, graph, steps)?;
    Ok(order.cyclic)
}
