//! Which nodes of a graph are reached from given ones.

ghost use Rattle.std.specs.Prelude.{◌≡◌, ℕ, ◌<◌, ◌↔◌, length, slice_index, IfOk, OnOk};
ghost use Rattle.cv_graph.specs.Edges.{IsGraph, HasEdge};
ghost use Rattle.cv_cycle.specs.Marks.{IsMarked};
ghost use Rattle.cv_cycle.specs.Spreading.{IsReached, AreFound, Grows};

use cv_graph::{Graph, OutOfMemory, Steps};
use std::alloc::Global;
use std::sync::ledger::Ledger;

/// The marked nodes, and a list of them in the order in which they were found.
#[derive(Drop)]
struct Found {
    marks: Vec<bool>,
    nodes: Vec<u32>,
}

// Marks a node that is reached.
fn find(graph: &Graph, starts: &[bool], node: u32, found: &mut Found) -> Result<(), OutOfMemory>
    requires node { node < length graph.now }
    requires reached { IsReached graph.now starts.now node }
    requires found { AreFound graph.now starts.now found.old }
    ensures found { OnOk result (AreFound graph.now starts.now found.new) }
    ensures grows { OnOk result (Grows found.old found.new) }
    ensures here { OnOk result (IsMarked found.new.marks.items node) }
{
    if !found.marks[node as usize] {
        found.marks[node as usize] = true;
        found.nodes.push(node)?;
    }
    Ok(())
}

// Marks the nodes that are marked at the beginning.
fn find_starts(graph: &Graph, starts: &[bool], found: &mut Found) -> Result<(), OutOfMemory>
    requires few { length graph.now < 4294967296 }
    requires count { length starts.now ≡ length graph.now }
    requires found { AreFound graph.now starts.now found.old }
    ensures found { OnOk result (AreFound graph.now starts.now found.new) }
    ensures starts { OnOk result ((node : ℕ) → IsMarked starts.now node → IsMarked found.new.marks.items node) }
{
    for node in 0..starts.len() {
        if starts[node] {
            find(graph, starts, node as u32, found)?;
        }
    }
    Ok(())
}

// Marks the nodes to which an edge leads from the node.
fn spread_from<L: Ledger>(
    graph: &Graph,
    starts: &[bool],
    node: u32,
    found: &mut Found,
    steps: &mut Steps<L>,
) -> Result<(), OutOfMemory>
    requires valid { IsGraph graph.now }
    requires node { node < length graph.now }
    requires reached { IsReached graph.now starts.now node }
    requires found { AreFound graph.now starts.now found.old }
    ensures found { OnOk result (AreFound graph.now starts.now found.new) }
    ensures grows { OnOk result (Grows found.old found.new) }
    ensures along { OnOk result ((to : ℕ) → HasEdge graph.now node to → IsMarked found.new.marks.items to) }
{
    for edge in 0..4294967288 {
        match graph.next(node, edge, steps) {
            Some(to) => find(graph, starts, to, found)?,
            None => return Ok(()),
        }
    }
    Ok(())
}

// Marks all nodes that are reached from those that are marked.
fn spread_all<L: Ledger>(
    graph: &Graph,
    starts: &[bool],
    found: &mut Found,
    steps: &mut Steps<L>,
) -> Result<(), OutOfMemory>
    requires valid { IsGraph graph.now }
    requires found { AreFound graph.now starts.now found.old }
    requires starts { (node : ℕ) → IsMarked starts.now node → IsMarked found.old.marks.items node }
    ensures count { OnOk result (length found.new.marks.items ≡ length graph.now) }
    ensures reached { OnOk result ((node : ℕ) → IsMarked found.new.marks.items node ↔ IsReached graph.now starts.now node) }
{
    let mut place = 0;
    while place < found.nodes.len() {
        let node = found.nodes[place];
        spread_from(graph, starts, node, found, steps)?;
        place += 1;
    }
    Ok(())
}

/// Marks the nodes that are marked already or are reached from one of these by one edge or more. The edges of each node that
/// is marked are read once.
pub fn reached<L: Ledger>(
    alloc: Global,
    graph: &Graph,
    starts: &[bool],
    steps: &mut Steps<L>,
) -> Result<Vec<bool>, OutOfMemory>
    requires { length starts.now ≡ length graph.now }
    ensures count { IfOk result (λ marks. length marks.items ≡ length graph.now) }
    ensures reached { IfOk result (λ marks. (node : ℕ) → IsMarked marks.items node ↔ IsReached graph.now starts.now node) }
{
    let mut found = Found {
        marks: vec![in alloc; false; graph.nodes() as usize]?,
        nodes: Vec::new(alloc),
    };
    find_starts(graph, starts, &mut found)?;
    spread_all(graph, starts, &mut found, steps)?;
    Ok(found.marks)
}
