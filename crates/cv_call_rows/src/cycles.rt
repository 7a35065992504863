//! Graphs, and which of their nodes stand on a cycle.

ghost use Rattle.std.specs.Prelude.{◌≡◌, ◌<◌, length};
ghost use Rattle.cv_graph.specs.Edges.{IsGraph};

use cv_cycle::cyclic;
use cv_graph::{Graph, Steps};
use std::alloc::Global;
use std::marker::Brand;
use std::process::Abort;
use std::sync::ledger::{Blank, Ledger};
use std::test::Fail;

/// Adds an edge between nodes that are there, to a node that has few.
fn add_edge<L: Ledger, R: Abort>(
    rt: &R,
    graph: &mut Graph,
    from: u32,
    to: u32,
    steps: &mut Steps<L>,
) -> Result<(), Fail> {
    assert!(rt; from < graph.nodes() && to < graph.nodes());
    assert!(rt; graph.next(from, 16, steps).is_none());
    graph.add_edge(from, to)?;
    Ok(())
}

/// The flags of a graph with these edges.
fn flags<L: Ledger, R: Abort>(
    rt: &R,
    alloc: Global,
    blank: Blank,
    nodes: u32,
    edges: &[(u32, u32)],
) -> Result<Vec<bool>, Fail>
    requires name { blank.name ≡ L.name }
    requires parts { blank.parts ≡ L.parts }
    requires some { 0 < blank.parts }
{
    let mut graph = Graph::new(alloc, nodes)?;
    let mut steps: Steps<L> = Steps::new(blank);
    for &(from, to) in edges {
        add_edge(rt, &mut graph, from, to, &mut steps)?;
    }
    Ok(cyclic(alloc, &graph, &mut steps)?)
}

/// How many nodes of a chain, or of a ring where it is closed, stand on a cycle.
fn count_cyclic<L: Ledger, R: Abort>(
    rt: &R,
    alloc: Global,
    blank: Blank,
    nodes: u32,
    is_closed: bool,
) -> Result<usize, Fail>
    requires name { blank.name ≡ L.name }
    requires parts { blank.parts ≡ L.parts }
    requires some { 0 < blank.parts }
{
    let mut graph = Graph::new(alloc, nodes)?;
    let mut steps: Steps<L> = Steps::new(blank);
    for node in 1..nodes {
        add_edge(rt, &mut graph, node - 1, node, &mut steps)?;
    }
    if is_closed && nodes > 0 {
        add_edge(rt, &mut graph, nodes - 1, 0, &mut steps)?;
    }
    let flags = cyclic(alloc, &graph, &mut steps)?;
    Ok(flags.iter().filter(|&&flag| flag).count())
}

#[test]
fn only_nodes_between_which_edges_lead_both_ways(rt: HostRuntime) -> Result<(), Fail> {
    let edges = [
        (0, 1),
        (1, 2),
        (2, 0),
        (2, 3),
        (3, 4),
        (4, 3),
        (4, 5),
        (1, 5),
        (6, 7),
        (7, 7),
    ];
    let nested = flags::<Brand, HostRuntime>(&rt, rt.alloc(), Blank::new(1), 8, &edges)?;
    assert_eq!(rt;
        nested.as_slice(),
        [true, true, true, true, true, false, false, true].as_slice()
    );
    Ok(())
}

#[test]
fn a_chain_has_no_cycle(rt: HostRuntime) -> Result<(), Fail> {
    let count = count_cyclic::<Brand, HostRuntime>(&rt, rt.alloc(), Blank::new(1), 2049, false)?;
    assert_eq!(rt; count, 0);
    Ok(())
}

#[test]
fn a_ring_of_a_million(rt: HostRuntime) -> Result<(), Fail> {
    let count = count_cyclic::<Brand, HostRuntime>(&rt, rt.alloc(), Blank::new(1), 1000000, true)?;
    assert_eq!(rt; count, 1000000);
    Ok(())
}
