//! Graphs of numbered nodes.

use crate::steps::Steps;
use std::alloc::{AllocError, Global};
use std::marker::Model;
use std::sync::ledger::Ledger;

/// The targets of one node's edges.
#[derive(Drop)]
struct Row {
    targets: Vec<u32>,
}

impl Model for Row {
    ghost use Rattle.std.specs.Prelude.{ℕ, List};

    ghost Value = { List ℕ };

    ghost view = { λ r. r.targets.items };
}

impl Row {
    ghost use Rattle.std.specs.Prelude.{◌≡◌, ◌++◌, ◌∷◌, [], OnOk, OnErr, slice_get};

    fn new(alloc: Global) -> Self
        ensures { result ≡ [] }
    {
        Row {
            targets: Vec::new(alloc),
        }
    }

    fn push(&mut self, to: u32) -> Result<(), AllocError>
        ensures ok { OnOk result (self.new ≡ self.old ++ to ∷ []) }
        ensures err { OnErr result (self.new ≡ self.old) }
    {
        self.targets.push(to)?;
        Ok(())
    }

    fn get(&self, k: u32) -> Option<u32>
        ensures { result ≡ slice_get self.now k }
    {
        self.targets.get(k as usize).copied()
    }
}

/// A directed graph. Contracts see for each node the targets of its edges, in the order of adding.
#[derive(Drop)]
pub struct Graph {
    rows: Vec<Row>,
}

impl Model for Graph {
    ghost use Rattle.std.specs.Prelude.{ℕ, List};
    ghost use Rattle.cv_graph.specs.Edges.{IsGraph};

    ghost Value = { List (List ℕ) };

    ghost view = { λ g. g.rows.items };

    ghost invariant = { λ g. IsGraph g.rows.items };
}

impl Graph {
    ghost use Rattle.std.specs.Prelude.{◌≡◌, ◌≢◌, ◌↔◌, ℕ, ◌<◌, ◌≤◌, ◌++◌, ◌∷◌, [], ◌+◌, length, replicate, IfOk, OnOk, OnErr, IsNone, slice_get, slice_set};
    ghost use Rattle.cv_graph.specs.Edges.{IsGraph, targets, most_targets};

    /// A graph of so many nodes, without edges. It is refused for want of memory alone.
    pub fn new(alloc: Global, nodes: u32) -> Result<Graph, AllocError>
        ensures edgeless { IfOk result (λ graph. graph ≡ replicate nodes []) }
        ensures count { IfOk result (λ graph. length graph ≡ nodes) }
    {
        let mut rows = Vec::new(alloc);
        for _node in 0..nodes {
            rows.push(Row::new(alloc))?;
        }
        Ok(Graph { rows })
    }

    /// How many nodes there are: as many as `new` was given. What holds of each graph is handed on here.
    pub fn nodes(&self) -> u32
        ensures count { result ≡ length self.now }
        ensures graph { IsGraph self.now }
    {
        self.rows.len() as u32
    }

    /// Adds an edge as the last of `from`; an edge that is there already is added again. Want of memory leaves the
    /// graph as it was.
    pub fn add_edge(&mut self, from: u32, to: u32) -> Result<(), AllocError>
        requires from { from < length self.old }
        requires to { to < length self.old }
        requires room { length (targets self.old from) < most_targets }
        ensures added { OnOk result (self.new ≡ slice_set self.old from (targets self.old from ++ to ∷ [])) }
        ensures refused { OnErr result (self.new ≡ self.old) }
        ensures last { OnOk result (targets self.new from ≡ targets self.old from ++ to ∷ []) }
        ensures others { (node : ℕ) → node ≢ from → targets self.new node ≡ targets self.old node }
        ensures count { length self.new ≡ length self.old }
    {
        let row = &mut self.rows[from as usize];
        row.push(to)
    }

    /// The target of the node's k-th edge in the order of adding, counted from 0, in one step; None where the node has at
    /// most `k` edges. It takes no memory, and nothing else reads an edge.
    pub fn next<L: Ledger>(&self, node: u32, k: u32, steps: &mut Steps<L>) -> Option<u32>
        requires { node < length self.now }
        ensures edge { result ≡ slice_get (targets self.now node) k }
        ensures none { IsNone result ↔ (length (targets self.now node) ≤ k) }
        ensures step { steps.new ≡ steps.old + 1 }
    {
        steps.tick();
        let row = &self.rows[node as usize];
        row.get(k)
    }
}
