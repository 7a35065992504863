//! The one walk over a graph.

use crate::order::Order;
use crate::stacks::{copy_nodes, drop_above, mark_nodes, mark_several};
use cv_graph::{Graph, OutOfMemory, Steps};
use std::alloc::Global;
use std::marker::Model;
use std::sync::ledger::Ledger;

/// What one walk over a graph knows.
///
/// The nodes that were met and belong to no complete component stand on the stack, in the order in which they were
/// met. The path leads from the root to the node whose edges are being read; it is kept as places on the stack. Some
/// of these places are starts: from each start to the next the stack holds one component, as far as it is known.
#[derive(Drop)]
pub struct Walk {
    stack: Vec<u32>,
    size: usize,
    path: Vec<u32>,
    height: usize,
    starts: Vec<u32>,
    count: usize,
    /// Where each node stands on the stack.
    place: Vec<u32>,
    met: Vec<bool>,
    /// The nodes of complete components.
    closed: Vec<bool>,
    /// The nodes that are known to stand on a cycle.
    flags: Vec<bool>,
    /// How many edges of each node were asked for.
    reads: Vec<u32>,
    /// The nodes of complete components, one component behind another.
    order: Vec<u32>,
    done: usize,
}

impl Model for Walk {
    ghost use Rattle.cv_cycle.specs.State.{State};

    ghost Value = { State };

    ghost view = { λ w. record { stack = w.stack.items; size = w.size; path = w.path.items; height = w.height; starts = w.starts.items; count = w.count; place = w.place.items; met = w.met.items; closed = w.closed.items; flags = w.flags.items; reads = w.reads.items; order = w.order.items; done = w.done } };
}

impl Walk {
    ghost use Rattle.std.specs.Prelude.{◌≡◌, ◌+◌, ◌-◌, ℕ, ◌<◌, ◌≤◌, ◌↔◌, Bool, false, length, sum, IfOk, IsTrue, slice_get, slice_index, slice_index_or};
    ghost use Rattle.cv_cycle.specs.Marks.{IsMarked, StandsIn};
    ghost use Rattle.cv_graph.specs.Edges.{IsGraph, targets, most_targets};
    ghost use Rattle.cv_cycle.specs.Search.{IsSearch};
    ghost use Rattle.cv_cycle.specs.State.{State, fresh, IsSized, HasRoom, entered, Meets, Follows, Writes, Cuts, Closes, Leaves, asked};

    /// A walk that met no node yet. It takes all the memory that the walk will need.
    pub fn new(alloc: Global, nodes: usize) -> Result<Walk, OutOfMemory>
        ensures { IfOk result (λ walk. walk ≡ fresh nodes) }
    {
        Ok(Walk {
            stack: vec![in alloc; 0u32; nodes]?,
            size: 0,
            path: vec![in alloc; 0u32; nodes]?,
            height: 0,
            starts: vec![in alloc; 0u32; nodes]?,
            count: 0,
            place: vec![in alloc; 0u32; nodes]?,
            met: vec![in alloc; false; nodes]?,
            closed: vec![in alloc; false; nodes]?,
            flags: vec![in alloc; false; nodes]?,
            reads: vec![in alloc; 0u32; nodes]?,
            order: vec![in alloc; 0u32; nodes]?,
            done: 0,
        })
    }

    /// Whether the node was met.
    pub fn has_met(&self, node: u32) -> bool
        requires { node < length self.now.met }
        ensures { IsTrue result ↔ IsMarked self.now.met node }
    {
        self.met[node as usize]
    }

    /// Whether the path is empty.
    pub fn is_done(&self) -> bool
        ensures { IsTrue result ↔ (self.now.height ≡ 0) }
    {
        self.height == 0
    }

    /// The flags and the order, once the walk is over.
    pub fn into_order(self) -> Order
        ensures cyclic { result.cyclic.items ≡ self.flags }
        ensures nodes { result.nodes.items ≡ self.order }
    {
        Order {
            cyclic: self.flags,
            nodes: self.order,
        }
    }

    /// A node that wasn't met goes on the stack, ends the path, and is a start.
    pub fn enter(&mut self, node: u32)
        requires sized { IsSized (length self.old.met) self.old }
        requires room { HasRoom self.old }
        requires node { node < length self.old.met }
        requires few { length self.old.met ≤ 4294967296 }
        ensures { self.new ≡ entered self.old node }
    {
        let place = self.size as u32;
        self.met[node as usize] = true;
        self.place[node as usize] = place;
        self.path[self.height] = place;
        self.height += 1;
        self.starts[self.count] = place;
        self.count += 1;
        self.stack[self.size] = node;
        self.size += 1;
    }

    /// An edge leads to a node of the stack: the starts above that node are none any more. An edge of a node to
    /// itself is a cycle.
    fn meet(&mut self, node: u32, to: u32)
        requires sized { IsSized (length self.old.met) self.old }
        requires node { node < length self.old.met }
        requires to { to < length self.old.met }
        requires count { self.old.count ≤ length self.old.met }
        ensures { Meets self.old self.new node to }
    {
        let place = self.place[to as usize];
        self.count = drop_above(&self.starts, self.count, place);
        if node == to {
            self.flags[node as usize] = true;
        }
    }

    /// Follows an edge.
    fn follow(&mut self, node: u32, to: u32)
        requires sized { IsSized (length self.old.met) self.old }
        requires node { node < length self.old.met }
        requires to { to < length self.old.met }
        requires few { length self.old.met ≤ 4294967296 }
        requires count { self.old.count ≤ length self.old.met }
        requires room { slice_index_or self.old.met to false ≡ false → HasRoom self.old }
        ensures { Follows self.old self.new node to }
    {
        if !self.met[to as usize] {
            self.enter(to);
        } else if !self.closed[to as usize] {
            self.meet(node, to);
        }
    }

    /// The order goes on with what stands on the stack from the place on.
    fn write(&mut self, top: usize)
        requires sized { IsSized (length self.old.met) self.old }
        requires top { top ≤ self.old.size }
        requires size { self.old.size ≤ length self.old.met }
        requires room { self.old.done + self.old.size ≤ length self.old.met }
        ensures { Writes self.old self.new top }
    {
        copy_nodes(&mut self.order, self.done, &self.stack, top, self.size);
        self.done += self.size - top;
    }

    /// What stands on the stack from the start at its end is a component, and is taken off. Its nodes are on a cycle
    /// where there is more than one.
    fn cut(&mut self, top: usize)
        requires sized { IsSized (length self.old.met) self.old }
        requires count { 0 < self.old.count }
        requires top { top ≤ self.old.size }
        requires size { self.old.size ≤ length self.old.met }
        requires nodes { (place : ℕ) → place < self.old.size → slice_index self.old.stack place < length self.old.met }
        ensures { Cuts self.old self.new top }
    {
        self.count -= 1;
        mark_nodes(&mut self.closed, &self.stack, top, self.size);
        mark_several(&mut self.flags, &self.stack, top, self.size);
        self.size = top;
    }

    /// A component is complete: it is written down, and taken off the stack.
    fn close(&mut self, top: usize)
        requires sized { IsSized (length self.old.met) self.old }
        requires count { 0 < self.old.count }
        requires top { top ≤ self.old.size }
        requires size { self.old.size ≤ length self.old.met }
        requires nodes { (place : ℕ) → place < self.old.size → slice_index self.old.stack place < length self.old.met }
        requires room { self.old.done + self.old.size ≤ length self.old.met }
        ensures { Closes self.old self.new top }
    {
        self.write(top);
        self.cut(top);
    }

    /// The node at the end of the path has no further edge.
    fn leave(&mut self, top: u32)
        requires sized { IsSized (length self.old.met) self.old }
        requires height { 0 < self.old.height }
        requires count { (0 < self.old.count) × (self.old.count ≤ length self.old.met) }
        requires top { top ≤ self.old.size }
        requires size { self.old.size ≤ length self.old.met }
        requires nodes { (place : ℕ) → place < self.old.size → slice_index self.old.stack place < length self.old.met }
        requires room { self.old.done + self.old.size ≤ length self.old.met }
        ensures { Leaves self.old self.new top }
    {
        self.height -= 1;
        if self.starts[self.count - 1] == top {
            self.close(top as usize);
        }
    }

    /// The end of the path, a place on the stack.
    fn top(&self) -> u32
        requires height { 0 < self.now.height }
        requires path { self.now.height ≤ length self.now.path }
        ensures { result ≡ slice_index self.now.path (self.now.height - 1) }
    {
        self.path[self.height - 1]
    }

    /// The node at the place on the stack.
    fn node_at(&self, place: u32) -> u32
        requires { place < length self.now.stack }
        ensures { result ≡ slice_index self.now.stack place }
    {
        self.stack[place as usize]
    }

    /// Asks for one more edge of the node.
    fn ask<L: Ledger>(&mut self, graph: &Graph, node: u32, steps: &mut Steps<L>) -> Option<u32>
        requires node { node < length graph.now }
        requires reads { length self.old.reads ≡ length graph.now }
        requires few { slice_index self.old.reads node ≤ most_targets }
        ensures asked { self.new ≡ asked self.old node }
        ensures edge { result ≡ slice_get (targets graph.now node) (slice_index self.old.reads node) }
        ensures step { steps.new ≡ steps.old + 1 }
    {
        let place = self.reads[node as usize];
        self.reads[node as usize] = place + 1;
        graph.next(node, place, steps)
    }

    /// Asks for one more edge of the node at the end of the path, and follows it or leaves the node.
    pub fn advance<L: Ledger>(&mut self, graph: &Graph, steps: &mut Steps<L>)
        requires valid { IsGraph graph.now }
        requires search { IsSearch graph.now self.old }
        requires path { 0 < self.old.height }
        ensures search { IsSearch graph.now self.new }
        ensures asked { sum self.new.reads ≡ sum self.old.reads + 1 }
        ensures met { (node : ℕ) → IsMarked self.old.met node → IsMarked self.new.met node }
        ensures step { steps.new ≡ steps.old + 1 }
    {
        let top = self.top();
        let node = self.node_at(top);
        match self.ask(graph, node, steps) {
            None => self.leave(top),
            Some(to) => self.follow(node, to),
        }
    }
}
