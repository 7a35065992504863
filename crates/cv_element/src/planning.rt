//! The order in which the values of an element are settled.

ghost use Rattle.std.specs.Prelude.{◌≡◌, ◌≤◌, ◌+◌, ℕ, Option, length, IfOk};
ghost use Rattle.std.specs.Option.{option_copied};
ghost use Rattle.cv_graph.specs.Edges.{most_targets};
ghost use Rattle.cv_spec_valuation.specs.Computed.{ParentStandsUnder};
ghost use Rattle.cv_spec_valuation.specs.Element.{the_element};
ghost use Rattle.cv_element.specs.Counting.{edge_most};
ghost use Rattle.cv_element.specs.Settling.{IsPlan};

use crate::graph::references;
use crate::held::add_sizes;
use crate::laws::elements_are_lawful;
use cv_calc::Unit;
use cv_cycle::{Order, ordered};
use cv_frac::Frac;
use cv_graph::Steps;
use cv_props::{Decls, Key, Registry, Valuation, properties_are_found};
use cv_spec_element::numbers_keep_cycles;
use cv_spec_text::{OutOfMemory, Token};
use cv_spec_valuation::Place;
use cv_value::Typed;
use std::alloc::Global;
use std::sync::ledger::Ledger;

/// The places of the declarations, each behind those that its property depends on or reads, if it is on no cycle. The cycles are searched
/// for once.
pub fn planned<L: Ledger>(
    alloc: Global,
    registry: &Registry,
    decls: &Decls,
    parent: Option<&Valuation>,
    at: &Place,
    steps: &mut Steps<L>,
) -> Result<Order, OutOfMemory>
    requires few { length decls.now ≤ most_targets }
    requires parent { ParentStandsUnder registry.now (option_copied parent) }
    ensures plan { IfOk result (λ order. (most : ℕ) → IsPlan (the_element registry.now decls.now (option_copied parent.entry) at.now most) decls.now order.nodes.items order.cyclic.items) }
    ensures nodes { IfOk result (λ order. length order.nodes.items ≡ length decls.now) }
    ensures flags { IfOk result (λ order. length order.cyclic.items ≡ length decls.now) }
    ensures counted { steps.old ≤ steps.new }
    ensures bound { steps.new ≤ steps.old + (edge_most decls.now + length decls.now) }
{
    elements_are_lawful();
    numbers_keep_cycles::<Key, Token, Typed, Unit, Frac>();
    properties_are_found();
    registry.len();
    decls.len();
    let mut graph = references(alloc, decls)?;
    add_sizes(alloc, registry, decls, parent, at, &mut graph)?;
    let order = ordered(alloc, &graph, steps)?;
    Ok(order)
}
