//! The values of an element.

ghost use Rattle.std.specs.Prelude.{◌≡◌, ◌↔◌, ◌<◌, ◌≤◌, ◌+◌, ℕ, List, [], Option, Some, None, Err, length, Contains, IfOk, IfSome, OnOk, IsNone, slice_get};
ghost use Rattle.std.specs.Option.{option_copied};
ghost use Rattle.cv_spec_text.specs.declared.token.Token.{Token};
ghost use Rattle.cv_value.specs.declared.typed.Typed.{Typed};
ghost use Rattle.cv_spec_element.specs.Element.{Outcome};
ghost use Rattle.cv_spec_element.specs.Valuation.{Cause, IsInvalid, IsValuation};
ghost use Rattle.cv_graph.specs.Edges.{most_targets};
ghost use Rattle.cv_subst.specs.Values.{value_in};
ghost use Rattle.cv_valuation.specs.declared.computed.Cause.{Cause as Reported};
ghost use Rattle.cv_valuation.specs.declared.key.Key.{Key};
ghost use Rattle.cv_valuation.specs.Valuations.{outcome_at};
ghost use Rattle.cv_spec_valuation.specs.Computed.{cause_of, IsOnce, IsByName, IsReported, StandUnder, ParentStandsUnder, IsComputed, IsInRange, IsOutOfRange};
ghost use Rattle.cv_spec_valuation.specs.Element.{the_element, values_of};
ghost use Rattle.cv_element.specs.declared.refusal.ElemErr.{ElemErr};
ghost use Rattle.cv_element.specs.Counting.{edge_most};
ghost use Rattle.cv_element.specs.Settling.{key_in, IsLoaded, Settles, IsPlan, IsSettling};
ghost use Rattle.cv_element.specs.Values.{start_at};
ghost use Rattle.cv_props.specs.declared.decls.Decl.{Decl};

use crate::faults::by_name;
use crate::laws::elements_are_lawful;
use crate::planning::planned;
use crate::refusal::ElemErr;
use crate::settling::{Settling, settle};
use crate::starting::started;
use cv_calc::Unit;
use cv_cycle::Order;
use cv_frac::Frac;
use cv_graph::Steps;
use cv_props::{
    Computed, Decls, Key, Registry, Valuation, outcomes_are_by_key, properties_are_found,
};
use cv_spec_element::{
    causes_are_kept, declarations_are_judged, has_one_cause, has_one_valuation,
    settled_values_solve,
};
use cv_spec_text::{OutOfMemory, Token};
use cv_spec_valuation::Place;
use cv_subst::Runs;
use cv_value::Typed;
use cv_var::pieces_are_read;
use sqlite_items::Items;
use std::alloc::Global;
use std::sync::ledger::Ledger;

// Every key has what it has undeclared.
fn begun(
    alloc: Global,
    registry: &Registry,
    parent: Option<&Valuation>,
) -> Result<Settling, OutOfMemory>
    requires parent { ParentStandsUnder registry.now (option_copied parent) }
    ensures values { IfOk result (λ settling. (key : Key) → outcome_at settling.values key ≡ start_at registry.now (option_copied parent.entry) key) }
    ensures stand { IfOk result (λ settling. StandUnder registry.now settling.values) }
    ensures runs { IfOk result (λ settling. (name : List ℕ) → value_in settling.runs name ≡ None) }
    ensures faults { IfOk result (λ settling. settling.faults ≡ []) }
    ensures range { IfOk result (λ settling. settling.range ≡ None) }
{
    Ok(Settling {
        values: started(alloc, registry, parent)?,
        runs: Runs::new(alloc),
        faults: Items::new(alloc),
        range: None,
    })
}

// Settles the property that is declared at this place.
fn settle_at(
    alloc: Global,
    registry: &Registry,
    decls: &Decls,
    parent: Option<&Valuation>,
    at: &Place,
    place: usize,
    is_cyclic: bool,
    limit: u32,
    settling: &mut Settling,
) -> Result<(), OutOfMemory>
    requires some { 1 ≤ limit }
    requires most { limit ≤ 32768 }
    requires place { place < length decls.now }
    requires parent { ParentStandsUnder registry.now (option_copied parent) }
    requires loaded { IsLoaded settling.old.runs settling.old.values }
    requires stand { StandUnder registry.now settling.old.values }
    ensures settles { OnOk result (IfSome (slice_get decls.now place) (λ entry. Settles registry.now (option_copied parent.entry) at.now entry.0 entry.1.value is_cyclic limit settling.old settling.new)) }
    ensures stand { OnOk result (StandUnder registry.now settling.new.values) }
{
    let (key, declaration) = decls.at(place);
    settle(
        alloc,
        registry,
        parent,
        at,
        key,
        &declaration.value,
        is_cyclic,
        limit,
        settling,
    )
}

// Settles all declared properties.
fn settle_all(
    alloc: Global,
    registry: &Registry,
    decls: &Decls,
    parent: Option<&Valuation>,
    at: &Place,
    order: &Order,
    limit: u32,
    settling: &mut Settling,
) -> Result<(), OutOfMemory>
    requires some { 1 ≤ limit }
    requires most { limit ≤ 32768 }
    requires parent { ParentStandsUnder registry.now (option_copied parent) }
    requires nodes { length order.now.nodes.items ≡ length decls.now }
    requires flags { length order.now.cyclic.items ≡ length decls.now }
    requires plan { IsPlan (the_element registry.now decls.now (option_copied parent) at.now limit) decls.now order.now.nodes.items order.now.cyclic.items }
    requires begun { IsSettling (the_element registry.now decls.now (option_copied parent) at.now limit) decls.now order.now.nodes.items (start_at registry.now (option_copied parent)) 0 settling.old }
    requires stand { StandUnder registry.now settling.old.values }
    ensures settled { OnOk result (IsSettling (the_element registry.now decls.now (option_copied parent.entry) at.now limit) decls.now order.now.nodes.items (start_at registry.now (option_copied parent.entry)) (length decls.now) settling.new) }
    ensures stand { OnOk result (StandUnder registry.now settling.new.values) }
{
    outcomes_are_by_key();
    properties_are_found();
    pieces_are_read();
    declarations_are_judged::<Key, Token, Typed, Unit, Frac>();
    for place in 0..decls.len() {
        let number = order.nodes[place] as usize;
        settle_at(
            alloc,
            registry,
            decls,
            parent,
            at,
            number,
            order.cyclic[number],
            limit,
            settling,
        )?;
    }
    Ok(())
}

// Settles all declared properties over what they have undeclared.
fn settled(
    alloc: Global,
    registry: &Registry,
    decls: &Decls,
    parent: Option<&Valuation>,
    at: &Place,
    order: &Order,
    limit: u32,
) -> Result<Settling, OutOfMemory>
    requires some { 1 ≤ limit }
    requires most { limit ≤ 32768 }
    requires parent { ParentStandsUnder registry.now (option_copied parent) }
    requires nodes { length order.now.nodes.items ≡ length decls.now }
    requires flags { length order.now.cyclic.items ≡ length decls.now }
    requires plan { IsPlan (the_element registry.now decls.now (option_copied parent) at.now limit) decls.now order.now.nodes.items order.now.cyclic.items }
    ensures solves { IfOk result (λ settling. IsValuation (the_element registry.now decls.now (option_copied parent.entry) at.now limit) (values_of settling.values)) }
    ensures told { IfOk result (λ settling. (key : Key) (cause : Cause Key) → IsReported settling.faults key cause ↔ IsInvalid (the_element registry.now decls.now (option_copied parent.entry) at.now limit) (values_of settling.values) key cause) }
    ensures faults { IfOk result (λ settling. (key : Key) (cause : Reported) → Contains settling.faults (key, cause) ↔ IsInvalid (the_element registry.now decls.now (option_copied parent.entry) at.now limit) (values_of settling.values) key (cause_of cause)) }
    ensures once { IfOk result (λ settling. IsOnce settling.faults) }
    ensures stand { IfOk result (λ settling. StandUnder registry.now settling.values) }
    ensures range { IfOk result (λ settling. (key : Key) → settling.range ≡ Some key → IsOutOfRange registry.now decls.now (option_copied parent.entry) at.now limit key) }
    ensures in_range { IfOk result (λ settling. settling.range ≡ None → IsInRange registry.now decls.now (option_copied parent.entry) at.now limit) }
{
    elements_are_lawful();
    has_one_cause::<Key, Token, Typed, Unit, Frac>();
    has_one_valuation::<Key, Token, Typed, Unit, Frac>();
    settled_values_solve::<Key, Token, Typed, Unit, Frac>();
    causes_are_kept::<Key, Token, Typed, Unit, Frac>();
    properties_are_found();
    registry.len();
    decls.len();
    let mut settling = begun(alloc, registry, parent)?;
    settle_all(
        alloc,
        registry,
        decls,
        parent,
        at,
        order,
        limit,
        &mut settling,
    )?;
    Ok(settling)
}

/// The values of an element and its invalid properties: the one solution of its equations (Cascading Variables 1; Properties and Values
/// API 1). The declarations are numbered by a u32.
///
/// The parent's values stand under the registry, and so do the answer's. `faults` come in byte order of their names as the report writes
/// them.
///
/// The limit is the most tokens that a list may have after substitution. `steps` counts what the search for cycles reads.
///
/// # Errors
///
/// `Range` with a property that isn't invalid and is out of range, exactly where there is one; `Memory`.
pub fn element<L: Ledger>(
    alloc: Global,
    registry: &Registry,
    decls: &Decls,
    parent: Option<&Valuation>,
    at: &Place,
    limit: u32,
    steps: &mut Steps<L>,
) -> Result<Computed, ElemErr>
    requires some { 1 ≤ limit }
    requires most { limit ≤ 32768 }
    requires few { length decls.now ≤ most_targets }
    requires root { IsNone parent ↔ IsNone at.now.root }
    requires parent { ParentStandsUnder registry.now (option_copied parent) }
    ensures solves { IfOk result (λ computed. IsValuation (the_element registry.now decls.now (option_copied parent.entry) at.now limit) (values_of computed.values)) }
    ensures only { IfOk result (λ computed. (other : Key → Outcome Token Typed) → IsValuation (the_element registry.now decls.now (option_copied parent.entry) at.now limit) other → (key : Key) → other key ≡ values_of computed.values key) }
    ensures faults { IfOk result (λ computed. (key : Key) (cause : Reported) → Contains computed.faults (key, cause) ↔ IsInvalid (the_element registry.now decls.now (option_copied parent.entry) at.now limit) (values_of computed.values) key (cause_of cause)) }
    ensures told { IfOk result (λ computed. (key : Key) (cause : Cause Key) → IsInvalid (the_element registry.now decls.now (option_copied parent.entry) at.now limit) (values_of computed.values) key cause → IsReported computed.faults key cause) }
    ensures once { IfOk result (λ computed. IsOnce computed.faults) }
    ensures ordered { IfOk result (λ computed. IsByName computed.faults) }
    ensures in_range { IfOk result (λ computed. IsInRange registry.now decls.now (option_copied parent.entry) at.now limit) }
    ensures computed { IfOk result (IsComputed registry.now decls.now (option_copied parent.entry) at.now limit) }
    ensures stand { IfOk result (λ computed. StandUnder registry.now computed.values) }
    ensures range { (key : Key) → result ≡ Err (ElemErr.Range key) → IsOutOfRange registry.now decls.now (option_copied parent.entry) at.now limit key }
    ensures counted { steps.old ≤ steps.new }
    ensures bound { steps.new ≤ steps.old + (edge_most decls.now + length decls.now) }
{
    elements_are_lawful();
    has_one_valuation::<Key, Token, Typed, Unit, Frac>();
    registry.len();
    let order = planned(alloc, registry, decls, parent, at, steps)?;
    let settling = settled(alloc, registry, decls, parent, at, &order, limit)?;
    let Settling {
        values,
        faults,
        range,
        ..
    } = settling;
    if let Some(key) = range {
        return Err(ElemErr::Range(key));
    }
    let faults = by_name(alloc, faults.as_slice())?;
    Ok(Computed { values, faults })
}
