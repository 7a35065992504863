//! What is computed of one element.

ghost use Rattle.std.specs.Prelude.{◌≡◌, ◌≤◌, ◌<◌, ◌↔◌, Err, IfOk, IsNone};
ghost use Rattle.std.specs.Option.{option_copied};
ghost use Rattle.cv_valuation.specs.declared.key.Key as keys;
ghost use Rattle.cv_valuation.specs.declared.key.Key.TheVariants.{Table};
ghost use Rattle.cv_valuation.specs.Valuations.{outcome_at};
ghost use Rattle.cv_property.specs.declared.property.Property.TheVariants.{FontSize};
ghost use Rattle.cv_spec_valuation.specs.Computed.{IsComputed, IsOutOfRange, ParentStandsUnder, StandUnder};
ghost use Rattle.cv_spec_valuation.specs.Contexts.{size_of};
ghost use Rattle.cv_tree.specs.Contents.{AreFew};

use cv_element::{ElemErr, element};
use cv_frac::Frac;
use cv_graph::Steps;
use cv_props::{Computed, Decls, Key, Outcome, Property, Registry, Valuation};
use cv_spec_valuation::Place;
use cv_value::{Item, Typed};
use std::alloc::Global;
use std::marker::Brand;
use std::sync::ledger::{Blank, Ledger};

/// The font size in px among these values.
pub(crate) fn font_size(values: &Valuation) -> Frac
    ensures { result ≡ size_of (outcome_at values.now (Table FontSize)) }
{
    match values.get(&Key::Table(Property::FontSize)) {
        Outcome::Value(Typed::One(Item::Length(size))) => *size,
        _ => Frac::whole(16),
    }
}

/// What is computed of an element with these declarations and these values of its parent, at this place.
pub(crate) fn computed_alone(
    alloc: Global,
    registry: &Registry,
    declarations: &Decls,
    parent: Option<&Valuation>,
    place: &Place,
    limit: u32,
) -> Result<Computed, ElemErr>
    requires least { 1 ≤ limit }
    requires most { limit ≤ 32768 }
    requires few { AreFew declarations.now }
    requires root { IsNone parent ↔ IsNone place.now.root }
    requires parent { ParentStandsUnder registry.now (option_copied parent) }
    ensures computed { IfOk result (IsComputed registry.now declarations.now (option_copied parent.entry) place.now limit) }
    ensures stand { IfOk result (λ computed. StandUnder registry.now computed.values) }
    ensures range { (property : keys.Key) → result ≡ Err (ElemErr.Range property) → IsOutOfRange registry.now declarations.now (option_copied parent.entry) place.now limit property }
{
    counting::<Brand>(
        alloc,
        registry,
        declarations,
        parent,
        place,
        limit,
        Blank::new(1),
    )
}

// The same with a counter of its own, which nobody reads.
fn counting<L: Ledger>(
    alloc: Global,
    registry: &Registry,
    declarations: &Decls,
    parent: Option<&Valuation>,
    place: &Place,
    limit: u32,
    blank: Blank,
) -> Result<Computed, ElemErr>
    requires name { blank.name ≡ L.name }
    requires parts { blank.parts ≡ L.parts }
    requires some { 0 < blank.parts }
    requires least { 1 ≤ limit }
    requires most { limit ≤ 32768 }
    requires few { AreFew declarations.now }
    requires root { IsNone parent ↔ IsNone place.now.root }
    requires parent { ParentStandsUnder registry.now (option_copied parent) }
    ensures computed { IfOk result (IsComputed registry.now declarations.now (option_copied parent.entry) place.now limit) }
    ensures stand { IfOk result (λ computed. StandUnder registry.now computed.values) }
    ensures range { (property : keys.Key) → result ≡ Err (ElemErr.Range property) → IsOutOfRange registry.now declarations.now (option_copied parent.entry) place.now limit property }
{
    let mut steps: Steps<L> = Steps::new(blank);
    element(
        alloc,
        registry,
        declarations,
        parent,
        place,
        limit,
        &mut steps,
    )
}
