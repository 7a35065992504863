//! The valuations of a tree: those of its elements, each given its parent's.

ghost use Rattle.std.specs.Prelude.{◌≡◌, ◌≤◌, ◌<◌, ◌↔◌, ℕ, All, IfErr, IfOk, IfSome, IsNone, OnOk, length, map};
ghost use Rattle.std.specs.Option.{option_copied};
ghost use Rattle.cv_valuation.specs.declared.key.Key as keys;
ghost use Rattle.cv_doc.specs.Kept.{IsTree};
ghost use Rattle.cv_spec_valuation.specs.Computed.{IsComputed, IsOutOfRange, ParentStandsUnder, StandUnder};
ghost use Rattle.cv_property.specs.declared.property.Property.TheVariants.{FontSize};
ghost use Rattle.cv_valuation.specs.declared.key.Key.TheVariants.{Table};
ghost use Rattle.cv_valuation.specs.Valuations.{outcome_at};
ghost use Rattle.cv_spec_valuation.specs.Contexts.{size_of};
ghost use Rattle.cv_tree.specs.Contents.{AreFew};
ghost use Rattle.cv_tree.specs.Tree.{AllStand, AreComputed, parent_of, place_in, values_in};
ghost use Rattle.cv_tree.specs.Tree as trees;
ghost use Rattle.cv_tree.specs.Walking.{IsKept, IsReady, IsNextOf, IsNextOut, Stepped};

use cv_doc::{Elem, Step, walk};
use cv_element::{ElemErr, element};
use cv_frac::Frac;
use cv_graph::Steps;
use cv_props::{Computed, Decls, Key, Outcome, Property, Registry, Valuation};
use cv_spec_valuation::Place;
use cv_value::{Item, Typed};
use std::alloc::Global;
use std::marker::Brand;
use std::sync::ledger::{Blank, Ledger};

/// Why a tree isn't computed.
#[derive(Drop)]
pub enum Stop {
    /// On this element, the first such, this property isn't invalid and is out of range.
    Range { element: u32, property: Key },
    /// Memory ran out.
    Memory,
}

// A walk over the elements, with what is computed of those that were stepped.
#[derive(Drop)]
struct Computing<'a> {
    alloc: Global,
    registry: &'a Registry,
    declarations: &'a [Decls],
    width: u32,
    height: u32,
    limit: u32,
    all: Vec<Computed>,
}

/// What is computed of each element, by its declarations and what is computed of its parent, under this registry and in a viewport
/// of this size.
///
/// # Errors
///
/// [`Stop::Range`] for a property of the first element on which one is out of range.
pub fn computed_of(
    alloc: Global,
    elements: &Vec<Elem>,
    registry: &Registry,
    declarations: &[Decls],
    size: (u32, u32),
    limit: u32,
) -> Result<Vec<Computed>, Stop>
    requires declarations { length declarations.now ≡ length elements.now.items }
    requires short { All AreFew declarations.now }
    requires tree { IsTree elements.now.items }
    requires few { length elements.now.items ≤ 16384 }
    requires least { 1 ≤ limit }
    requires most { limit ≤ 32768 }
    ensures computed { IfOk result (λ all. AreComputed (trees.the_tree registry.now (map parent_of elements.now.items) declarations.now size.0 size.1) limit (length elements.now.items) all.items) }
    ensures stand { IfOk result (λ all. AllStand registry.now all.items) }
    ensures range { (number : ℕ) (property : keys.Key) → result ≡ Err (Stop.Range number property) → trees.IsOutOfRange (trees.the_tree registry.now (map parent_of elements.now.items) declarations.now size.0 size.1) limit number property }
{
    let mut computing = Computing {
        alloc,
        registry,
        declarations,
        width: size.0,
        height: size.1,
        limit,
        all: Vec::new(alloc),
    };
    match walk(elements, &mut computing) {
        Ok(()) => Ok(computing.all),
        Err(stop) => Err(stop),
    }
}

impl Step for Computing<'_> {
    type Stop = Stop;

    ghost ready = { IsReady };

    ghost gives = { Stepped };

    fn step(&mut self, index: u32, parent: Option<u32>) -> Result<(), Stop> {
        match self.computed(index, parent) {
            Ok(computed) => self.keep(computed),
            Err(ElemErr::Range(property)) => Err(Stop::Range {
                element: index,
                property,
            }),
            Err(ElemErr::Memory) => Err(Stop::Memory),
        }
    }
}

impl Computing<'_> {
    // Adds what is computed of one more element.
    fn keep(&mut self, computed: Computed) -> Result<(), Stop>
        ensures ok { OnOk result (IsKept self.old computed self.new) }
        ensures err { IfErr result (λ stop. stop ≡ Stop.Memory) }
    {
        match self.all.push(computed) {
            Ok(()) => Ok(()),
            Err(_) => Err(Stop::Memory),
        }
    }

    // What is computed of the element with this index and this parent.
    fn computed(&self, index: u32, parent: Option<u32>) -> Result<Computed, ElemErr>
        requires { IsReady self.now index parent }
        ensures computed { IfOk result (λ computed. IsNextOf self.now index parent computed) }
        ensures range { (property : keys.Key) → result ≡ Err (ElemErr.Range property) → IsNextOut self.now index parent property }
    {
        let declarations = &self.declarations[index as usize];
        let place = self.place(parent);
        match parent {
            Some(parent) => {
                let values = &self.all[parent as usize].values;
                self.computed_under(declarations, Some(values), &place)
            }
            None => self.computed_under(declarations, None, &place),
        }
    }

    // Where an element with this parent stands.
    fn place(&self, parent: Option<u32>) -> Place
        requires { IfSome parent (λ at. at < length self.now.all.items) }
        ensures place { result ≡ place_in self.now.width self.now.height (values_in self.now.all.items) parent }
        ensures root { IsNone parent ↔ IsNone result.root }
    {
        let root = match parent {
            Some(_) => Some(font_size(&self.all[0].values)),
            None => None,
        };
        Place {
            width: self.width,
            height: self.height,
            root,
        }
    }

    // What is computed of an element with these declarations and these values of its parent, at this place.
    fn computed_under(
        &self,
        declarations: &Decls,
        parent: Option<&Valuation>,
        place: &Place,
    ) -> Result<Computed, ElemErr>
        requires few { AreFew declarations.now }
        requires least { 1 ≤ self.now.limit }
        requires most { self.now.limit ≤ 32768 }
        requires root { IsNone parent ↔ IsNone place.now.root }
        requires parent { ParentStandsUnder self.now.registry.now (option_copied parent) }
        ensures computed { IfOk result (IsComputed self.now.registry.now declarations.now (option_copied parent.entry) place.now self.now.limit) }
        ensures stand { IfOk result (λ computed. StandUnder self.now.registry.now computed.values) }
        ensures range { (property : keys.Key) → result ≡ Err (ElemErr.Range property) → IsOutOfRange self.now.registry.now declarations.now (option_copied parent.entry) place.now self.now.limit property }
    {
        computed_counting::<Brand>(
            self.alloc,
            self.registry,
            declarations,
            parent,
            place,
            self.limit,
            Blank::new(1),
        )
    }
}

// The font size in px among these values.
fn font_size(values: &Valuation) -> Frac
    ensures { result ≡ size_of (outcome_at values.now (Table FontSize)) }
{
    match values.get(&Key::Table(Property::FontSize)) {
        Outcome::Value(Typed::One(Item::Length(size))) => *size,
        _ => Frac::whole(16),
    }
}

// The same with a counter of its own, which nobody reads.
fn computed_counting<L: Ledger>(
    alloc: Global,
    registry: &Registry,
    declarations: &Decls,
    parent: Option<&Valuation>,
    place: &Place,
    limit: u32,
    blank: Blank,
) -> Result<Computed, ElemErr>
    requires name { blank.name ≡ L.name }
    requires parts { blank.parts ≡ L.parts }
    requires some { 0 < blank.parts }
    requires few { AreFew declarations.now }
    requires least { 1 ≤ limit }
    requires most { limit ≤ 32768 }
    requires root { IsNone parent ↔ IsNone place.now.root }
    requires parent { ParentStandsUnder registry.now (option_copied parent) }
    ensures computed { IfOk result (IsComputed registry.now declarations.now (option_copied parent.entry) place.now limit) }
    ensures stand { IfOk result (λ computed. StandUnder registry.now computed.values) }
    ensures range { (property : keys.Key) → result ≡ Err (ElemErr.Range property) → IsOutOfRange registry.now declarations.now (option_copied parent.entry) place.now limit property }
{
    let mut steps: Steps<L> = Steps::new(blank);
    element(
        alloc,
        registry,
        declarations,
        parent,
        place,
        limit,
        &mut steps,
    )
}
