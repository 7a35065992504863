//! A walk over the elements that are computed anew.

ghost use Rattle.std.specs.Prelude.{◌≡◌, ◌↔◌, ◌<◌, ◌≤◌, ◌+◌, ℕ, Err, IfErr, IfOk, IfSome, IsNone, OnOk, length};
ghost use Rattle.cv_valuation.specs.declared.key.Key as keys;
ghost use Rattle.cv_tree.specs.Tree as trees;
ghost use Rattle.std.specs.Option.{option_copied};
ghost use Rattle.cv_spec_valuation.specs.Computed.{ParentStandsUnder};
ghost use Rattle.cv_tree.specs.Tree.{AllStand, AreComputed, parent_in};
ghost use Rattle.cv_update.specs.Renewed.{IsRenewable, IsWithin, tree_after, with_fresh};
ghost use Rattle.cv_update.specs.Walking.{IsKept, IsNextOf, IsNextOut, IsReady, Stepped, now_of, place_for, values_now};

use crate::alone::{computed_alone, font_size};
use crate::fresh::Fresh;
use crate::renewal::Renewal;
use cv_doc::Step;
use cv_element::ElemErr;
use cv_props::{Computed, Valuation};
use cv_spec_valuation::Place;
use cv_tree::Stop;
use cv_walk::{WalkErr, walk_from};
use std::alloc::Global;

// A walk over the element with other declarations and its descendants, with what is computed anew of those that were stepped.
#[derive(Drop)]
struct Renewing<'a> {
    alloc: Global,
    renewal: &'a Renewal<'a>,
    fresh: Fresh,
}

impl Step for Renewing<'_> {
    type Stop = Stop;

    ghost ready = { IsReady };

    ghost gives = { Stepped };

    fn step(&mut self, index: u32, parent: Option<u32>) -> Result<(), Stop> {
        match self.computed(index, parent) {
            Ok(computed) => self.keep(index, computed),
            Err(ElemErr::Range(property)) => Err(Stop::Range {
                element: index,
                property,
            }),
            Err(ElemErr::Memory) => Err(Stop::Memory),
        }
    }
}

impl Renewing<'_> {
    // Keeps what is computed of the element with this index.
    fn keep(&mut self, index: u32, computed: Computed) -> Result<(), Stop>
        requires { self.old.fresh.start + length self.old.fresh.all.items ≤ index }
        ensures ok { OnOk result (IsKept self.old index computed self.new) }
        ensures err { IfErr result (λ stop. stop ≡ Stop.Memory) }
    {
        match self.fresh.keep(index, computed) {
            Ok(()) => Ok(()),
            Err(_) => Err(Stop::Memory),
        }
    }

    // Where an element with this parent stands.
    fn place(&self, parent: Option<u32>) -> Place
        requires { IfSome parent (λ above. above < length self.now.renewal.now.all.now) }
        ensures place { result ≡ place_for self.now parent }
        ensures root { IsNone parent ↔ IsNone result.root }
    {
        let root = match parent {
            Some(_) => Some(font_size(self.fresh.values(self.renewal.all, 0))),
            None => None,
        };
        Place {
            width: self.renewal.width,
            height: self.renewal.height,
            root,
        }
    }

    // The values of the parent, none on the root.
    fn above(&self, parent: Option<u32>) -> Option<&Valuation>
        requires earlier { IfSome parent (λ above. above < length self.now.renewal.now.all.now) }
        requires stand { AllStand self.now.renewal.now.registry.now (now_of self.now) }
        ensures values { option_copied result ≡ parent_in (values_now self.now) parent }
        ensures none { IsNone result ↔ IsNone parent }
        ensures stands { ParentStandsUnder self.now.renewal.now.registry.now (option_copied result) }
    {
        match parent {
            Some(parent) => Some(self.fresh.values(self.renewal.all, parent as usize)),
            None => None,
        }
    }

    // What is computed of the element with this index and this parent.
    fn computed(&self, index: u32, parent: Option<u32>) -> Result<Computed, ElemErr>
        requires { IsReady self.now index parent }
        ensures computed { IfOk result (λ computed. IsNextOf self.now index parent computed) }
        ensures range { (property : keys.Key) → result ≡ Err (ElemErr.Range property) → IsNextOut self.now index parent property }
    {
        let declarations = self.renewal.declarations(index);
        let place = self.place(parent);
        let values = self.above(parent);
        computed_alone(
            self.alloc,
            self.renewal.registry,
            declarations,
            values,
            &place,
            self.renewal.limit,
        )
    }
}

/// What is computed anew. Only the element with other declarations and its descendants are computed.
///
/// # Errors
///
/// [`Stop::Range`] for a property of the first element on which one is out of range.
pub(crate) fn fresh_of(alloc: Global, renewal: &Renewal) -> Result<Fresh, Stop>
    requires { IsRenewable renewal.now }
    ensures within { IfOk result (λ fresh. IsWithin fresh renewal.now.all.now) }
    ensures computed { IfOk result (λ fresh. AreComputed (tree_after renewal.now) renewal.now.limit (length renewal.now.elements.now.items) (with_fresh renewal.now.all.now fresh)) }
    ensures stand { IfOk result (λ fresh. AllStand renewal.now.registry.now (with_fresh renewal.now.all.now fresh)) }
    ensures range { (number : ℕ) (property : keys.Key) → result ≡ Err (Stop.Range number property) → trees.IsOutOfRange (tree_after renewal.now) renewal.now.limit number property }
{
    let mut renewing = Renewing {
        alloc,
        renewal,
        fresh: Fresh {
            start: renewal.at,
            all: Vec::new(alloc),
        },
    };
    match walk_from(
        alloc,
        renewal.elements,
        renewal.extents,
        renewal.at,
        &mut renewing,
    ) {
        Ok(()) => Ok(renewing.fresh),
        Err(WalkErr::Stop(stop)) => Err(stop),
        Err(WalkErr::Memory) => Err(Stop::Memory),
    }
}
