//! What is computed anew.

ghost use Rattle.std.specs.Prelude.{◌≡◌, ◌≤◌, ◌+◌, ◌-◌, ◌<◌, ◌++◌, ◌∷◌, [], Some, OnOk, length, slice_get, slice_set};
ghost use Rattle.std.specs.Option.{option_copied};
ghost use Rattle.cv_tree.specs.Tree.{values_in};
ghost use Rattle.cv_update.specs.Fresh.{fresh_at, nothing, put_one};
ghost use Rattle.cv_update.specs.Renewed.{IsWithin, put_from, with_fresh};

use cv_props::{Computed, Valuation};
use std::alloc::AllocError;

/// What is computed anew: of each element from the one with this index on, as far as the list goes, what is computed of it now, or nothing
/// where that is what was computed of it.
#[derive(Drop)]
pub struct Fresh {
    pub start: u32,
    pub all: Vec<Option<Computed>>,
}

/// What the list has at this place.
pub(crate) fn at_place(all: &[Option<Computed>], place: usize) -> Option<&Computed>
    ensures { option_copied result ≡ fresh_at all.now place }
{
    match all.get(place) {
        Some(computed) => computed.as_ref(),
        None => None,
    }
}

// Adds nothing up to this place.
fn fill(all: &mut Vec<Option<Computed>>, place: usize) -> Result<(), AllocError>
    requires { length all.old.items ≤ place }
    ensures { OnOk result (all.new.items ≡ all.old.items ++ nothing (place - length all.old.items)) }
{
    while all.len() < place {
        all.push(None)?;
    }
    Ok(())
}

/// What was computed of an element.
pub(crate) fn computed_at(old: &[Computed], index: usize) -> &Computed
    requires { index < length old.now }
    ensures { slice_get old.now index ≡ Some result.now }
{
    &old[index]
}

// The values of that.
fn old_values(old: &[Computed], index: usize) -> &Valuation
    requires { index < length old.now }
    ensures { slice_get (values_in old.now) index ≡ Some result.now }
{
    &old[index].values
}

impl Fresh {
    /// The values of an element, where those of the old list aren't computed anew.
    #[tactic(auto, using(crate::proofs::Putting::values_front, crate::proofs::Putting::values_old, crate::proofs::Putting::values_new))]
    pub(crate) fn values<'a>(&'a self, old: &'a [Computed], index: usize) -> &'a Valuation
        requires { index < length old.now }
        ensures { slice_get (values_in (with_fresh old.now self.now)) index ≡ Some result.now }
    {
        let start = self.start as usize;
        if index < start {
            return old_values(old, index);
        }
        match at_place(&self.all, index - start) {
            Some(computed) => &computed.values,
            None => old_values(old, index),
        }
    }

    /// Keeps what is computed anew of the element with this index.
    pub(crate) fn keep(&mut self, index: u32, computed: Computed) -> Result<(), AllocError>
        requires { self.old.start + length self.old.all.items ≤ index }
        ensures start { self.new.start ≡ self.old.start }
        ensures all { OnOk result (self.new.all.items ≡ self.old.all.items ++ nothing (index - self.old.start - length self.old.all.items) ++ Some computed ∷ []) }
    {
        fill(&mut self.all, (index - self.start) as usize)?;
        self.all.push(Some(computed))?;
        Ok(())
    }
}

/// Puts what is computed anew in the place of what was computed.
pub fn put_fresh(all: &mut [Computed], fresh: Fresh)
    requires { IsWithin fresh all.old }
    ensures { all.new ≡ with_fresh all.old fresh }
{
    put_all(all, fresh.start as usize, fresh.all)
}

fn put_one(all: &mut [Computed], place: usize, next: Option<Computed>)
    requires { place < length all.old }
    ensures { all.new ≡ put_one all.old place next }
{
    if let Some(computed) = next {
        all[place] = computed;
    }
}

fn put_all(all: &mut [Computed], start: usize, fresh: Vec<Option<Computed>>)
    requires { start + length fresh.items ≤ length all.old }
    ensures { all.new ≡ put_from all.old start fresh.items }
{
    let mut place = start;
    for next in fresh {
        put_one(all, place, next);
        place += 1;
    }
}
