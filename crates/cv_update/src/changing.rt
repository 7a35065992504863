//! What a renewal changes.

ghost use Rattle.std.specs.Prelude.{◌≡◌, ◌+◌, ◌<◌, ◌≤◌, ◌++◌, All, IfOk, IsUtf8, OnOk, length, map};
ghost use Rattle.cv_valuation.specs.Valuations.{MayKeep, outcome_at, outcome_text};
ghost use Rattle.cv_update.specs.Changes.{change_of, changes, changes_on, left_from};
ghost use Rattle.cv_update.specs.Names.{IsNamed, key_of};
ghost use Rattle.cv_update.specs.Renewed.{IsWithin, with_fresh};

use crate::fresh::{Fresh, at_place, computed_at};
use crate::names::{Named, name_of};
use crate::same::are_same;
use cv_props::{Computed, Key, Outcome, outcome_text};
use cv_value_laws::values_may_be_kept;
use cv_watch::Change;
use std::alloc::{AllocError, Global};

// The outcome of a key as the report writes it.
fn text_of(alloc: Global, key: &Key, outcome: &Outcome) -> Result<Vec<u8>, AllocError>
    requires { MayKeep key.now outcome.now }
    ensures text { IfOk result (λ text. text.items ≡ outcome_text outcome.now) }
    ensures utf8 { IfOk result (λ text. IsUtf8 text.items) }
{
    values_may_be_kept();
    let mut text = Vec::new(alloc);
    outcome_text(alloc, outcome, &mut text)?;
    Ok(text)
}

// Adds the change of a property on an element, if its outcome is written otherwise than before. Where the two are seen to be the same
// nothing is printed.
#[tactic(auto, using(crate::proofs::Differences::told_same))]
fn push_change(
    alloc: Global,
    element: u32,
    named: &Named,
    old: &Outcome,
    new: &Outcome,
    all: &mut Vec<Change>,
) -> Result<(), AllocError>
    requires named { IsNamed named.now }
    requires old { MayKeep named.now.key old.now }
    requires new { MayKeep named.now.key new.now }
    ensures { OnOk result (all.new.items ≡ all.old.items ++ change_of element named.now.key old.now new.now) }
{
    if are_same(old, new) {
        return Ok(());
    }
    let before = text_of(alloc, &named.key, old)?;
    let after = text_of(alloc, &named.key, new)?;
    if before == after {
        return Ok(());
    }
    all.push(Change {
        element,
        name: named.text.copy()?,
        old: name_of(alloc, &before)?,
        new: name_of(alloc, &after)?,
    })?;
    Ok(())
}

// Adds the changes on an element, in the order of the names.
fn push_changes(
    alloc: Global,
    names: &[Named],
    element: u32,
    old: &Computed,
    new: &Computed,
    all: &mut Vec<Change>,
) -> Result<(), AllocError>
    requires { All IsNamed names.now }
    ensures { OnOk result (all.new.items ≡ all.old.items ++ changes_on (map key_of names.now) element old.now new.now) }
{
    for named in names {
        let before = old.values.get(&named.key);
        let after = new.values.get(&named.key);
        push_change(alloc, element, named, before, after, all)?;
    }
    Ok(())
}

// Adds the changes on the element at a place of what is computed anew.
#[tactic(auto, using(crate::proofs::Differences::told_new, crate::proofs::Differences::told_old))]
fn push_at(
    alloc: Global,
    names: &[Named],
    old: &[Computed],
    fresh: &Fresh,
    place: usize,
    all: &mut Vec<Change>,
) -> Result<(), AllocError>
    requires names { All IsNamed names.now }
    requires within { IsWithin fresh.now old.now }
    requires few { length old.now ≤ 16384 }
    requires there { place < length fresh.now.all.items }
    ensures { OnOk result (all.new.items ++ left_from (map key_of names.now) old.now fresh.now (fresh.now.start + place + 1) ≡ all.old.items ++ left_from (map key_of names.now) old.now fresh.now (fresh.now.start + place)) }
{
    match at_place(&fresh.all, place) {
        Some(new) => {
            let element = fresh.start + place as u32;
            let before = computed_at(old, element as usize);
            push_changes(alloc, names, element, before, new, all)?;
            Ok(())
        }
        None => Ok(()),
    }
}

/// What changes on the elements that are computed anew, by element and then in the order of the names.
pub(crate) fn changes(
    alloc: Global,
    names: &[Named],
    old: &[Computed],
    fresh: &Fresh,
) -> Result<Vec<Change>, AllocError>
    requires names { All IsNamed names.now }
    requires within { IsWithin fresh.now old.now }
    requires few { length old.now ≤ 16384 }
    ensures { IfOk result (λ all. all.items ≡ changes (map key_of names.now) old.now (with_fresh old.now fresh.now)) }
{
    let mut all = Vec::new(alloc);
    for place in 0..fresh.all.len() {
        push_at(alloc, names, old, fresh, place, &mut all)?;
    }
    Ok(all)
}
