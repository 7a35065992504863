//! Rows of outcomes, which their copies share.

ghost use Rattle.std.specs.Prelude.{◌≡◌, ◌≤◌, ◌<◌, ◌==◌, if◌then◌else◌, ℕ, [], length, slice_get, IfOk, OnErr, OnOk};
ghost use Rattle.std.specs.Option.{option_copied};
ghost use Rattle.cv_valuation.specs.Rows.{in_row};

use crate::outcome::Outcome;
use std::alloc::{AllocError, Global};
use std::marker::Model;
use std::rc::Rc;

/// Outcomes by place. Contracts see their list. `None` is the empty one.
#[derive(Drop)]
pub(crate) struct Row {
    shared: Option<Rc<Vec<Outcome>>>,
}

impl Model for Row {
    ghost use Rattle.std.specs.Prelude.{List, [], option_map, unwrap_or};
    ghost use Rattle.cv_valuation.specs.declared.outcome.Outcome.{Outcome};

    ghost Value = { List Outcome };

    ghost use Rattle.std.specs.Coded.{coded_list};
    ghost use Rattle.cv_valuation.specs.contracts.outcome.Outcome as of_outcome;

    ghost coded = { coded_list of_outcome.the_row.coded };

    ghost view = { λ row. unwrap_or (option_map (λ outcomes. outcomes.value.items) row.shared) [] };
}

impl Row {
    /// No outcome.
    pub(crate) fn new() -> Self
        ensures { result ≡ [] }
    {
        Row { shared: None }
    }

    /// The outcome at the place, if the row is that long.
    pub(crate) fn get(&self, place: usize) -> Option<&Outcome>
        ensures { option_copied result ≡ slice_get self.now place }
    {
        match &self.shared {
            Some(row) => row.as_ref().as_slice().get(place),
            None => None,
        }
    }

    /// A row that shares this one's outcomes.
    pub(crate) fn share(&self) -> Result<Self, AllocError>
        ensures { IfOk result (λ row. row ≡ self.now) }
    {
        match &self.shared {
            Some(row) => Ok(Row {
                shared: Some(row.clone()?),
            }),
            None => Ok(Row { shared: None }),
        }
    }

    // A copy of the outcomes.
    fn opened(&self, alloc: Global) -> Result<Vec<Outcome>, AllocError>
        ensures { IfOk result (λ all. all.items ≡ self.now) }
    {
        match &self.shared {
            Some(row) => copied(alloc, row.as_ref().as_slice()),
            None => Ok(Vec::new(alloc)),
        }
    }

    /// Gives the place this outcome, and leaves every other as it was. Outcomes that no other row shares are changed in place.
    pub(crate) fn put(
        &mut self,
        alloc: Global,
        place: usize,
        outcome: Outcome,
    ) -> Result<(), AllocError>
        requires { place < 35 }
        ensures ok { OnOk result ((q : ℕ) → in_row self.new q ≡ (if q == place then outcome else in_row self.old q)) }
        ensures err { OnErr result ((q : ℕ) → in_row self.new q ≡ in_row self.old q) }
    {
        if let Some(shared) = &mut self.shared {
            if let Some(all) = Rc::get_mut(shared) {
                return set(all, place, outcome);
            }
        }
        let mut all = self.opened(alloc)?;
        set(&mut all, place, outcome)?;
        self.shared = Some(Rc::new(alloc, all)?);
        Ok(())
    }
}

// Gives the place this outcome, and leaves every other as it was.
fn set(all: &mut Vec<Outcome>, place: usize, outcome: Outcome) -> Result<(), AllocError>
    requires { place < 35 }
    ensures ok { OnOk result ((q : ℕ) → in_row all.new.items q ≡ (if q == place then outcome else in_row all.old.items q)) }
    ensures err { OnErr result ((q : ℕ) → in_row all.new.items q ≡ in_row all.old.items q) }
{
    pad(all, place + 1)?;
    all[place] = outcome;
    Ok(())
}

// A copy of the outcomes.
fn copied(alloc: Global, row: &[Outcome]) -> Result<Vec<Outcome>, AllocError>
    ensures { IfOk result (λ all. all.items ≡ row.now) }
{
    let mut all = Vec::new(alloc);
    for outcome in row {
        all.push(outcome.copy(alloc)?)?;
    }
    Ok(all)
}

// Makes the row this long, where it is shorter.
fn pad(all: &mut Vec<Outcome>, size: usize) -> Result<(), AllocError>
    ensures same { (place : ℕ) → in_row all.new.items place ≡ in_row all.old.items place }
    ensures long { OnOk result (size ≤ length all.new.items) }
{
    for _ in all.len()..size {
        all.push(Outcome::Invalid)?;
    }
    Ok(())
}
