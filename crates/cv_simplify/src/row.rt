//! Rows of children, in which numbers of one unit are joined.

ghost use Rattle.std.specs.Prelude.{◌≡◌, ◌<◌, ◌∷◌, ◌++◌, [], length, slice_set, IfOk, OnOk};
ghost use Rattle.cv_calc.specs.declared.calc.Calc.TheViews.{out-Calc};
ghost use Rattle.cv_simplify.specs.Firsts.{unit_as};
ghost use Rattle.cv_simplify.specs.Checked.{with_term as row_with_term, with_terms as row_with_terms, with_simple as row_with_simple};

use crate::joining::{Joined, Joining, join};
use crate::rank::{LAST_RANK, unit_rank};
use crate::reversed::reversed;
use cv_calc::{Calc, Unit};
use sqlite_items::Items;
use std::alloc::{AllocError, Global};
use std::marker::Model;

/// Where a term goes in a row: to its end, or to a place with the number that it becomes there; or this is out of bounds.
#[derive(Drop)]
pub(crate) enum Spot {
    End,
    At(usize, Calc),
    Outside,
}

/// The unit of a number.
fn unit_of(term: &Calc) -> Option<Unit>
    ensures { result ≡ unit_as (out-Calc term.now) }
{
    match term {
        Calc::Num(_, unit) => Some(*unit),
        _ => None,
    }
}

/// A row of terms, and by the rank of each unit the place of its first number, so that this is found at once in a row of any length.
/// The places stand on the heap, since a row lives in the frame of each call on the way down a tree.
#[derive(Drop)]
pub(crate) struct Row {
    terms: Items<Calc>,
    firsts: Items<Option<usize>>,
}

impl Model for Row {
    ghost use Rattle.std.specs.Prelude.{List};
    ghost use Rattle.std.specs.Coded.{coded_list};
    ghost use Rattle.cv_calc.specs.declared.calc.Calc.{Calc};
    ghost use Rattle.cv_calc.specs.contracts.calc.Calc as calculations;
    ghost use Rattle.cv_simplify.specs.Firsts.{HoldsFirsts};

    ghost Value = { List Calc };

    ghost coded = { coded_list calculations.the_row.coded };

    ghost view = { λ r. r.terms };

    ghost invariant = { λ r. HoldsFirsts r.terms r.firsts };
}

impl Row {
    ghost use Rattle.cv_simplify.specs.Firsts.{KeepsFirsts, first_in};
    ghost use Rattle.cv_simplify.specs.Row.{IsSpotOf};

    /// No terms.
    pub(crate) fn new(alloc: Global) -> Result<Row, AllocError>
        ensures { IfOk result (λ row. row ≡ []) }
    {
        Ok(Row {
            terms: Items::new(alloc),
            firsts: Items::from_slice(alloc, &[None; LAST_RANK as usize])?,
        })
    }

    /// The terms alone.
    pub(crate) fn into_terms(self) -> Items<Calc>
        ensures { result ≡ self }
    {
        let Row { terms, firsts: _ } = self;
        terms
    }

    /// Adds a term at the end.
    fn push(&mut self, term: Calc) -> Result<(), AllocError>
        ensures { OnOk result (self.new ≡ self.old ++ term ∷ []) }
    {
        let last = self.terms.len();
        let unit = unit_of(&term);
        self.terms.push(term)?;
        if let Some(unit) = unit {
            let rank = unit_rank(unit) as usize;
            if self.firsts.as_slice()[rank].is_none() {
                self.firsts.set(rank, Some(last));
            }
        }
        Ok(())
    }

    /// Puts a number in the place of another of its unit.
    fn set(&mut self, at: usize, number: Calc)
        requires within { at < length self.old }
        requires same { KeepsFirsts self.old (slice_set self.old at number) }
        ensures { self.new ≡ slice_set self.old at number }
    {
        self.terms.set(at, number);
    }

    /// The place of the first number of a unit.
    fn first_of(&self, unit: Unit) -> Option<usize>
        ensures { result ≡ first_in unit self.now }
    {
        self.firsts.as_slice()[unit_rank(unit) as usize]
    }

    /// The first place at which a term can be joined: that of the first number of its unit, or none.
    fn spot_of(&self, how: Joining, term: &Calc) -> Spot
        ensures { IsSpotOf how self.now term.now result }
    {
        match unit_of(term) {
            Some(unit) => match self.first_of(unit) {
                Some(at) => match join(how, &self.terms.as_slice()[at], term) {
                    Joined::One(number) => Spot::At(at, number),
                    Joined::Outside => Spot::Outside,
                    Joined::Apart => Spot::End,
                },
                None => Spot::End,
            },
            None => Spot::End,
        }
    }
}

/// Joins a term to the first with which it can be, or puts it at the end; `None` where the number is out of bounds.
fn with_term(how: Joining, mut row: Row, term: Calc) -> Result<Option<Row>, AllocError>
    ensures { IfOk result (λ o. o ≡ row_with_term how row term) }
{
    match row.spot_of(how, &term) {
        Spot::End => {
            row.push(term)?;
            Ok(Some(row))
        }
        Spot::At(at, number) => {
            row.set(at, number);
            Ok(Some(row))
        }
        Spot::Outside => Ok(None),
    }
}

/// Joins some terms of a sum.
fn with_terms(alloc: Global, mut row: Row, terms: Items<Calc>) -> Result<Option<Row>, AllocError>
    ensures { IfOk result (λ o. o ≡ row_with_terms row terms) }
{
    let mut rest = reversed(alloc, terms)?;
    while let Some(term) = rest.pop() {
        match with_term(Joining::Sum, row, term)? {
            Some(next) => row = next,
            None => return Ok(None),
        }
    }
    Ok(Some(row))
}

/// Joins a simplified child, of which a sum takes the terms.
pub(crate) fn with_simple(
    alloc: Global,
    how: Joining,
    row: Row,
    child: Calc,
) -> Result<Option<Row>, AllocError>
    ensures { IfOk result (λ o. o ≡ row_with_simple how row child) }
{
    match how {
        Joining::Sum => match child {
            Calc::Sum(terms) => with_terms(alloc, row, terms),
            term => with_term(how, row, term),
        },
        Joining::Least(_) => with_term(how, row, child),
        Joining::Greatest(_) => with_term(how, row, child),
    }
}
