//! The terms of a simplified calculation: its numbers, and the others with their places.

ghost use Rattle.std.specs.Prelude.{◌≡◌, ◌++◌, [], IfOk};
ghost use Rattle.cv_calc.specs.declared.calc.Calc.TheViews.{out-Calc};
ghost use Rattle.cv_simplify.specs.Normal.{numbers_among, others_among, with_number, with_other};
ghost use Rattle.cv_simplify.specs.Simplified.{terms_of};

use crate::reversed::reversed;
use cv_calc::{Calc, Unit};
use cv_frac::Frac;
use sqlite_items::Items;
use std::alloc::{AllocError, Global};

/// The terms of a simplified calculation.
#[derive(Drop)]
pub struct Normal {
    /// Those that are numbers, in their order, each unit once.
    pub terms: Items<(Frac, Unit)>,
    /// The others in their order, each with its place among all terms.
    pub others: Items<(usize, Calc)>,
}

/// A further term at its place.
fn with_term(mut normal: Normal, place: usize, term: Calc) -> Result<Normal, AllocError>
    ensures terms { IfOk result (λ n. n.terms ≡ normal.terms ++ with_number (out-Calc term) []) }
    ensures others { IfOk result (λ n. n.others ≡ normal.others ++ with_other place term (out-Calc term) []) }
{
    match term {
        Calc::Num(v, u) => normal.terms.push((v, u))?,
        other => normal.others.push((place, other))?,
    }
    Ok(normal)
}

/// The numbers among some terms, and the others with their places.
pub(crate) fn parted(alloc: Global, terms: Items<Calc>) -> Result<Normal, AllocError>
    ensures terms { IfOk result (λ n. n.terms ≡ numbers_among terms) }
    ensures others { IfOk result (λ n. n.others ≡ others_among 0 terms) }
{
    let mut normal = Normal {
        terms: Items::new(alloc),
        others: Items::new(alloc),
    };
    let mut rest = reversed(alloc, terms)?;
    let count = rest.len();
    while let Some(term) = rest.pop() {
        normal = with_term(normal, count - 1 - rest.len(), term)?;
    }
    Ok(normal)
}

/// The terms of a calculation: those of a sum are its children, and each other calculation is the only one.
pub(crate) fn terms_alone(alloc: Global, c: Calc) -> Result<Items<Calc>, AllocError>
    ensures { IfOk result (λ terms. terms ≡ terms_of c) }
{
    match c {
        Calc::Sum(children) => Ok(children),
        other => {
            let mut terms = Items::new(alloc);
            terms.push(other)?;
            Ok(terms)
        }
    }
}
