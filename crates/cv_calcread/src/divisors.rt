//! The divisors of a calculation.

ghost use Rattle.std.specs.Prelude.{◌≡◌, ◌++◌, IfOk, fold, map, []};
ghost use Rattle.std.specs.Option.{option_map};
ghost use Rattle.cv_spec_ratio.specs.Ratio.{zero_ratio, one_ratio};
ghost use Rattle.cv_calcread.specs.Figures as figures;

use crate::figure::{Figure, Joining, Mark, inverted, joined, mark_of, negated, unit_figure};
use cv_calc::Calc;
use cv_frac::Frac;
use std::alloc::{AllocError, Global};

/// The figure of a part, and what the divisors in it are, in the order in which they begin.
#[derive(Drop)]
pub struct Evaluation {
    pub figure: Figure,
    pub marks: Vec<Mark>,
}

/// A part without divisors.
fn without(alloc: Global, figure: Figure) -> Evaluation
    ensures value { figures.seen result.figure ≡ figures.seen figure }
    ensures marks { result.marks.items ≡ [] }
{
    Evaluation {
        figure,
        marks: Vec::new(alloc),
    }
}

/// Two parts together.
fn with_part(
    alloc: Global,
    joining: Joining,
    a: Evaluation,
    e: Evaluation,
) -> Result<Evaluation, AllocError>
    ensures { IfOk result (λ r. figures.shown r ≡ figures.with_part joining (figures.shown a) (figures.shown e)) }
{
    let Evaluation { figure, marks } = a;
    let Evaluation {
        figure: other,
        marks: further,
    } = e;
    let mut marks = marks;
    marks.extend_from_slice(&further)?;
    Ok(Evaluation {
        figure: joined(alloc, joining, figure, other)?,
        marks,
    })
}

/// The parts so far, of which one is chosen, and one more.
fn chosen_next(
    alloc: Global,
    joining: Joining,
    found: Option<Evaluation>,
    e: Evaluation,
) -> Result<Option<Evaluation>, AllocError>
    ensures { IfOk result (λ r. option_map figures.shown r ≡ figures.chosen_next joining (option_map figures.shown found) (figures.shown e)) }
{
    match found {
        None => Ok(Some(e)),
        Some(a) => Ok(Some(with_part(alloc, joining, a, e)?)),
    }
}

/// A divisor.
fn divided(alloc: Global, e: Evaluation) -> Result<Evaluation, AllocError>
    ensures { IfOk result (λ r. figures.shown r ≡ figures.divided (figures.shown e)) }
{
    let Evaluation {
        figure,
        marks: within,
    } = e;
    let mut marks = Vec::new(alloc);
    marks.push(mark_of(&figure))?;
    marks.extend_from_slice(&within)?;
    Ok(Evaluation {
        figure: inverted(figure)?,
        marks,
    })
}

/// The negative of a part.
fn opposite(e: Evaluation) -> Evaluation
    ensures { figures.shown result ≡ figures.opposite (figures.shown e) }
{
    let Evaluation { figure, marks } = e;
    Evaluation {
        figure: negated(figure),
        marks,
    }
}

/// Three parts, of which the second is kept between the others.
fn clamped(
    alloc: Global,
    l: Evaluation,
    m: Evaluation,
    h: Evaluation,
) -> Result<Evaluation, AllocError>
    ensures { IfOk result (λ e. figures.shown e ≡ figures.clamped (figures.shown l) (figures.shown m) (figures.shown h)) }
{
    let upper = with_part(alloc, Joining::Least, m, h)?;
    with_part(alloc, Joining::Greatest, l, upper)
}

/// The figure of a calculation, and what the divisors in it are.
#[cycle(evaluate)]
#[tactic(auto, using(crate::proofs::Evaluations::evaluations))]
pub fn evaluate(alloc: Global, c: &Calc) -> Result<Evaluation, AllocError>
    ensures { IfOk result (λ e. figures.shown e ≡ figures.evaluated c.now) }
{
    match c {
        Calc::Num(value, unit) => Ok(without(alloc, unit_figure(*value, *unit))),
        Calc::Sum(children) => sum(alloc, children.as_slice()),
        Calc::Product(children) => product(alloc, children.as_slice()),
        Calc::Negate(child) => Ok(opposite(evaluate(alloc, child.get())?)),
        Calc::Invert(child) => divided(alloc, evaluate(alloc, child.get())?),
        Calc::Min(children) => chosen(alloc, Joining::Least, children.as_slice()),
        Calc::Max(children) => chosen(alloc, Joining::Greatest, children.as_slice()),
        Calc::Clamp(low, middle, high) => {
            let l = evaluate(alloc, low.get())?;
            let m = evaluate(alloc, middle.get())?;
            let h = evaluate(alloc, high.get())?;
            clamped(alloc, l, m, h)
        }
    }
}

/// The parts of a sum.
#[cycle(evaluate)]
#[tactic(auto, unfolding(cv_spec_ratio::specs::Ratio::zero_ratio))]
fn sum(alloc: Global, children: &[Calc]) -> Result<Evaluation, AllocError>
    ensures { IfOk result (λ e. figures.shown e ≡ figures.sum_of (map figures.evaluated children.now)) }
{
    let mut found = without(alloc, Figure::Inside(Frac::whole(0)));
    for child in children {
        found = with_part(alloc, Joining::Add, found, evaluate(alloc, child)?)?;
    }
    Ok(found)
}

/// The parts of a product.
#[cycle(evaluate)]
#[tactic(auto, unfolding(cv_spec_ratio::specs::Ratio::one_ratio))]
fn product(alloc: Global, children: &[Calc]) -> Result<Evaluation, AllocError>
    ensures { IfOk result (λ e. figures.shown e ≡ figures.product_of (map figures.evaluated children.now)) }
{
    let mut found = without(alloc, Figure::Inside(Frac::whole(1)));
    for child in children {
        found = with_part(alloc, Joining::Multiply, found, evaluate(alloc, child)?)?;
    }
    Ok(found)
}

/// The parts of which one is chosen.
#[cycle(evaluate)]
fn chosen(alloc: Global, joining: Joining, children: &[Calc]) -> Result<Evaluation, AllocError>
    ensures { IfOk result (λ e. figures.shown e ≡ figures.chosen_of joining (map figures.evaluated children.now)) }
{
    let mut found = None;
    for child in children {
        found = chosen_next(alloc, joining, found, evaluate(alloc, child)?)?;
    }
    match found {
        None => Ok(without(alloc, Figure::Undefined)),
        Some(e) => Ok(e),
    }
}

/// What the divisors of a calculation are, behind others. Numbers are looked at below a division alone.
#[cycle(marks)]
#[tactic(auto, using(crate::proofs::Marks::marks))]
pub fn add_marks(alloc: Global, c: &Calc, marks: &mut Vec<Mark>) -> Result<(), AllocError>
    ensures { IfOk result (λ _. marks.new.items ≡ figures.with_marks marks.old.items (figures.evaluated c.now)) }
{
    match c {
        Calc::Num(_, _) => Ok(()),
        Calc::Sum(children) => {
            add_all(alloc, children.as_slice(), marks)?;
            Ok(())
        }
        Calc::Product(children) => {
            add_all(alloc, children.as_slice(), marks)?;
            Ok(())
        }
        Calc::Negate(child) => {
            add_marks(alloc, child.get(), marks)?;
            Ok(())
        }
        Calc::Invert(child) => {
            add_divisor(evaluate(alloc, child.get())?, marks)?;
            Ok(())
        }
        Calc::Min(children) => {
            add_all(alloc, children.as_slice(), marks)?;
            Ok(())
        }
        Calc::Max(children) => {
            add_all(alloc, children.as_slice(), marks)?;
            Ok(())
        }
        Calc::Clamp(low, middle, high) => {
            add_marks(alloc, low.get(), marks)?;
            add_marks(alloc, middle.get(), marks)?;
            add_marks(alloc, high.get(), marks)?;
            Ok(())
        }
    }
}

/// What the divisors of some calculations are, behind others.
#[cycle(marks)]
fn add_all(alloc: Global, children: &[Calc], marks: &mut Vec<Mark>) -> Result<(), AllocError>
    ensures { IfOk result (λ _. marks.new.items ≡ fold figures.with_marks marks.old.items (map figures.evaluated children.now)) }
{
    for child in children {
        add_marks(alloc, child, marks)?;
    }
    Ok(())
}

/// What a divisor is, and the divisors in it, behind others.
fn add_divisor(divisor: Evaluation, marks: &mut Vec<Mark>) -> Result<(), AllocError>
    ensures { IfOk result (λ _. marks.new.items ≡ figures.with_marks marks.old.items (figures.divided (figures.shown divisor))) }
{
    marks.push(mark_of(&divisor.figure))?;
    marks.extend_from_slice(&divisor.marks)?;
    Ok(())
}
