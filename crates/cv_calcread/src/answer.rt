//! Reads a math function, or refuses it.

ghost use Rattle.std.specs.Prelude.{◌≡◌, IfOk, IfErr, Ok, Err};
ghost use Rattle.cv_calc.specs.declared.calc.Calc as trees;
ghost use Rattle.cv_calcread.specs.Answer as answers;
ghost use Rattle.cv_calcread.specs.Grammar.{ReadsAs};
ghost use Rattle.cv_calcread.specs.Literals.{exact_number};

use crate::divisors::add_marks;
use crate::error::CalcErr;
use crate::figure::Mark;
use crate::places::{divisor_place, divisor_places, wide_place};
use crate::reading::read_tree;
use cv_calc::{Calc, NumType, is_linear, type_of};
use cv_spec_text::Token;
use std::alloc::Global;

/// The calculation, where no divisor of it is refused.
#[tactic(auto, using(crate::proofs::Refusals::refusals))]
fn divided(alloc: Global, tokens: &[Token], c: Calc, kind: NumType) -> Result<Calc, CalcErr>
    ensures ok { IfOk result (λ d. answers.divided tokens.now c kind ≡ Ok d) }
    ensures err { IfErr result (answers.IsRefusal (answers.divided tokens.now c kind)) }
{
    let mut marks = Vec::new(alloc);
    add_marks(alloc, &c, &mut marks)?;
    let places = divisor_places(alloc, tokens)?;
    match divisor_place(Mark::Far, &marks, &places) {
        Some(place) => Err(CalcErr::Range {
            place,
            kind,
            linear: is_linear(&c),
        }),
        None => match divisor_place(Mark::Null, &marks, &places) {
            Some(place) => Err(CalcErr::DivZero(place)),
            None => Ok(c),
        },
    }
}

/// The calculation of a type, where no number and no divisor of it is refused.
#[tactic(auto, using(crate::proofs::Refusals::refusals))]
fn ranged(alloc: Global, tokens: &[Token], c: Calc, kind: NumType) -> Result<Calc, CalcErr>
    ensures ok { IfOk result (λ d. answers.ranged tokens.now c kind ≡ Ok d) }
    ensures err { IfErr result (answers.IsRefusal (answers.ranged tokens.now c kind)) }
{
    match wide_place(tokens) {
        Some(place) => Err(CalcErr::Range {
            place,
            kind,
            linear: is_linear(&c),
        }),
        None => divided(alloc, tokens, c, kind),
    }
}

/// The tree of a list whose numbers are kept, or the first refusal.
#[tactic(auto, using(crate::proofs::Refusals::refusals))]
fn found(alloc: Global, tokens: &[Token]) -> Result<Calc, CalcErr>
    ensures ok { IfOk result (λ c. answers.found tokens.now ≡ Ok c) }
    ensures err { IfErr result (answers.IsRefusal (answers.found tokens.now)) }
{
    match read_tree(alloc, tokens)? {
        None => Err(CalcErr::NoCalc),
        Some(c) => match type_of(&c) {
            None => Err(CalcErr::NoType),
            Some(kind) => ranged(alloc, tokens, c, kind),
        },
    }
}

/// Reads one math function, as `calc(1px + 2px)`, which is the sum of two lengths (CSS Values and Units 4, "Mathematical Expressions").
/// It is refused for its shape or an unknown unit; then for types that don't fit; then for a number that is out of range, or else for
/// a divisor of numbers alone that meets a fraction out of range; then for such a divisor that is 0. Places count tokens from 0.
pub fn read_calc(alloc: Global, tokens: &[Token]) -> Result<Calc, CalcErr>
    ensures ok { IfOk result (λ c. answers.answer tokens.now ≡ Ok c) }
    ensures err { IfErr result (answers.IsRefusal (answers.answer tokens.now)) }
    ensures tree { IfOk result (λ c. ReadsAs exact_number tokens.now c) }
    ensures no_calc { result ≡ Err CalcErr.NoCalc → (c : trees.Calc) → ReadsAs exact_number tokens.now c → ⊥ }
{
    found(alloc, tokens)
}
