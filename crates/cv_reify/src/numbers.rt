//! Numbers and math functions as they are declared.

ghost use Rattle.std.specs.Prelude.{◌≡◌, true, Ok, IfOk, IfErr};
ghost use Rattle.cv_calc.specs.Linear.{has_type};
ghost use Rattle.cv_calc.specs.Types.{type_of};
ghost use Rattle.cv_calcread.specs.Answer.{answer};
ghost use Rattle.cv_reify.specs.Calculations as calculations;
ghost use Rattle.cv_reify.specs.DeclaredStyle as declared;
ghost use Rattle.cv_reify.specs.Refusal.{IsRefusal};

use crate::error::ReifyErr;
use crate::style::Style;
use cv_calc::{Calc, Unit, unit_named};
use cv_calcread::{CalcErr, read_calc};
use cv_frac::Frac;
use cv_om::Numeric;
use cv_spec_text::{Name, Token, copy_tokens};
use sqlite_items::Items;
use std::alloc::{AllocError, Global};
use std::slice;

/// The calculation of a math function: a number alone is a sum of one item.
#[tactic(auto, unfolding(crate::specs::Calculations::with_items))]
fn with_items(alloc: Global, c: Calc) -> Result<Calc, AllocError>
    ensures { IfOk result (λ d. d ≡ calculations.with_items c) }
{
    match c {
        Calc::Num(value, unit) => {
            let mut items = Items::new(alloc);
            items.push(Calc::Num(value, unit))?;
            Ok(Calc::Sum(items))
        }
        other => Ok(other),
    }
}

/// A calculation that has a type.
#[tactic(auto, using(crate::proofs::Typed::with_items_has_type))]
fn math(alloc: Global, c: Calc) -> Result<Style, AllocError>
    requires { has_type (type_of c) ≡ true }
    ensures { IfOk result (λ s. s ≡ Style.Math (calculations.with_items c)) }
{
    match Numeric::of(with_items(alloc, c)?) {
        Some(numeric) => Ok(Style::Math(numeric)),
        None => unreachable!(),
    }
}

/// The tokens of a list.
pub(crate) fn opaque(alloc: Global, tokens: &[Token]) -> Result<Style, AllocError>
    ensures { IfOk result (λ s. s ≡ Style.Opaque tokens.now) }
{
    Ok(Style::Opaque(Items::from_vec(copy_tokens(alloc, tokens)?)))
}

/// A math function.
#[tactic(auto, using(cv_om::proofs::Answered::answer_has_type))]
fn function(alloc: Global, tokens: &[Token]) -> Result<Style, ReifyErr>
    ensures ok { IfOk result (λ s. declared.function_style tokens.now (answer tokens.now) ≡ Ok s) }
    ensures err { IfErr result (IsRefusal (declared.function_style tokens.now (answer tokens.now))) }
{
    match read_calc(alloc, tokens) {
        Ok(c) => Ok(math(alloc, c)?),
        Err(CalcErr::Range { .. }) => Err(ReifyErr::Range),
        Err(CalcErr::NoCalc) => Ok(opaque(alloc, tokens)?),
        Err(CalcErr::NoType) => Ok(opaque(alloc, tokens)?),
        Err(CalcErr::DivZero(_)) => Ok(opaque(alloc, tokens)?),
        Err(CalcErr::Memory) => Err(ReifyErr::Memory),
    }
}

/// A number of a unit.
#[tactic(auto, unfolding(cv_calcread::specs::Literals::is_in_range, cv_calcread::specs::Literals::exact_number))]
fn measured(spelling: &Name, unit: Unit) -> Result<Style, ReifyErr>
    ensures { result ≡ declared.measured spelling.now unit }
{
    match Frac::read_spelling(spelling) {
        Ok(value) => Ok(Style::Unit(value, unit)),
        Err(_) => Err(ReifyErr::Range),
    }
}

/// One token, where a bare number has this unit.
fn single(alloc: Global, bare: Unit, token: &Token) -> Result<Style, ReifyErr>
    ensures ok { IfOk result (λ s. declared.single_style bare token.now ≡ Ok s) }
    ensures err { IfErr result (IsRefusal (declared.single_style bare token.now)) }
{
    match token {
        Token::Number(n) => measured(n, bare),
        Token::Percentage(n) => measured(n, Unit::Percent),
        Token::Dimension(n, name) => match unit_named(name) {
            Some(unit) => measured(n, unit),
            None => Ok(opaque(alloc, slice::from_ref(token))?),
        },
        _ => function(alloc, slice::from_ref(token)),
    }
}

/// One numeric token or one math function, where a bare number has this unit.
#[tactic(auto, unfolding(crate::specs::DeclaredStyle::numeric_style))]
pub(crate) fn numeric(alloc: Global, bare: Unit, tokens: &[Token]) -> Result<Style, ReifyErr>
    ensures ok { IfOk result (λ s. declared.numeric_style bare tokens.now ≡ Ok s) }
    ensures err { IfErr result (IsRefusal (declared.numeric_style bare tokens.now)) }
{
    match tokens {
        [token] => single(alloc, bare, token),
        _ => function(alloc, tokens),
    }
}
