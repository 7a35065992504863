//! The calculation of one numeric token or one math function.

ghost use Rattle.std.specs.Prelude.{◌≡◌, IfOk, true, encode_utf8_all};
ghost use Rattle.cv_calc.specs.Linear.{is_linear as is_linear_calc};
ghost use Rattle.cv_spec_text.specs.Characters.{hyphen, begins_with};
ghost use Rattle.cv_numeric.specs.Calculations as calculations;

use crate::matched::Matched;
use crate::quantity::{Quantity, Range, clamped, takes, takes_unit};
use cv_calc::{Calc, Context, Unit, is_linear, type_of, unit_named};
use cv_calcread::{CalcErr, read_calc};
use cv_frac::Frac;
use cv_simplify::{SimpErr, simplify};
use cv_spec_text::{Name, Token};
use std::alloc::{AllocError, Global};
use std::slice;

/// The simplified form of a linear calculation, where it is in range.
fn simplified(alloc: Global, c: &Calc, x: &Context) -> Result<Matched<Calc>, AllocError>
    requires { is_linear_calc c.now ≡ true }
    ensures { IfOk result (λ o. o ≡ calculations.simplified x.now c.now) }
{
    match simplify(alloc, c, x) {
        Ok(simple) => Ok(Matched::Fit(simple)),
        Err(SimpErr::Range) => Ok(Matched::Out),
        Err(SimpErr::Memory) => Err(AllocError),
    }
}

/// A spelling in bytes.
pub(crate) fn bytes_of(spelling: &Name) -> &[u8]
    ensures { result.now ≡ encode_utf8_all spelling.now }
{
    spelling.text().as_bytes()
}

/// Whether a number in bytes has a minus.
fn has_minus(text: &[u8]) -> bool
    ensures { result ≡ begins_with hyphen text.now }
{
    matches!(text, [b'-', ..])
}

/// Whether a number is 0.
#[tactic(auto, unfolding(cv_calcread::specs::Literals::is_in_range, cv_calcread::specs::Literals::exact_number))]
pub(crate) fn is_null(spelling: &Name) -> bool
    ensures { result ≡ calculations.is_null spelling.now }
{
    match Frac::read_spelling(spelling) {
        Ok(value) => value.top() == 0,
        Err(_) => false,
    }
}

/// Whether a number is in a range.
fn is_within(range: Range, spelling: &Name) -> bool
    ensures { result ≡ calculations.is_within range spelling.now }
{
    match range {
        Range::All => true,
        Range::NotNegative => !(has_minus(bytes_of(spelling)) && !is_null(spelling)),
    }
}

/// A number of a unit.
#[tactic(auto, using(crate::proofs::Plain::plain_linear), unfolding(cv_calcread::specs::Literals::is_in_range, cv_calcread::specs::Literals::exact_number))]
fn read(
    alloc: Global,
    spelling: &Name,
    unit: Unit,
    x: &Context,
) -> Result<Matched<Calc>, AllocError>
    ensures { IfOk result (λ o. o ≡ calculations.literal x.now spelling.now unit) }
{
    match Frac::read_spelling(spelling) {
        Ok(value) => simplified(alloc, &Calc::Num(value, unit), x),
        Err(_) => Ok(Matched::Out),
    }
}

/// A number of a unit, where the quantity takes it.
fn plain(
    alloc: Global,
    quantity: Quantity,
    range: Range,
    spelling: &Name,
    unit: Unit,
    x: &Context,
) -> Result<Matched<Calc>, AllocError>
    ensures { IfOk result (λ o. o ≡ calculations.plain quantity range x.now spelling.now unit) }
{
    if takes_unit(quantity, unit) && is_within(range, spelling) {
        read(alloc, spelling, unit, x)
    } else {
        Ok(Matched::No)
    }
}

/// A calculation that is one number, clamped.
fn clamped_calc(range: Range, c: Calc) -> Calc
    ensures { result ≡ calculations.clamped_calc range c }
{
    match c {
        Calc::Num(v, u) => Calc::Num(clamped(range, v), u),
        other => other,
    }
}

/// Whether a quantity takes a calculation.
fn takes_calc(quantity: Quantity, c: &Calc) -> bool
    ensures { result ≡ calculations.takes_calc quantity c.now }
{
    match type_of(c) {
        Some(t) => takes(quantity, t) && is_linear(c),
        None => false,
    }
}

/// A calculation that was read, where the quantity takes it.
fn taken(
    alloc: Global,
    quantity: Quantity,
    range: Range,
    c: &Calc,
    x: &Context,
) -> Result<Matched<Calc>, AllocError>
    ensures { IfOk result (λ o. o ≡ calculations.taken quantity range x.now c.now) }
{
    if !takes_calc(quantity, c) {
        return Ok(Matched::No);
    }
    Ok(simplified(alloc, c, x)?.map(|simple| clamped_calc(range, simple)))
}

/// A math function.
fn function(
    alloc: Global,
    quantity: Quantity,
    range: Range,
    tokens: &[Token],
    x: &Context,
) -> Result<Matched<Calc>, AllocError>
    ensures { IfOk result (λ o. o ≡ calculations.function quantity range x.now tokens.now) }
{
    match read_calc(alloc, tokens) {
        Ok(c) => taken(alloc, quantity, range, &c, x),
        Err(CalcErr::Range { kind, linear, .. }) => {
            if takes(quantity, kind) && linear {
                Ok(Matched::Out)
            } else {
                Ok(Matched::No)
            }
        }
        Err(CalcErr::NoCalc) => Ok(Matched::No),
        Err(CalcErr::NoType) => Ok(Matched::No),
        Err(CalcErr::DivZero(_)) => Ok(Matched::No),
        Err(CalcErr::Memory) => Err(AllocError),
    }
}

/// One token.
fn alone(
    alloc: Global,
    quantity: Quantity,
    range: Range,
    token: &Token,
    x: &Context,
) -> Result<Matched<Calc>, AllocError>
    ensures { IfOk result (λ o. o ≡ calculations.alone quantity range x.now token.now) }
{
    match token {
        Token::Number(n) => plain(alloc, quantity, range, n, Unit::Number, x),
        Token::Percentage(n) => plain(alloc, quantity, range, n, Unit::Percent, x),
        Token::Dimension(n, name) => match unit_named(name) {
            Some(unit) => plain(alloc, quantity, range, n, unit, x),
            None => Ok(Matched::No),
        },
        _ => function(alloc, quantity, range, slice::from_ref(token), x),
    }
}

/// The simplified calculation of a list that is one numeric token or one math function.
#[tactic(auto, unfolding(crate::specs::Calculations::calculation))]
pub(crate) fn calculation(
    alloc: Global,
    quantity: Quantity,
    range: Range,
    tokens: &[Token],
    x: &Context,
) -> Result<Matched<Calc>, AllocError>
    ensures { IfOk result (λ o. o ≡ calculations.calculation quantity range x.now tokens.now) }
{
    match tokens {
        [token] => alone(alloc, quantity, range, token, x),
        _ => function(alloc, quantity, range, tokens, x),
    }
}
