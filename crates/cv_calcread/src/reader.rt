//! One step of a reader of calculations.

ghost use Rattle.std.specs.Prelude.{◌≡◌, [], ◌∷◌, ◌++◌, IfOk};
ghost use Rattle.cv_calc.specs.declared.calc.Calc.TheVariants as tree;
ghost use Rattle.cv_calcread.specs.Literals.{kept as kept_value};
ghost use Rattle.cv_calcread.specs.Reading.{one_or, signed as signed_value, terms_of as terms_in, arguments_of as arguments_in, made as made_value, takes_comma as may_part, opened_by as opening_of, fresh as fresh_level, popped, with_value as value_stage, given as given_stage, closed as closed_stage, entered as entered_stage, begun as begun_stage, gapped as gapped_stage, with_sign as sign_stage, operated as operated_stage, parted as parted_stage, passed as passed_stage, step as step_stage};

use crate::level::{Level, Opened, Phase, Stage};
use crate::literal::kept;
use cv_calc::{Calc, Unit, unit_named};
use cv_spec_text::{Bracket, Name, Token};
use sqlite_items::{Boxed, Items};
use std::alloc::{AllocError, Global};

/// The product of the factors, or the only one.
#[tactic(auto, using(crate::proofs::Single::singles))]
fn product_of(factors: Items<Calc>) -> Calc
    ensures { result ≡ one_or tree.Product factors }
{
    if factors.len() == 1 {
        let mut factors = factors;
        factors.remove(0)
    } else {
        Calc::Product(factors)
    }
}

/// The sum of the terms, or the only one.
#[tactic(auto, using(crate::proofs::Single::singles))]
fn sum_of(terms: Items<Calc>) -> Calc
    ensures { result ≡ one_or tree.Sum terms }
{
    if terms.len() == 1 {
        let mut terms = terms;
        terms.remove(0)
    } else {
        Calc::Sum(terms)
    }
}

fn signed(alloc: Global, minus: bool, term: Calc) -> Result<Calc, AllocError>
    ensures { IfOk result (λ c. c ≡ signed_value minus term) }
{
    if minus {
        Ok(Calc::Negate(Boxed::new(alloc, term)?))
    } else {
        Ok(term)
    }
}

/// The terms of a level.
fn terms_of(
    alloc: Global,
    terms: Items<Calc>,
    minus: bool,
    factors: Items<Calc>,
) -> Result<Items<Calc>, AllocError>
    ensures { IfOk result (λ cs. cs ≡ terms ++ signed_value minus (one_or tree.Product factors) ∷ []) }
{
    let mut terms = terms;
    terms.push(signed(alloc, minus, product_of(factors))?)?;
    Ok(terms)
}

/// The arguments of a level.
fn arguments_of(alloc: Global, level: Level) -> Result<Items<Calc>, AllocError>
    ensures { IfOk result (λ cs. cs ≡ arguments_in level) }
{
    let Level {
        opened: _,
        arguments,
        terms,
        minus,
        factors,
        divides: _,
    } = level;
    let mut arguments = arguments;
    arguments.push(sum_of(terms_of(alloc, terms, minus, factors)?))?;
    Ok(arguments)
}

/// A level in which nothing is read yet but these arguments.
fn fresh(alloc: Global, opened: Opened, arguments: Items<Calc>) -> Level
    ensures { result ≡ fresh_level opened arguments }
{
    Level {
        opened,
        arguments,
        terms: Items::new(alloc),
        minus: false,
        factors: Items::new(alloc),
        divides: false,
    }
}

/// The three of three arguments.
#[tactic(auto, using(crate::proofs::Single::singles))]
fn clamp_of(alloc: Global, arguments: Items<Calc>) -> Result<Option<Calc>, AllocError>
    ensures { IfOk result (λ o. o ≡ made_value Opened.Clamp arguments) }
{
    if arguments.len() == 3 {
        let mut arguments = arguments;
        let low = arguments.remove(0);
        let middle = arguments.remove(0);
        let high = arguments.remove(0);
        Ok(Some(Calc::Clamp(
            Boxed::new(alloc, low)?,
            Boxed::new(alloc, middle)?,
            Boxed::new(alloc, high)?,
        )))
    } else {
        Ok(None)
    }
}

/// The only argument.
#[tactic(auto, using(crate::proofs::Single::singles))]
fn only_of(arguments: Items<Calc>) -> Option<Calc>
    ensures { result ≡ made_value Opened.Calc arguments }
{
    if arguments.len() == 1 {
        let mut arguments = arguments;
        Some(arguments.remove(0))
    } else {
        None
    }
}

/// What the arguments make.
#[tactic(auto, using(crate::proofs::Single::singles))]
fn made(alloc: Global, opened: Opened, arguments: Items<Calc>) -> Result<Option<Calc>, AllocError>
    ensures { IfOk result (λ o. o ≡ made_value opened arguments) }
{
    match opened {
        Opened::Min => Ok(Some(Calc::Min(arguments))),
        Opened::Max => Ok(Some(Calc::Max(arguments))),
        Opened::Clamp => clamp_of(alloc, arguments),
        Opened::Round => Ok(only_of(arguments)),
        Opened::Calc => Ok(only_of(arguments)),
    }
}

fn takes_comma(opened: Opened) -> bool
    ensures { result ≡ may_part opened }
{
    match opened {
        Opened::Round => false,
        Opened::Calc => false,
        _ => true,
    }
}

/// The function of a name.
pub fn opened_by(name: &Name) -> Option<Opened>
    ensures { result ≡ opening_of name.now }
{
    if name.is_word("calc") {
        Some(Opened::Calc)
    } else if name.is_word("min") {
        Some(Opened::Min)
    } else if name.is_word("max") {
        Some(Opened::Max)
    } else if name.is_word("clamp") {
        Some(Opened::Clamp)
    } else {
        None
    }
}

fn with_value(
    alloc: Global,
    value: Calc,
    below: Items<Level>,
    level: Level,
) -> Result<Stage, AllocError>
    ensures { IfOk result (λ s. s ≡ value_stage value below level) }
{
    let mut level = level;
    if level.divides {
        level.factors.push(Calc::Invert(Boxed::new(alloc, value)?))?;
    } else {
        level.factors.push(value)?;
    }
    level.divides = false;
    Ok(Stage::Within(below, level, Phase::After))
}

/// Gives a value to the last level, or ends with it.
#[tactic(auto, using(crate::proofs::Single::tops))]
fn given(alloc: Global, value: Calc, below: Items<Level>) -> Result<Stage, AllocError>
    ensures { IfOk result (λ s. s ≡ given_stage value (popped below)) }
{
    let mut below = below;
    match below.pop() {
        None => Ok(Stage::Done(value)),
        Some(level) => with_value(alloc, value, below, level),
    }
}

fn closed(alloc: Global, below: Items<Level>, level: Level) -> Result<Stage, AllocError>
    ensures { IfOk result (λ s. s ≡ closed_stage below level) }
{
    let opened = level.opened;
    match made(alloc, opened, arguments_of(alloc, level)?)? {
        None => Ok(Stage::Fault),
        Some(value) => given(alloc, value, below),
    }
}

fn entered(
    alloc: Global,
    opened: Option<Opened>,
    below: Items<Level>,
    level: Level,
) -> Result<Stage, AllocError>
    ensures { IfOk result (λ s. s ≡ entered_stage opened below level) }
{
    match opened {
        None => Ok(Stage::Fault),
        Some(opened) => {
            let mut below = below;
            below.push(level)?;
            Ok(Stage::Within(below, fresh(alloc, opened, Items::new(alloc)), Phase::Value))
        }
    }
}

fn begun(
    alloc: Global,
    token: &Token,
    below: Items<Level>,
    level: Level,
) -> Result<Stage, AllocError>
    ensures { IfOk result (λ s. s ≡ begun_stage kept_value token.now below level) }
{
    match token {
        Token::White => Ok(Stage::Within(below, level, Phase::Value)),
        Token::Number(number) => with_value(
            alloc,
            Calc::Num(kept(number), Unit::Number),
            below,
            level,
        ),
        Token::Percentage(number) => with_value(
            alloc,
            Calc::Num(kept(number), Unit::Percent),
            below,
            level,
        ),
        Token::Dimension(number, name) => match unit_named(name) {
            None => Ok(Stage::Fault),
            Some(unit) => with_value(alloc, Calc::Num(kept(number), unit), below, level),
        },
        Token::Open(Bracket::Round) => entered(alloc, Some(Opened::Round), below, level),
        Token::Function(name) => entered(alloc, opened_by(name), below, level),
        _ => Ok(Stage::Fault),
    }
}

fn gapped(token: &Token, below: Items<Level>, level: Level) -> Stage
    ensures { result ≡ gapped_stage token.now below level }
{
    match token {
        Token::White => Stage::Within(below, level, Phase::Value),
        _ => Stage::Fault,
    }
}

fn with_sign(
    alloc: Global,
    minus: bool,
    below: Items<Level>,
    level: Level,
) -> Result<Stage, AllocError>
    ensures { IfOk result (λ s. s ≡ sign_stage minus below level) }
{
    let Level {
        opened,
        arguments,
        terms,
        minus: before,
        factors,
        divides: _,
    } = level;
    let level = Level {
        opened,
        arguments,
        terms: terms_of(alloc, terms, before, factors)?,
        minus,
        factors: Items::new(alloc),
        divides: false,
    };
    Ok(Stage::Within(below, level, Phase::Gap))
}

fn operated(
    alloc: Global,
    spaced: bool,
    sign: char,
    below: Items<Level>,
    level: Level,
) -> Result<Stage, AllocError>
    ensures { IfOk result (λ s. s ≡ operated_stage spaced sign below level) }
{
    let mut level = level;
    if sign == '*' {
        level.divides = false;
        Ok(Stage::Within(below, level, Phase::Value))
    } else if sign == '/' {
        level.divides = true;
        Ok(Stage::Within(below, level, Phase::Value))
    } else if spaced && sign == '+' {
        with_sign(alloc, false, below, level)
    } else if spaced && sign == '-' {
        with_sign(alloc, true, below, level)
    } else {
        Ok(Stage::Fault)
    }
}

fn parted(alloc: Global, below: Items<Level>, level: Level) -> Result<Stage, AllocError>
    ensures { IfOk result (λ s. s ≡ parted_stage below level) }
{
    let opened = level.opened;
    if takes_comma(opened) {
        let arguments = arguments_of(alloc, level)?;
        Ok(Stage::Within(below, fresh(alloc, opened, arguments), Phase::Value))
    } else {
        Ok(Stage::Fault)
    }
}

fn passed(
    alloc: Global,
    spaced: bool,
    token: &Token,
    below: Items<Level>,
    level: Level,
) -> Result<Stage, AllocError>
    ensures { IfOk result (λ s. s ≡ passed_stage spaced token.now below level) }
{
    match token {
        Token::White => Ok(Stage::Within(below, level, Phase::Spaced)),
        Token::Delim(sign) => operated(alloc, spaced, *sign, below, level),
        Token::Comma => parted(alloc, below, level),
        Token::Close(Bracket::Round) => closed(alloc, below, level),
        _ => Ok(Stage::Fault),
    }
}

/// The next stage.
pub fn step(alloc: Global, stage: Stage, token: &Token) -> Result<Stage, AllocError>
    ensures { IfOk result (λ s. s ≡ step_stage kept_value stage token.now) }
{
    match stage {
        Stage::Within(below, level, phase) => match phase {
            Phase::Value => begun(alloc, token, below, level),
            Phase::Gap => Ok(gapped(token, below, level)),
            Phase::After => passed(alloc, false, token, below, level),
            Phase::Spaced => passed(alloc, true, token, below, level),
        },
        Stage::Done(_) => Ok(Stage::Fault),
        Stage::Fault => Ok(Stage::Fault),
    }
}
