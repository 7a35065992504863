//! The text of a calculation, as tokens.

ghost use Rattle.std.specs.Prelude.{◌≡◌, ◌++◌, IfOk, map, All, codes};
ghost use Rattle.cv_spec_text.specs.Splits.{IsSpelt};
ghost use Rattle.cv_tokser.specs.Clean.{IsClean};
ghost use Rattle.cv_simplify.specs.Text.{written, with_ranked, line_of, arguments_of, call, calc_text};

use crate::place::{
    Place, write_call_start, write_end, write_inverse_end, write_inverse_start, write_negative_end,
    write_negative_start, write_placed, write_start,
};
use crate::rank::{LAST_RANK, RANKS, unit_rank};
use crate::tokens::{write_alone, write_closing, write_function};
use cv_calc::Calc;
use cv_spec_text::Token;
use std::alloc::{AllocError, Global};

/// The place of a calculation among its siblings.
#[tactic(auto, using(crate::proofs::Texts::written_equations))]
fn rank(c: &Calc) -> u32
    ensures { result ≡ (written c.now).rank }
{
    match c {
        Calc::Num(_, unit) => unit_rank(*unit),
        Calc::Sum(_) => LAST_RANK,
        Calc::Product(_) => LAST_RANK,
        Calc::Negate(_) => LAST_RANK,
        Calc::Invert(_) => LAST_RANK,
        Calc::Min(_) => LAST_RANK,
        Calc::Max(_) => LAST_RANK,
        Calc::Clamp(_, _, _) => LAST_RANK,
    }
}

/// Writes a calculation at a place.
#[cycle(text)]
#[tactic(auto, using(crate::proofs::Appends::texts))]
fn write_part(alloc: Global, place: Place, c: &Calc, out: &mut Vec<Token>) -> Result<(), AllocError>
    ensures { IfOk result (λ _. out.new.items ≡ out.old.items ++ (written c.now).at_place place) }
{
    match c {
        Calc::Num(v, unit) => {
            write_placed(alloc, place, *v, *unit, out)?;
            Ok(())
        }
        Calc::Sum(children) => {
            write_start(place, out)?;
            write_line(alloc, Place::Added, children.as_slice(), out)?;
            write_end(place, out)?;
            Ok(())
        }
        Calc::Product(children) => {
            write_start(place, out)?;
            write_line(alloc, Place::Multiplied, children.as_slice(), out)?;
            write_end(place, out)?;
            Ok(())
        }
        Calc::Negate(child) => {
            write_negative_start(alloc, place, out)?;
            write_part(alloc, Place::Operand, child.get(), out)?;
            write_negative_end(place, out)?;
            Ok(())
        }
        Calc::Invert(child) => {
            write_inverse_start(alloc, place, out)?;
            write_part(alloc, Place::Operand, child.get(), out)?;
            write_inverse_end(place, out)?;
            Ok(())
        }
        Calc::Min(children) => {
            write_call_start(alloc, place, b"min", out)?;
            write_arguments(alloc, children.as_slice(), out)?;
            write_closing(true, out)?;
            Ok(())
        }
        Calc::Max(children) => {
            write_call_start(alloc, place, b"max", out)?;
            write_arguments(alloc, children.as_slice(), out)?;
            write_closing(true, out)?;
            Ok(())
        }
        Calc::Clamp(low, middle, high) => {
            write_call_start(alloc, place, b"clamp", out)?;
            write_part(alloc, Place::Whole, low.get(), out)?;
            write_part(alloc, Place::Argument, middle.get(), out)?;
            write_part(alloc, Place::Argument, high.get(), out)?;
            write_closing(true, out)?;
            Ok(())
        }
    }
}

/// Writes the children of a rank behind those that are written already, and tells whether there is one now.
#[cycle(text)]
fn write_ranked(
    alloc: Global,
    further: Place,
    rank_now: u32,
    children: &[Calc],
    started: bool,
    out: &mut Vec<Token>,
) -> Result<bool, AllocError>
    ensures { IfOk result (λ now. record { line = out.new.items; started = now } ≡ with_ranked further (map written children.now) (record { line = out.old.items; started = started }) rank_now) }
{
    let mut started = started;
    for child in children {
        if rank(child) != rank_now {
            continue;
        }
        let place = if started { further } else { Place::Operand };
        write_part(alloc, place, child, out)?;
        started = true;
    }
    Ok(started)
}

/// Writes the children of a sum or product, rank after rank.
#[cycle(text)]
#[tactic(auto, using(crate::proofs::Texts::ranks))]
fn write_line(
    alloc: Global,
    further: Place,
    children: &[Calc],
    out: &mut Vec<Token>,
) -> Result<(), AllocError>
    ensures { IfOk result (λ _. out.new.items ≡ out.old.items ++ line_of further (map written children.now)) }
{
    let mut started = false;
    for rank_now in 0..RANKS {
        started = write_ranked(alloc, further, rank_now, children, started, out)?;
    }
    Ok(())
}

/// Writes the arguments of a function.
#[cycle(text)]
fn write_arguments(alloc: Global, children: &[Calc], out: &mut Vec<Token>) -> Result<(), AllocError>
    ensures { IfOk result (λ _. out.new.items ≡ out.old.items ++ arguments_of (map written children.now)) }
{
    let mut started = false;
    for child in children {
        let place = if started {
            Place::Argument
        } else {
            Place::Whole
        };
        write_part(alloc, place, child, out)?;
        started = true;
    }
    Ok(())
}

/// Writes a calculation as the argument of `calc`.
#[tactic(auto, using(crate::proofs::Appends::appends))]
fn write_calc(alloc: Global, c: &Calc, out: &mut Vec<Token>) -> Result<(), AllocError>
    ensures { IfOk result (λ _. out.new.items ≡ out.old.items ++ call (codes "calc") ((written c.now).at_place Place.Whole)) }
{
    write_function(alloc, b"calc", out)?;
    write_part(alloc, Place::Whole, c, out)?;
    write_closing(true, out)?;
    Ok(())
}

/// Writes a calculation that stands alone.
#[tactic(auto, unfolding(crate::specs::Text::calc_text))]
fn write_whole(alloc: Global, c: &Calc, out: &mut Vec<Token>) -> Result<(), AllocError>
    ensures { IfOk result (λ _. out.new.items ≡ out.old.items ++ calc_text c.now) }
{
    match c {
        Calc::Num(v, unit) => {
            write_alone(alloc, *v, *unit, out)?;
            Ok(())
        }
        Calc::Min(_) | Calc::Max(_) | Calc::Clamp(_, _, _) => {
            write_part(alloc, Place::Whole, c, out)?;
            Ok(())
        }
        _ => {
            write_calc(alloc, c, out)?;
            Ok(())
        }
    }
}

/// The text of a calculation (CSS Values and Units 4, "Serialization"), as tokens: `calc(5% + 3px)` for the sum of 3px and 5%.
pub fn calc_tokens(alloc: Global, c: &Calc) -> Result<Vec<Token>, AllocError>
    ensures text { IfOk result (λ ts. ts.items ≡ calc_text c.now) }
    ensures spelt { IfOk result (λ ts. All IsSpelt ts.items) }
    ensures clean { IfOk result (λ ts. IsClean ts.items) }
{
    let mut tokens = Vec::new(alloc);
    write_whole(alloc, c, &mut tokens)?;
    Ok(tokens)
}
