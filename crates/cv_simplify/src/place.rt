//! What is written of a calculation at the place where it stands, before its parts and behind them.

ghost use Rattle.std.specs.Prelude.{◌≡◌, ◌∷◌, ◌++◌, [], IfOk};
ghost use Rattle.cv_simplify.specs.Text.{prefix, has_brackets as brackets_of, number_placed, operator};
ghost use Rattle.cv_simplify.specs.Starts.{start_of, end_of, negative_start, negative_end, inverse_start, inverse_end};

use crate::tokens::{
    name_of, write_closing, write_function, write_number, write_opening, write_operator,
};
use cv_calc::Unit;
use cv_frac::Frac;
use cv_spec_text::Token;
use std::alloc::{AllocError, Global};

/// Where a calculation stands: as the first within a sum or product, alone or as the first argument, or after a sign or a comma.
#[derive(Clone, Copy)]
pub enum Place {
    Operand,
    Whole,
    Added,
    Multiplied,
    Argument,
}

/// Writes what stands before a calculation.
#[tactic(auto, using(crate::proofs::Appends::appends))]
pub(crate) fn write_prefix(place: Place, out: &mut Vec<Token>) -> Result<(), AllocError>
    ensures { IfOk result (λ _. out.new.items ≡ out.old.items ++ prefix place) }
{
    match place {
        Place::Operand | Place::Whole => Ok(()),
        Place::Added => {
            write_operator('+', out)?;
            Ok(())
        }
        Place::Multiplied => {
            write_operator('*', out)?;
            Ok(())
        }
        Place::Argument => {
            out.push(Token::Comma)?;
            out.push(Token::White)?;
            Ok(())
        }
    }
}

/// Whether a sum, a product, a negative or an inverse has brackets of its own.
fn has_brackets(place: Place) -> bool
    ensures { result ≡ brackets_of place }
{
    match place {
        Place::Operand => true,
        Place::Whole => false,
        Place::Added => true,
        Place::Multiplied => true,
        Place::Argument => false,
    }
}

/// Writes what stands before a sum or product, its bracket with it.
#[tactic(auto, using(crate::proofs::Appends::appends))]
pub(crate) fn write_start(place: Place, out: &mut Vec<Token>) -> Result<(), AllocError>
    ensures { IfOk result (λ _. out.new.items ≡ out.old.items ++ start_of place) }
{
    write_prefix(place, out)?;
    write_opening(has_brackets(place), out)?;
    Ok(())
}

/// Writes what stands behind a sum or product.
pub(crate) fn write_end(place: Place, out: &mut Vec<Token>) -> Result<(), AllocError>
    ensures { IfOk result (λ _. out.new.items ≡ out.old.items ++ end_of place) }
{
    write_closing(has_brackets(place), out)?;
    Ok(())
}

/// Writes a number that is added, or subtracts its negative.
#[tactic(auto, using(crate::proofs::Appends::appends))]
fn write_added(alloc: Global, v: Frac, unit: Unit, out: &mut Vec<Token>) -> Result<(), AllocError>
    ensures { IfOk result (λ _. out.new.items ≡ out.old.items ++ number_placed Place.Added v unit) }
{
    if v.top() < 0 {
        write_operator('-', out)?;
        write_number(alloc, true, v.neg(), unit, out)?;
        Ok(())
    } else {
        write_operator('+', out)?;
        write_number(alloc, true, v, unit, out)?;
        Ok(())
    }
}

/// Writes a number at a place.
#[tactic(auto, using(crate::proofs::Appends::appends))]
pub(crate) fn write_placed(
    alloc: Global,
    place: Place,
    v: Frac,
    unit: Unit,
    out: &mut Vec<Token>,
) -> Result<(), AllocError>
    ensures { IfOk result (λ _. out.new.items ≡ out.old.items ++ number_placed place v unit) }
{
    match place {
        Place::Added => {
            write_added(alloc, v, unit, out)?;
            Ok(())
        }
        Place::Operand | Place::Whole | Place::Multiplied | Place::Argument => {
            write_prefix(place, out)?;
            write_number(alloc, has_brackets(place), v, unit, out)?;
            Ok(())
        }
    }
}

/// Writes a number and a sign.
#[tactic(auto, using(crate::proofs::Appends::appends))]
fn write_operation(
    alloc: Global,
    number: &[u8],
    sign: char,
    out: &mut Vec<Token>,
) -> Result<(), AllocError>
    ensures { IfOk result (λ _. out.new.items ≡ out.old.items ++ Token.Number number.now ∷ operator sign) }
{
    out.push(Token::Number(name_of(alloc, number)?))?;
    write_operator(sign, out)?;
    Ok(())
}

/// Writes what stands before the negative of a calculation.
#[tactic(auto, using(crate::proofs::Appends::appends))]
pub(crate) fn write_negative_start(
    alloc: Global,
    place: Place,
    out: &mut Vec<Token>,
) -> Result<(), AllocError>
    ensures { IfOk result (λ _. out.new.items ≡ out.old.items ++ negative_start place) }
{
    match place {
        Place::Added => {
            write_operator('-', out)?;
            Ok(())
        }
        Place::Operand | Place::Whole | Place::Multiplied | Place::Argument => {
            write_start(place, out)?;
            write_operation(alloc, b"-1", '*', out)?;
            Ok(())
        }
    }
}

/// Writes what stands behind the negative of a calculation.
pub(crate) fn write_negative_end(place: Place, out: &mut Vec<Token>) -> Result<(), AllocError>
    ensures { IfOk result (λ _. out.new.items ≡ out.old.items ++ negative_end place) }
{
    match place {
        Place::Added => Ok(()),
        Place::Operand | Place::Whole | Place::Multiplied | Place::Argument => {
            write_end(place, out)?;
            Ok(())
        }
    }
}

/// Writes what stands before the inverse of a calculation.
#[tactic(auto, using(crate::proofs::Appends::appends))]
pub(crate) fn write_inverse_start(
    alloc: Global,
    place: Place,
    out: &mut Vec<Token>,
) -> Result<(), AllocError>
    ensures { IfOk result (λ _. out.new.items ≡ out.old.items ++ inverse_start place) }
{
    match place {
        Place::Multiplied => {
            write_operator('/', out)?;
            Ok(())
        }
        Place::Operand | Place::Whole | Place::Added | Place::Argument => {
            write_start(place, out)?;
            write_operation(alloc, b"1", '/', out)?;
            Ok(())
        }
    }
}

/// Writes what stands behind the inverse of a calculation.
pub(crate) fn write_inverse_end(place: Place, out: &mut Vec<Token>) -> Result<(), AllocError>
    ensures { IfOk result (λ _. out.new.items ≡ out.old.items ++ inverse_end place) }
{
    match place {
        Place::Multiplied => Ok(()),
        Place::Operand | Place::Whole | Place::Added | Place::Argument => {
            write_end(place, out)?;
            Ok(())
        }
    }
}

/// Writes what stands before the arguments of a function.
#[tactic(auto, using(crate::proofs::Appends::appends))]
pub(crate) fn write_call_start(
    alloc: Global,
    place: Place,
    name: &[u8],
    out: &mut Vec<Token>,
) -> Result<(), AllocError>
    ensures { IfOk result (λ _. out.new.items ≡ out.old.items ++ (prefix place ++ Token.Function name.now ∷ [])) }
{
    write_prefix(place, out)?;
    write_function(alloc, name, out)?;
    Ok(())
}
