//! Tokens of numbers, signs, functions and brackets, written behind others.

ghost use Rattle.std.specs.Prelude.{◌≡◌, ◌∷◌, ◌++◌, [], IfOk, decimal};
ghost use Rattle.std.specs.Fmt.{signed_decimal};
ghost use Rattle.cv_simplify.specs.Text.{numeric as numeric_of, decimal_tokens, quotient_tokens, number_tokens, number_alone, operator};
ghost use Rattle.cv_simplify.specs.Starts.{opening_if, closing_if};

use cv_calc::{Unit, unit_name};
use cv_frac::Frac;
use cv_spec_text::{Bracket, Name, Token};
use itoa::Buffer;
use std::alloc::{AllocError, Global};

/// A text of some ASCII characters.
pub(crate) fn name_of(alloc: Global, bytes: &[u8]) -> Result<Name, AllocError>
    ensures { IfOk result (λ name. name ≡ bytes.now) }
{
    let mut name = Name::new(alloc);
    for byte in bytes {
        name.push(char::from(*byte))?;
    }
    Ok(name)
}

/// A number with its unit.
pub(crate) fn numeric(alloc: Global, spelling: Name, unit: Unit) -> Result<Token, AllocError>
    ensures { IfOk result (λ token. token ≡ numeric_of spelling unit) }
{
    if unit == Unit::Number {
        Ok(Token::Number(spelling))
    } else if unit == Unit::Percent {
        Ok(Token::Percentage(spelling))
    } else {
        let name = name_of(alloc, unit_name(unit).as_bytes())?;
        Ok(Token::Dimension(spelling, name))
    }
}

/// Writes a sign with a space on both sides.
#[tactic(auto, using(crate::proofs::Appends::appends))]
pub(crate) fn write_operator(sign: char, out: &mut Vec<Token>) -> Result<(), AllocError>
    ensures { IfOk result (λ _. out.new.items ≡ out.old.items ++ operator sign) }
{
    out.push(Token::White)?;
    out.push(Token::Delim(sign))?;
    out.push(Token::White)?;
    Ok(())
}

/// Writes a function up to its arguments.
pub(crate) fn write_function(
    alloc: Global,
    name: &[u8],
    out: &mut Vec<Token>,
) -> Result<(), AllocError>
    ensures { IfOk result (λ _. out.new.items ≡ out.old.items ++ Token.Function name.now ∷ []) }
{
    out.push(Token::Function(name_of(alloc, name)?))?;
    Ok(())
}

/// Writes an opening bracket, where there is one.
pub(crate) fn write_opening(brackets: bool, out: &mut Vec<Token>) -> Result<(), AllocError>
    ensures { IfOk result (λ _. out.new.items ≡ out.old.items ++ opening_if brackets) }
{
    if brackets {
        out.push(Token::Open(Bracket::Round))?;
    }
    Ok(())
}

/// Writes a closing bracket, where there is one.
pub(crate) fn write_closing(brackets: bool, out: &mut Vec<Token>) -> Result<(), AllocError>
    ensures { IfOk result (λ _. out.new.items ≡ out.old.items ++ closing_if brackets) }
{
    if brackets {
        out.push(Token::Close(Bracket::Round))?;
    }
    Ok(())
}

/// Writes the decimal of a number.
fn write_decimal(alloc: Global, v: Frac, unit: Unit, out: &mut Vec<Token>) -> Result<(), AllocError>
    ensures { IfOk result (λ _. out.new.items ≡ out.old.items ++ decimal_tokens v unit) }
{
    let mut text = Vec::new(alloc);
    v.write(alloc, &mut text)?;
    let spelling = name_of(alloc, &text)?;
    out.push(numeric(alloc, spelling, unit)?)?;
    Ok(())
}

/// Writes a number over another.
#[tactic(auto, using(crate::proofs::Appends::appends))]
fn write_over(top: Token, bottom: Token, out: &mut Vec<Token>) -> Result<(), AllocError>
    ensures { IfOk result (λ _. out.new.items ≡ out.old.items ++ top ∷ operator 0x2f ++ bottom ∷ []) }
{
    out.push(top)?;
    write_operator('/', out)?;
    out.push(bottom)?;
    Ok(())
}

/// The upper of the two numbers of a number, with its unit.
fn top_of(alloc: Global, v: Frac, unit: Unit) -> Result<Token, AllocError>
    ensures { IfOk result (λ token. token ≡ numeric_of (signed_decimal v.top) unit) }
{
    let mut buffer = Buffer::new();
    let spelling = name_of(alloc, buffer.format(v.top()).as_bytes())?;
    numeric(alloc, spelling, unit)
}

/// The lower of the two numbers of a number.
fn bottom_of(alloc: Global, v: Frac) -> Result<Token, AllocError>
    ensures { IfOk result (λ token. token ≡ Token.Number (decimal v.bottom)) }
{
    let mut buffer = Buffer::new();
    let spelling = name_of(alloc, buffer.format(v.bottom().unsigned_abs()).as_bytes())?;
    Ok(Token::Number(spelling))
}

/// Writes the two numbers of a number.
fn write_quotient(
    alloc: Global,
    v: Frac,
    unit: Unit,
    out: &mut Vec<Token>,
) -> Result<(), AllocError>
    ensures { IfOk result (λ _. out.new.items ≡ out.old.items ++ quotient_tokens v unit) }
{
    let top = top_of(alloc, v, unit)?;
    let bottom = bottom_of(alloc, v)?;
    write_over(top, bottom, out)?;
    Ok(())
}

/// Writes a number, in brackets where it is a quotient and they are wanted.
#[tactic(auto, using(crate::proofs::Appends::appends))]
pub(crate) fn write_number(
    alloc: Global,
    brackets: bool,
    v: Frac,
    unit: Unit,
    out: &mut Vec<Token>,
) -> Result<(), AllocError>
    ensures { IfOk result (λ _. out.new.items ≡ out.old.items ++ number_tokens brackets v unit) }
{
    match v.places() {
        Some(_) => {
            write_decimal(alloc, v, unit, out)?;
            Ok(())
        }
        None => {
            write_opening(brackets, out)?;
            write_quotient(alloc, v, unit, out)?;
            write_closing(brackets, out)?;
            Ok(())
        }
    }
}

/// Writes a number alone.
#[tactic(auto, using(crate::proofs::Appends::appends))]
pub(crate) fn write_alone(
    alloc: Global,
    v: Frac,
    unit: Unit,
    out: &mut Vec<Token>,
) -> Result<(), AllocError>
    ensures { IfOk result (λ _. out.new.items ≡ out.old.items ++ number_alone v unit) }
{
    match v.places() {
        Some(_) => {
            write_decimal(alloc, v, unit, out)?;
            Ok(())
        }
        None => {
            write_function(alloc, b"calc", out)?;
            write_quotient(alloc, v, unit, out)?;
            write_closing(true, out)?;
            Ok(())
        }
    }
}
