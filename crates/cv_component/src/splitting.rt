//! The parts of a list.

ghost use Rattle.std.specs.Prelude.{◌≡◌, ◌≤◌, [], length, map, reverse, IfOk, IsTrue, ◌↔◌};
ghost use Rattle.cv_component.specs.Nesting.{nesting_past};
ghost use Rattle.cv_component.specs.TopLevel.{top_length, begins};
ghost use Rattle.cv_component.specs.Parts.{separates as separates_at, is_white, is_comma, parts as parts_of, filled as filled_of, trim as trimmed, has_white_end as is_white_at_end};

use crate::nesting::Nesting;
use crate::separator::{Separator, separates};
use crate::top_level::{trim_end, trim_front};
use cv_spec_text::Token;
use std::alloc::{AllocError, Global};

/// How many tokens stand before the first separator at the top level.
#[tactic(auto, unfolding(crate::specs::TopLevel::top_length))]
pub fn part_length(
    alloc: Global,
    separator: Separator,
    tokens: &[Token],
) -> Result<usize, AllocError>
    ensures size { IfOk result (λ n. n ≡ top_length (separates_at separator) tokens.now) }
    ensures within { IfOk result (λ n. n ≤ length tokens.now) }
{
    let mut nesting = Nesting::new(alloc);
    let mut rest = tokens;
    let mut taken = 0;
    'tokens: while let [token, after @ ..] = rest {
        if nesting.is_empty() && separates(separator, token) {
            return Ok(taken);
        }
        nesting.read(token)?;
        rest = after;
        taken += 1;
    }
    Ok(taken)
}

/// The parts of a list between the separators at its top level, as `a` and `f(b, c)` of `a, f(b, c)` between its commas, with the
/// whitespace beside them. There is one part more than there are separators.
pub fn parts<'a>(
    alloc: Global,
    separator: Separator,
    tokens: &'a [Token],
) -> Result<Vec<&'a [Token]>, AllocError>
    ensures { IfOk result (λ all. map (λ p. p.now) all.items ≡ parts_of (separates_at separator) tokens.now) }
{
    let mut all = Vec::new(alloc);
    let mut rest = tokens;
    'parts: loop {
        let size = part_length(alloc, separator, rest)?;
        let (part, behind) = rest.split_at(size);
        all.push(part)?;
        match behind {
            [] => return Ok(all),
            [_, after @ ..] => rest = after,
        }
    }
}

/// The list without whitespace at its ends.
pub fn trim(tokens: &[Token]) -> &[Token]
    ensures trimmed { result.now ≡ trimmed tokens.now }
{
    trim_end(trim_front(tokens))
}

/// The parts that aren't empty.
fn filled<'a>(alloc: Global, parts: &[&'a [Token]]) -> Result<Vec<&'a [Token]>, AllocError>
    ensures { IfOk result (λ all. map (λ p. p.now) all.items ≡ filled_of (map (λ p. p.now) parts.now)) }
{
    let mut all = Vec::new(alloc);
    for part in parts {
        if part.is_empty() {
            continue;
        }
        all.push(*part)?;
    }
    Ok(all)
}

/// The parts without whitespace at their ends.
fn trimmed_parts<'a>(alloc: Global, parts: &[&'a [Token]]) -> Result<Vec<&'a [Token]>, AllocError>
    ensures { IfOk result (λ all. map (λ p. p.now) all.items ≡ map trimmed (map (λ p. p.now) parts.now)) }
{
    let mut all = Vec::new(alloc);
    for part in parts {
        all.push(trim(part))?;
    }
    Ok(all)
}

/// The parts of a list between the whitespace at its top level, without empty ones.
pub fn spaced_parts<'a>(alloc: Global, tokens: &'a [Token]) -> Result<Vec<&'a [Token]>, AllocError>
    ensures { IfOk result (λ all. map (λ p. p.now) all.items ≡ filled_of (parts_of is_white tokens.now)) }
{
    let all = parts(alloc, Separator::White, tokens)?;
    filled(alloc, all.as_slice())
}

/// The parts of a list between the commas at its top level, without whitespace at their ends.
pub fn comma_parts<'a>(alloc: Global, tokens: &'a [Token]) -> Result<Vec<&'a [Token]>, AllocError>
    ensures { IfOk result (λ all. map (λ p. p.now) all.items ≡ map trimmed (parts_of is_comma tokens.now)) }
{
    let all = parts(alloc, Separator::Comma, tokens)?;
    trimmed_parts(alloc, all.as_slice())
}

/// Whether no bracket is open at the end of the list.
pub(crate) fn is_closed(alloc: Global, tokens: &[Token]) -> Result<bool, AllocError>
    ensures { IfOk result (λ closed. IsTrue closed ↔ (nesting_past [] tokens.now ≡ [])) }
{
    let mut nesting = Nesting::new(alloc);
    for token in tokens {
        nesting.read(token)?;
    }
    Ok(nesting.is_empty())
}

fn begins_white(tokens: &[Token]) -> bool
    ensures { result ≡ begins is_white tokens.now }
{
    match tokens {
        [Token::White, ..] => true,
        _ => false,
    }
}

fn ends_white(tokens: &[Token]) -> bool
    ensures { result ≡ begins is_white (reverse tokens.now) }
{
    match tokens {
        [.., Token::White] => true,
        _ => false,
    }
}

/// Whether the list begins with whitespace, or ends with it where no bracket is open: `a ` does, and `calc(1px ` doesn't.
pub fn has_white_end(alloc: Global, tokens: &[Token]) -> Result<bool, AllocError>
    ensures { IfOk result (λ white. white ≡ is_white_at_end tokens.now) }
{
    if begins_white(tokens) {
        return Ok(true);
    }
    if ends_white(tokens) {
        is_closed(alloc, tokens)
    } else {
        Ok(false)
    }
}
