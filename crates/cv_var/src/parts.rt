//! The parts of a list, as it keeps them.

ghost use Rattle.std.specs.Prelude.{◌≡◌, ◌≤◌, ◌++◌, ◌∷◌, vec_len, length, map, Some, false, option_map, IfOk, OnOk};
ghost use Rattle.std.specs.Rc.{rc_slice_items};
ghost use Rattle.cv_var.specs.Flat.{flattened};
ghost use Rattle.cv_var.specs.Places.{AreParts, flat_at, stretch};
ghost use Rattle.cv_var.specs.References.{has_var, pieces_of};
ghost use Rattle.cv_var.specs.declared.place.Place.{Place};

use crate::place::Place;
use crate::reference::{function_size, is_var, reference_at};
use cv_spec_text::{OutOfMemory, Token};
use std::alloc::Global;
use std::rc::RcSlice;

/// How many tokens there are.
pub fn token_count(tokens: &[Token]) -> usize
    ensures { has_var tokens.now ≡ false → result ≡ length (flattened (pieces_of tokens.now)) }
{
    tokens.len()
}

/// The parts of a list, if it has a `var()`.
pub fn parts_in(alloc: Global, tokens: &[Token]) -> Result<Option<RcSlice<Place>>, OutOfMemory>
    ensures { IfOk result (λ parts. AreParts tokens.now (option_map (λ places. rc_slice_items places) parts)) }
{
    if !has_var(tokens) {
        return Ok(None);
    }
    let parts = parts_of(alloc, tokens, 0, tokens.len())?;
    Ok(Some(RcSlice::from_vec(parts)?))
}

/// Whether there is a `var()`, at any depth.
pub fn has_var(tokens: &[Token]) -> bool
    ensures { result ≡ has_var tokens.now }
{
    let mut rest = tokens;
    'tokens: while let [token, after @ ..] = rest {
        if is_var(token) {
            return true;
        }
        rest = after;
    }
    false
}

// Adds a reference and the parts of its fallback.
fn push_reference(
    parts: &mut Vec<Place>,
    name: usize,
    mut fallback: Vec<Place>,
) -> Result<(), OutOfMemory>
    ensures { OnOk result (parts.new.items ≡ parts.old.items ++ Place.Reference name (Some (length fallback.items)) ∷ fallback.items) }
{
    let count = fallback.len();
    parts.push(Place::Reference {
        name,
        fallback: Some(count),
    })?;
    parts.append(&mut fallback)
}

/// The parts of the tokens from `start` up to `end`. A call for a fallback is as deep as the brackets around it.
pub fn parts_of(
    alloc: Global,
    tokens: &[Token],
    start: usize,
    end: usize,
) -> Result<Vec<Place>, OutOfMemory>
    requires ordered { start ≤ end }
    requires within { end ≤ length tokens.now }
    ensures { IfOk result (λ parts. map (flat_at tokens.now) parts.items ≡ map Some (flattened (pieces_of (stretch tokens.now start end)))) }
{
    let mut parts = Vec::new(alloc);
    let mut at = start;
    'parts: while at < end {
        let rest = &tokens[at..end];
        match reference_at(alloc, rest)? {
            None => {
                parts.push(Place::Token(at))?;
                at += 1;
            }
            Some(found) => {
                let name = found.name + at;
                match found.fallback {
                    None => parts.push(Place::Reference {
                        name,
                        fallback: None,
                    })?,
                    Some(extent) => {
                        let inner = parts_of(alloc, tokens, extent.start + at, extent.end + at)?;
                        push_reference(&mut parts, name, inner)?;
                    }
                }
                at += function_size(rest);
            }
        }
    }
    Ok(parts)
}
