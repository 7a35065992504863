//! The parts of a list, for all components of a syntax.

ghost use Rattle.std.specs.Prelude.{◌≡◌, map, IfOk, MatchOption};
ghost use Rattle.cv_value.specs.Parts as stretches;

use cv_component::{comma_parts, has_white_end, spaced_parts};
use cv_spec_text::Token;
use cv_syntax::{Component, Many};
use std::alloc::{AllocError, Global};

/// The parts of a list: those with spaces between them and those with commas, where they are wanted.
#[derive(Drop)]
pub(crate) struct Parts<'a> {
    pub(crate) spaced: Option<Vec<&'a [Token]>>,
    pub(crate) with_commas: Option<Vec<&'a [Token]>>,
}

/// The parts with spaces between them; none where whitespace stands at an end of the list.
pub(crate) fn spaced<'a>(alloc: Global, tokens: &'a [Token]) -> Result<Vec<&'a [Token]>, AllocError>
    ensures { IfOk result (λ all. map (λ p. p.now) all.items ≡ stretches.spaced tokens.now) }
{
    if has_white_end(alloc, tokens)? {
        return Ok(Vec::new(alloc));
    }
    spaced_parts(alloc, tokens)
}

/// The parts with commas between them; none where whitespace stands at an end of the list.
pub(crate) fn with_commas<'a>(
    alloc: Global,
    tokens: &'a [Token],
) -> Result<Vec<&'a [Token]>, AllocError>
    ensures { IfOk result (λ all. map (λ p. p.now) all.items ≡ stretches.with_commas tokens.now) }
{
    if has_white_end(alloc, tokens)? {
        return Ok(Vec::new(alloc));
    }
    comma_parts(alloc, tokens)
}

/// The parts with spaces between them, where they are wanted.
fn spaced_if<'a>(
    alloc: Global,
    wanted: bool,
    tokens: &'a [Token],
) -> Result<Option<Vec<&'a [Token]>>, AllocError>
    ensures { IfOk result (λ all. MatchOption all (Unit {0}) (λ ps. map (λ p. p.now) ps.items ≡ stretches.spaced tokens.now)) }
{
    if wanted {
        Ok(Some(spaced(alloc, tokens)?))
    } else {
        Ok(None)
    }
}

/// The parts with commas between them, where they are wanted.
fn with_commas_if<'a>(
    alloc: Global,
    wanted: bool,
    tokens: &'a [Token],
) -> Result<Option<Vec<&'a [Token]>>, AllocError>
    ensures { IfOk result (λ all. MatchOption all (Unit {0}) (λ ps. map (λ p. p.now) ps.items ≡ stretches.with_commas tokens.now)) }
{
    if wanted {
        Ok(Some(with_commas(alloc, tokens)?))
    } else {
        Ok(None)
    }
}

/// The parts of a list that some components ask for.
pub(crate) fn parts_for<'a>(
    alloc: Global,
    components: &[Component],
    tokens: &'a [Token],
) -> Result<Parts<'a>, AllocError>
    ensures spaced { IfOk result (λ all. MatchOption all.spaced (Unit {0}) (λ ps. map (λ p. p.now) ps.items ≡ stretches.spaced tokens.now)) }
    ensures with_commas { IfOk result (λ all. MatchOption all.with_commas (Unit {0}) (λ ps. map (λ p. p.now) ps.items ≡ stretches.with_commas tokens.now)) }
{
    let wants_spaces = components.iter().any(|c| matches!(c.many, Many::Spaces));
    let wants_commas = components.iter().any(|c| matches!(c.many, Many::Commas));
    Ok(Parts {
        spaced: spaced_if(alloc, wants_spaces, tokens)?,
        with_commas: with_commas_if(alloc, wants_commas, tokens)?,
    })
}
