//! Colour functions.

ghost use Rattle.std.specs.Prelude.{◌≡◌, map, IfOk, IsSome, option_map};
ghost use Rattle.cv_component.specs.Blocks.{opened_at};
ghost use Rattle.cv_colorread.specs.Colors as colors;

use crate::alpha::{with_alpha, without_alpha};
use crate::channels::{Channels, Form, by_either, three};
use cv_calc::Context;
use cv_color::Color;
use cv_component::{Separator, comma_parts, matching, parts, spaced_parts, trim};
use cv_numeric::Matched;
use cv_spec_text::{Name, Token};
use std::alloc::{AllocError, Global};

/// Three numbers, or three percentages.
fn alike(alloc: Global, channels: &[&[Token]], x: &Context) -> Result<Matched<Channels>, AllocError>
    ensures { IfOk result (λ o. o ≡ colors.alike x.now (map (λ list. list.now) channels.now)) }
{
    match three(alloc, Form::Number, channels, x)? {
        Matched::Fit(found) => Ok(Matched::Fit(found)),
        Matched::Out => Ok(Matched::Out),
        Matched::No => three(alloc, Form::Percentage, channels, x),
    }
}

/// Three numbers or percentages, between whitespace.
fn mixed(alloc: Global, channels: &[Token], x: &Context) -> Result<Matched<Channels>, AllocError>
    ensures { IfOk result (λ o. o ≡ colors.mixed x.now channels.now) }
{
    let lists = spaced_parts(alloc, channels)?;
    three(alloc, Form::Either, &lists, x)
}

/// The arguments between commas.
#[tactic(auto, using(crate::proofs::Arguments::legacy_other, crate::proofs::Arguments::legacy_four))]
fn legacy(alloc: Global, lists: &[&[Token]], x: &Context) -> Result<Matched<Color>, AllocError>
    ensures { IfOk result (λ o. o ≡ colors.legacy x.now (map (λ list. list.now) lists.now)) }
{
    match lists {
        [red, green, blue, alpha] => {
            let alpha = by_either(alloc, 1, alpha, x)?;
            let channels = [*red, *green, *blue];
            Ok(with_alpha(alike(alloc, &channels, x)?, alpha))
        }
        _ => Ok(without_alpha(alike(alloc, lists, x)?)),
    }
}

/// The arguments between whitespace, before and behind a `/`.
fn modern(alloc: Global, lists: &[&[Token]], x: &Context) -> Result<Matched<Color>, AllocError>
    ensures { IfOk result (λ o. o ≡ colors.modern x.now (map (λ list. list.now) lists.now)) }
{
    match lists {
        [channels] => Ok(without_alpha(mixed(alloc, channels, x)?)),
        [channels, alpha] => {
            let alpha = by_either(alloc, 1, trim(alpha), x)?;
            Ok(with_alpha(mixed(alloc, channels, x)?, alpha))
        }
        _ => Ok(Matched::No),
    }
}

/// The arguments of a colour function.
fn arguments(alloc: Global, tokens: &[Token], x: &Context) -> Result<Matched<Color>, AllocError>
    ensures { IfOk result (λ o. o ≡ colors.arguments x.now tokens.now) }
{
    let lists = comma_parts(alloc, tokens)?;
    match legacy(alloc, &lists, x)? {
        Matched::Fit(found) => Ok(Matched::Fit(found)),
        Matched::Out => Ok(Matched::Out),
        Matched::No => {
            let lists = parts(alloc, Separator::Solidus, tokens)?;
            modern(alloc, &lists, x)
        }
    }
}

/// Whether this is the name of a colour function.
fn is_rgb(name: &Name) -> bool
    ensures { result ≡ colors.is_rgb name.now }
{
    name.is_word("rgb") || name.is_word("rgba")
}

/// What stands within the function that the list begins with, where nothing follows it.
fn inside(tokens: &[Token]) -> Option<&[Token]>
    requires { IsSome (opened_at tokens.now 0) }
    ensures { option_map (λ list. list.now) result ≡ colors.inside tokens.now }
{
    match matching(tokens, 0) {
        None => Some(&tokens[1..]),
        Some(end) => {
            if end + 1 == tokens.len() {
                Some(&tokens[1..end])
            } else {
                None
            }
        }
    }
}

/// A function that begins the list, as a colour.
pub(crate) fn function(
    alloc: Global,
    name: &Name,
    tokens: &[Token],
    x: &Context,
) -> Result<Matched<Color>, AllocError>
    requires { IsSome (opened_at tokens.now 0) }
    ensures { IfOk result (λ o. o ≡ colors.function x.now name.now tokens.now) }
{
    if !is_rgb(name) {
        return Ok(Matched::No);
    }
    match inside(tokens) {
        None => Ok(Matched::No),
        Some(within) => arguments(alloc, within, x),
    }
}
