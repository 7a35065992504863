//! What a list is by one component.

ghost use Rattle.std.specs.Prelude.{◌≡◌, map, IfOk, MatchOption};
ghost use Rattle.cv_component.specs.Parts.{is_white, is_comma, parts as parts_of, filled, trim};
ghost use Rattle.cv_value.specs.Matching as matching;
ghost use Rattle.cv_value.specs.Parts as stretches;

use crate::list::each;
use crate::parts::{Parts, spaced, with_commas};
use crate::single::item;
use crate::typed::{Item, Typed};
use cv_calc::Context;
use cv_numeric::Matched;
use cv_spec_text::Token;
use cv_syntax::{Component, Kind, Many};
use sqlite_items::Items;
use std::alloc::{AllocError, Global};

/// Items with spaces between them.
#[tactic(auto, using(crate::proofs::Lists::spaced_listed))]
fn spaced_items(
    alloc: Global,
    kind: &Kind,
    tokens: &[Token],
    parts: &Parts,
    x: &Context,
) -> Result<Matched<Items<Item>>, AllocError>
    requires { MatchOption parts.now.spaced (Unit {0}) (λ ps. map (λ p. p.now) ps.items ≡ stretches.spaced tokens.now) }
    ensures { IfOk result (λ o. o ≡ matching.listed kind.now x.now tokens.now (filled (parts_of is_white tokens.now))) }
{
    match &parts.spaced {
        Some(found) => each(alloc, kind, found.as_slice(), x),
        None => each(alloc, kind, spaced(alloc, tokens)?.as_slice(), x),
    }
}

/// Items with commas between them.
#[tactic(auto, using(crate::proofs::Lists::commas_listed))]
fn items_with_commas(
    alloc: Global,
    kind: &Kind,
    tokens: &[Token],
    parts: &Parts,
    x: &Context,
) -> Result<Matched<Items<Item>>, AllocError>
    requires { MatchOption parts.now.with_commas (Unit {0}) (λ ps. map (λ p. p.now) ps.items ≡ stretches.with_commas tokens.now) }
    ensures { IfOk result (λ o. o ≡ matching.listed kind.now x.now tokens.now (map trim (parts_of is_comma tokens.now))) }
{
    match &parts.with_commas {
        Some(found) => each(alloc, kind, found.as_slice(), x),
        None => each(alloc, kind, with_commas(alloc, tokens)?.as_slice(), x),
    }
}

/// What a list is by one component.
pub(crate) fn component(
    alloc: Global,
    component: &Component,
    tokens: &[Token],
    parts: &Parts,
    x: &Context,
) -> Result<Matched<Typed>, AllocError>
    requires spaced { MatchOption parts.now.spaced (Unit {0}) (λ ps. map (λ p. p.now) ps.items ≡ stretches.spaced tokens.now) }
    requires with_commas { MatchOption parts.now.with_commas (Unit {0}) (λ ps. map (λ p. p.now) ps.items ≡ stretches.with_commas tokens.now) }
    ensures { IfOk result (λ o. o ≡ matching.component x.now tokens.now component.now) }
{
    match component.many {
        Many::One => {
            let found = item(alloc, &component.kind, tokens, x)?;
            Ok(found.map(|item| Typed::One(item)))
        }
        Many::Spaces => {
            let found = spaced_items(alloc, &component.kind, tokens, parts, x)?;
            Ok(found.map(|items| Typed::Spaces(items)))
        }
        Many::Commas => {
            let found = items_with_commas(alloc, &component.kind, tokens, parts, x)?;
            Ok(found.map(|items| Typed::Commas(items)))
        }
    }
}
