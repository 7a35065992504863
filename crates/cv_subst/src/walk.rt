//! Substitution, one part at a time.

ghost use Rattle.std.specs.Prelude.{◌≡◌, ◌⊎◌, ◌<◌, ◌≤◌, ◌+◌, ◌^◌, ◌++◌, ℕ, List, All, length, ◌∷◌, IfOk, IfErr, OnOk, IsErrOf, Ok, Err};
ghost use Rattle.cv_spec_element.specs.Pieces.{sub, joined};
ghost use Rattle.cv_spec_text.specs.Splits.{IsSpelt};
ghost use Rattle.cv_spec_text.specs.declared.token.Token.{Token};
ghost use Rattle.cv_subst.specs.Flat.{sub_flat};
ghost use Rattle.cv_subst.specs.Refusal.{IsCause, IsMissing};
ghost use Rattle.cv_subst.specs.Values.{value_in};
ghost use Rattle.cv_subst.specs.declared.refusal.SubstErr.{SubstErr};
ghost use Rattle.cv_var.specs.Flat.{flat, FlatPiece, EndsWithin, IsSpeltPiece};
ghost use Rattle.cv_var.specs.References.{pieces_of};

use crate::bounded::Bounded;
use crate::refusal::SubstErr;
use crate::runs::Runs;
use cv_spec_text::{Name, Run, Token, push_tokens};
use cv_var::{Declared, Part, pieces_are_read};
use std::alloc::Global;
use std::slice;

// The tokens that stand for a part, and how many of the next parts are passed over; the name that is missing.
fn replaced<'a>(part: Part<'a>, values: &'a Runs) -> Result<(&'a [Token], usize), &'a Name>
    ensures ok { IfOk result (λ r. (rest : List FlatPiece) → sub_flat (value_in values.now) 0 (flat part.entry ∷ rest) ≡ joined (Ok r.0.now) (sub_flat (value_in values.now) r.1 rest)) }
    ensures err { IfErr result (λ name. (rest : List FlatPiece) → sub_flat (value_in values.now) 0 (flat part.entry ∷ rest) ≡ Err name.now) }
    ensures within { IfOk result (λ r. (count number : ℕ) → EndsWithin count number (flat part.entry) → number < count → number + 1 + r.1 ≤ count) }
    ensures spelt { IsSpeltPiece (flat part.entry) → IfOk result (λ r. All IsSpelt r.0.now) }
{
    match part {
        Part::Token(token) => Ok((slice::from_ref(token), 0)),
        Part::Reference { name, fallback } => match values.get(name) {
            Some(run) => Ok((run.tokens(), fallback.unwrap_or(0))),
            None => match fallback {
                Some(_) => Ok((&[], 0)),
                None => Err(name),
            },
        },
    }
}

// How many tokens there are.
fn count(tokens: &[Token]) -> u128
    ensures count { result ≡ length tokens.now }
    ensures fits { result < 2 ^ 64 }
{
    tokens.len() as u128
}

// How many tokens the list has once its references are replaced.
fn length_of(declared: &Declared, values: &Runs) -> Result<u128, SubstErr>
    ensures ok { IfOk result (λ total. (tokens : List Token) × (sub (value_in values.now) (pieces_of declared.now) ≡ Ok tokens) × (total ≡ length tokens)) }
    ensures err { IfErr result (IsMissing (sub (value_in values.now) (pieces_of declared.now))) }
{
    let mut total = 0u128;
    let mut number = 0;
    'parts: while let Some(part) = declared.part(number) {
        match replaced(part, values) {
            Ok((tokens, skip)) => {
                total += count(tokens);
                number += 1 + skip;
            }
            Err(name) => return Err(SubstErr::Missing(name.copy()?)),
        }
    }
    Ok(total)
}

// The list with its references replaced.
fn tokens_of(alloc: Global, declared: &Declared, values: &Runs) -> Result<Vec<Token>, SubstErr>
    ensures ok { IfOk result (λ tokens. sub (value_in values.now) (pieces_of declared.now) ≡ Ok tokens.items) }
    ensures spelt { IfOk result (λ tokens. All IsSpelt tokens.items) }
    ensures err { IfErr result (IsMissing (sub (value_in values.now) (pieces_of declared.now))) }
{
    let mut all = Vec::new(alloc);
    let mut number = 0;
    'parts: while let Some(part) = declared.part(number) {
        match replaced(part, values) {
            Ok((tokens, skip)) => {
                push_tokens(&mut all, tokens)?;
                number += 1 + skip;
            }
            Err(name) => return Err(SubstErr::Missing(name.copy()?)),
        }
    }
    Ok(all)
}

// Refuses so many tokens where they are more than the limit.
fn check_count(total: u128, limit: u32) -> Result<(), SubstErr>
    ensures ok { OnOk result (total ≤ limit) }
    ensures err { IfErr result (λ refusal. (refusal ≡ SubstErr.OverLimit total) × (limit < total)) }
{
    if total > limit as u128 {
        return Err(SubstErr::OverLimit(total));
    }
    Ok(())
}

// The run, if it isn't longer than the limit.
fn bounded(list: &Run, limit: u32) -> Result<Bounded, SubstErr>
    ensures limit { IfOk result (λ bounded. bounded.limit ≡ limit) }
    ensures ok { IfOk result (λ bounded. bounded.tokens ≡ list.now) }
    ensures only_where { IfErr result (λ refusal. (refusal ≡ SubstErr.Memory) ⊎ IsCause (Ok list.now) limit refusal) }
    ensures exactly_where { (refusal : SubstErr) → IsCause (Ok list.now) limit refusal → IsErrOf result refusal ⊎ IsErrOf result SubstErr.Memory }
{
    match check_count(count(list.tokens()), limit) {
        Ok(()) => {}
        Err(refusal) => return Err(refusal),
    }
    Ok(Bounded::new(list.share()?, limit))
}

// The list with its references replaced, where it is no longer than the limit.
fn substitute_parts(
    alloc: Global,
    declared: &Declared,
    values: &Runs,
    limit: u32,
) -> Result<Bounded, SubstErr>
    ensures limit { IfOk result (λ bounded. bounded.limit ≡ limit) }
    ensures ok { IfOk result (λ bounded. sub (value_in values.now) (pieces_of declared.now) ≡ Ok bounded.tokens) }
    ensures only_where { IfErr result (λ refusal. (refusal ≡ SubstErr.Memory) ⊎ IsCause (sub (value_in values.now) (pieces_of declared.now)) limit refusal) }
    ensures exactly_where { (refusal : SubstErr) → IsCause (sub (value_in values.now) (pieces_of declared.now)) limit refusal → IsErrOf result refusal ⊎ IsErrOf result SubstErr.Memory }
{
    let total = match length_of(declared, values) {
        Ok(total) => total,
        Err(refusal) => return Err(refusal),
    };
    match check_count(total, limit) {
        Ok(()) => {}
        Err(refusal) => return Err(refusal),
    }
    let all = match tokens_of(alloc, declared, values) {
        Ok(all) => all,
        Err(refusal) => return Err(refusal),
    };
    Ok(Bounded::new(Run::of(alloc, all)?, limit))
}

/// The list with each reference replaced: by the run of its name, else by its fallback (Cascading Variables 1, "Using
/// Cascading Variables: the var() notation"). The refusals, in this order:
///
/// - [`SubstErr::Missing`] with the first name from the left that has neither a run nor a fallback;
/// - [`SubstErr::OverLimit`] with the length of the list, exactly where that is more than the limit.
///
/// Each token of the list counts, and a fallback that isn't used doesn't. A run isn't searched for references. The tokens
/// are counted before any is copied, so a list that is longer than the limit is never built. A list without references isn't
/// copied: the answer shares its run.
pub fn substitute(
    alloc: Global,
    declared: &Declared,
    values: &Runs,
    limit: u32,
) -> Result<Bounded, SubstErr>
    requires some { 1 ≤ limit }
    requires most { limit ≤ 32768 }
    ensures limit { IfOk result (λ bounded. bounded.limit ≡ limit) }
    ensures ok { IfOk result (λ bounded. sub (value_in values.now) (pieces_of declared.now) ≡ Ok bounded.tokens) }
    ensures only_where { IfErr result (λ refusal. (refusal ≡ SubstErr.Memory) ⊎ IsCause (sub (value_in values.now) (pieces_of declared.now)) limit refusal) }
    ensures exactly_where { (refusal : SubstErr) → IsCause (sub (value_in values.now) (pieces_of declared.now)) limit refusal → IsErrOf result refusal ⊎ IsErrOf result SubstErr.Memory }
{
    pieces_are_read();
    if declared.has_var() {
        substitute_parts(alloc, declared, values, limit)
    } else {
        bounded(declared.run(), limit)
    }
}
