//! References, `var()`.

ghost use Rattle.std.specs.Prelude.{◌≡◌, ◌≤◌, ◌<◌, ◌+◌, ◌-◌, ◌^◌, ℕ, List, length, drop, codes, IfOk, IfSome, MatchOption, OnSome, IsTrue, Some, None};
ghost use Rattle.cv_var.specs.References.{is_var, begins_var, name_in, fallback_in, reference_in, inner_to, function_size, reference_at, is_bad_var, bad_var};
ghost use Rattle.cv_spec_text.specs.Keywords.{is_word};
ghost use Rattle.cv_var.specs.Places.{StandsAt, IsWithin, name_at, fallback_at, moved};
ghost use Rattle.cv_component.specs.Blocks.{matching};

use crate::place::{Extent, Found, moved, trimmed};
use crate::value::is_value;
use cv_component::{matching, trim_front};
use cv_spec_text::{Name, OutOfMemory, Token};
use std::alloc::Global;

fn is_var_name(name: &Name) -> bool
    ensures { result ≡ is_word (codes "var") name.now }
{
    name.is_word("var")
}

pub fn is_var(token: &Token) -> bool
    ensures { result ≡ is_var token.now }
{
    match token {
        Token::Function(name) => is_var_name(name),
        _ => false,
    }
}

// The custom name at the front, and what comes behind it and whitespace.
fn name_in(tokens: &[Token]) -> Option<(&Name, &[Token])>
    ensures found { MatchOption result (name_in tokens.now ≡ None) (λ found. name_in tokens.now ≡ Some (found.0.now, found.1.now)) }
    ensures named { IfSome result (λ found. name_at tokens.now 0 ≡ Some found.0.now) }
    ensures end { IfSome result (λ found. found.1.now ≡ drop (length tokens.now - length found.1.now) tokens.now) }
    ensures within { IfSome result (λ found. length found.1.now ≤ length tokens.now) }
{
    match tokens {
        [Token::Ident(name), after @ ..] => {
            if name.is_custom() {
                Some((name, trim_front(after)))
            } else {
                None
            }
        }
        _ => None,
    }
}

// The fallback behind a name, where what stands there is right.
fn fallback_in(alloc: Global, rest: &[Token]) -> Result<Option<Option<Extent>>, OutOfMemory>
    ensures found { IfOk result (λ found. (name : List ℕ) → MatchOption found (fallback_in name rest.now ≡ None) (λ fallback. fallback_in name rest.now ≡ Some (name, fallback_at rest.now fallback))) }
    ensures within { IfOk result (λ found. IfSome found (IsWithin (length rest.now))) }
{
    match rest {
        [] => Ok(Some(None)),
        [Token::Comma, value @ ..] => {
            if is_value(alloc, value)? {
                Ok(Some(Some(trimmed(rest, 1))))
            } else {
                Ok(None)
            }
        }
        _ => Ok(None),
    }
}

// What stands between the brackets of `var()`, where that is right.
#[tactic(auto, unfolding(crate::specs::References::reference_in))]
fn reference_in(alloc: Global, inner: &[Token]) -> Result<Option<Found>, OutOfMemory>
    ensures { IfOk result (λ found. MatchOption found (reference_in inner.now ≡ None) (λ found. StandsAt inner.now found (reference_in inner.now))) }
{
    let front = trim_front(inner);
    match name_in(front) {
        None => Ok(None),
        Some((_, rest)) => match fallback_in(alloc, rest)? {
            None => Ok(None),
            Some(fallback) => Ok(Some(Found {
                name: inner.len() - front.len(),
                fallback: moved(fallback, inner.len() - rest.len()),
            })),
        },
    }
}

// The tokens between the brackets of the function at the front.
fn inner(tokens: &[Token]) -> &[Token]
    requires { IsTrue (begins_var tokens.now) }
    ensures { result.now ≡ inner_to tokens.now (matching tokens.now 0) }
{
    match matching(tokens, 0) {
        Some(end) => &tokens[1..end],
        None => &tokens[1..],
    }
}

/// How many tokens the function at the front takes.
pub fn function_size(tokens: &[Token]) -> usize
    requires { IsTrue (begins_var tokens.now) }
    ensures size { result ≡ function_size tokens.now }
    ensures within { result ≤ length tokens.now }
    ensures some { 0 < result }
{
    match matching(tokens, 0) {
        Some(end) => end + 1,
        None => tokens.len(),
    }
}

fn begins_var(tokens: &[Token]) -> bool
    ensures { result ≡ begins_var tokens.now }
{
    match tokens {
        [token, ..] => is_var(token),
        [] => false,
    }
}

// The same reference, in the list with the function's own token in front.
fn behind_function(found: Found) -> Found
    requires name { found.name + 1 < 2 ^ 64 }
    requires fallback { IsWithin (2 ^ 64 - 2) found.fallback }
    ensures name { result.name ≡ found.name + 1 }
    ensures fallback { result.fallback ≡ moved 1 found.fallback }
{
    Found {
        name: found.name + 1,
        fallback: moved(found.fallback, 1),
    }
}

/// The reference at the front, if one is there.
pub fn reference_at(alloc: Global, tokens: &[Token]) -> Result<Option<Found>, OutOfMemory>
    ensures found { IfOk result (λ found. MatchOption found (reference_at tokens.now ≡ None) (λ found. StandsAt tokens.now found (reference_at tokens.now))) }
    ensures begins { IfOk result (λ found. OnSome found (IsTrue (begins_var tokens.now))) }
{
    if begins_var(tokens) {
        match reference_in(alloc, inner(tokens))? {
            None => Ok(None),
            Some(found) => Ok(Some(behind_function(found))),
        }
    } else {
        Ok(None)
    }
}

fn is_bad_var(alloc: Global, tokens: &[Token]) -> Result<bool, OutOfMemory>
    ensures { IfOk result (λ is. is ≡ is_bad_var tokens.now) }
{
    if begins_var(tokens) {
        match reference_at(alloc, tokens)? {
            None => Ok(true),
            Some(_) => Ok(false),
        }
    } else {
        Ok(false)
    }
}

/// The place of the first `var()` that is no reference.
pub fn bad_var(alloc: Global, tokens: &[Token]) -> Result<Option<usize>, OutOfMemory>
    ensures { IfOk result (λ place. place ≡ bad_var tokens.now) }
{
    let mut rest = tokens;
    let mut place = 0;
    'tokens: while let [_, after @ ..] = rest {
        if is_bad_var(alloc, rest)? {
            return Ok(Some(place));
        }
        rest = after;
        place += 1;
    }
    Ok(None)
}
