//! What a list is by a syntax.

ghost use Rattle.std.specs.Prelude.{◌≡◌, All, IfOk, Err};
ghost use Rattle.cv_spec_text.specs.Splits.{IsSpelt};
ghost use Rattle.cv_value.specs.Matching as matching;

use crate::error::ValueErr;
use crate::many::component;
use crate::parts::parts_for;
use crate::typed::Typed;
use cv_calc::Context;
use cv_component::is_too_deep;
use cv_numeric::Matched;
use cv_spec_text::Token;
use cv_syntax::{Component, Syntax};
use std::alloc::{AllocError, Global};

/// What a list is by the first component that it matches.
fn first_matching(
    alloc: Global,
    components: &[Component],
    tokens: &[Token],
    x: &Context,
) -> Result<Matched<Typed>, AllocError>
    ensures { IfOk result (λ o. o ≡ matching.components x.now tokens.now components.now) }
{
    let parts = parts_for(alloc, components, tokens)?;
    for next in components {
        match component(alloc, next, tokens, &parts, x)? {
            Matched::No => {}
            other => return Ok(other),
        }
    }
    Ok(Matched::No)
}

/// What a list is by a syntax.
#[tactic(auto, unfolding(crate::specs::Matching::matching))]
fn matched(
    alloc: Global,
    syntax: &Syntax,
    tokens: &[Token],
    x: &Context,
) -> Result<Matched<Typed>, AllocError>
    ensures { IfOk result (λ o. o ≡ matching.matching syntax.now x.now tokens.now) }
{
    if is_too_deep(tokens) {
        return Ok(Matched::No);
    }
    match syntax {
        Syntax::Any => Ok(Matched::No),
        Syntax::Of(components) => first_matching(alloc, components.as_slice(), tokens, x),
    }
}

/// The typed value of a list by a syntax, as `1px, 96px` for `1px, 1in` by `<length>#` (Properties and Values API 1, "Syntax Strings",
/// "Calculation of Computed Values"). The first component that the list matches counts. A list that is nested deeper than 128 matches
/// none. The basis of percentages that the context gives isn't used: each component sets its own.
///
/// # Errors
///
/// `Mismatch` where the list matches no component; `Range` where it matches one, but a number in it or in its calculations is out of
/// range; `Memory`.
pub fn match_syntax(
    alloc: Global,
    syntax: &Syntax,
    tokens: &[Token],
    x: &Context,
) -> Result<Typed, ValueErr>
    requires typed { syntax.now ≡ Syntax.Any → ⊥ }
    requires spelt { All IsSpelt tokens.now }
    ensures ok { IfOk result (λ v. matching.matching syntax.now x.now tokens.now ≡ Matched.Fit v) }
    ensures mismatch { result ≡ Err ValueErr.Mismatch → matching.matching syntax.now x.now tokens.now ≡ Matched.No }
    ensures range { result ≡ Err ValueErr.Range → matching.matching syntax.now x.now tokens.now ≡ Matched.Out }
{
    match matched(alloc, syntax, tokens, x)? {
        Matched::Fit(value) => Ok(value),
        Matched::Out => Err(ValueErr::Range),
        Matched::No => Err(ValueErr::Mismatch),
    }
}
