//! What a property stands for.

ghost use Rattle.std.specs.Prelude.{◌≡◌, ◌++◌, IfOk, OnOk, OnErr};
ghost use Rattle.cv_spec_text.specs.Printing.{bytes};
ghost use Rattle.cv_valuation.specs.Valuations.{outcome_text, spaced};

use cv_spec_text::{Run, Token};
use cv_tokser::print;
use cv_value::{Typed, typed_tokens};
use std::alloc::{AllocError, Global};

/// What a property stands for: tokens; a typed value, which is computed; or the guaranteed-invalid value (Cascading Variables 1,
/// "Guaranteed-Invalid Values"; Properties and Values API 1, "Calculation of Computed Values").
#[derive(Drop)]
pub enum Outcome {
    Tokens(Run),
    Value(Typed),
    Invalid,
}

impl Outcome {
    /// The same outcome again.
    pub fn copy(&self, alloc: Global) -> Result<Self, AllocError>
        ensures { IfOk result (λ outcome. outcome ≡ self.now) }
    {
        match self {
            Outcome::Tokens(run) => Ok(Outcome::Tokens(run.share()?)),
            Outcome::Value(value) => Ok(Outcome::Value(value.copy(alloc)?)),
            Outcome::Invalid => Ok(Outcome::Invalid),
        }
    }
}

/// Adds the outcome as the report writes it: `invalid`, or `=` and behind a space the tokens if there are any.
pub fn outcome_text(alloc: Global, outcome: &Outcome, out: &mut Vec<u8>) -> Result<(), AllocError>
    ensures ok { OnOk result (out.new.items ≡ out.old.items ++ outcome_text outcome.now) }
    ensures err { OnErr result (out.new.items ≡ out.old.items) }
{
    let text = text_of(alloc, outcome)?;
    out.extend_from_slice(&text)
}

fn text_of(alloc: Global, outcome: &Outcome) -> Result<Vec<u8>, AllocError>
    ensures { IfOk result (λ text. text.items ≡ outcome_text outcome.now) }
{
    let mut text = Vec::new(alloc);
    match outcome {
        Outcome::Tokens(run) => {
            text.extend_from_slice(b"=")?;
            push_spaced(alloc, run.tokens(), &mut text)?;
        }
        Outcome::Value(value) => {
            text.extend_from_slice(b"=")?;
            push_spaced(alloc, &typed_tokens(alloc, value)?, &mut text)?;
        }
        Outcome::Invalid => text.extend_from_slice(b"invalid")?,
    }
    Ok(text)
}

// Adds a space and the text of the tokens, and nothing where that is empty.
fn push_spaced(alloc: Global, tokens: &[Token], text: &mut Vec<u8>) -> Result<(), AllocError>
    ensures { OnOk result (text.new.items ≡ text.old.items ++ spaced (bytes tokens.now)) }
{
    let mut printed = Vec::new(alloc);
    print(alloc, tokens, &mut printed)?;
    if printed.is_empty() {
        return Ok(());
    }
    text.push(b' ')?;
    text.extend_from_slice(&printed)
}
