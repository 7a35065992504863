//! Lists of tokens, copied.

ghost use Rattle.std.specs.Prelude.{◌≡◌, ◌++◌, IfOk, OnOk};

use crate::Token;
use std::alloc::{AllocError, Global};

/// Adds the tokens at the end.
pub fn push_tokens(all: &mut Vec<Token>, tokens: &[Token]) -> Result<(), AllocError>
    ensures { OnOk result (all.new.items ≡ all.old.items ++ tokens.now) }
{
    for token in tokens {
        all.push(token.copy()?)?;
    }
    Ok(())
}

/// The tokens again.
pub fn copy_tokens(alloc: Global, tokens: &[Token]) -> Result<Vec<Token>, AllocError>
    ensures { IfOk result (λ all. all.items ≡ tokens.now) }
{
    let mut all = Vec::with_capacity(alloc, tokens.len())?;
    push_tokens(&mut all, tokens)?;
    Ok(all)
}
