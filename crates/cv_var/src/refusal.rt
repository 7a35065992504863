//! The check of a declared list.

ghost use Rattle.std.specs.Prelude.{◌≡◌, ◌⊎◌, ◌<◌, OnOk, IfErr, IsErrOf};
ghost use Rattle.cv_component.specs.Nesting.{depth};
ghost use Rattle.cv_var.specs.Checked.{IsChecked, IsCause};
ghost use Rattle.cv_var.specs.declared.refusal.VarErr.{VarErr};

use crate::reference::bad_var;
use crate::value::bad_place;
use cv_component::is_too_deep;
use cv_spec_text::{OutOfMemory, Token};
use std::alloc::Global;

/// Why a list is refused.
#[derive(Clone, Copy, Debug, PartialEq, Eq)]
pub enum VarErr {
    /// It is nested deeper than 128.
    TooDeep,
    /// At this place stands the first token that may not stand in a declaration value.
    BadValue(usize),
    /// At this place stands the first `var(` that begins no reference.
    BadVar(usize),
    /// Memory was refused.
    Memory,
}

impl From<OutOfMemory> for VarErr {
    ghost use Rattle.std.specs.Prelude.{◌≡◌};
    ghost use Rattle.cv_var.specs.declared.refusal.VarErr.{VarErr};

    ghost from_gives = { λ _ e. e ≡ VarErr.Memory };

    fn from(_error: OutOfMemory) -> Self {
        VarErr::Memory
    }
}

/// Tests a list against the rules of a declared one. The depth comes first, so that nothing behind it meets a deeper list.
pub fn check_tokens(alloc: Global, tokens: &[Token]) -> Result<(), VarErr>
    ensures ok { OnOk result (IsChecked tokens.now) }
    ensures too_deep { 128 < depth tokens.now → IsErrOf result VarErr.TooDeep }
    ensures err { IfErr result (λ refusal. (refusal ≡ VarErr.Memory) ⊎ IsCause tokens.now refusal) }
{
    if is_too_deep(tokens) {
        return Err(VarErr::TooDeep);
    }
    if let Some(place) = bad_place(alloc, tokens)? {
        return Err(VarErr::BadValue(place));
    }
    if let Some(place) = bad_var(alloc, tokens)? {
        return Err(VarErr::BadVar(place));
    }
    Ok(())
}
