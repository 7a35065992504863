//! Why a list isn't substituted.

ghost use Rattle.std.specs.Prelude.{◌≡◌};

use cv_spec_text::{Name, OutOfMemory};

/// Why a list isn't substituted.
#[derive(Debug, PartialEq, Eq, Drop)]
pub enum SubstErr {
    /// A reference to this name has neither a value nor a fallback.
    Missing(Name),
    /// The list has this many tokens, which are more than the limit.
    OverLimit(u128),
    /// Memory was refused.
    Memory,
}

impl From<OutOfMemory> for SubstErr {
    ghost use Rattle.std.specs.Prelude.{◌≡◌};
    ghost use Rattle.cv_subst.specs.declared.refusal.SubstErr.{SubstErr};

    ghost from_gives = { λ _ e. e ≡ SubstErr.Memory };

    fn from(_error: OutOfMemory) -> Self {
        SubstErr::Memory
    }
}
