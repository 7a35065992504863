//! Why a rule or an item isn't kept.

use crate::note::Why;
use std::alloc::AllocError;

#[derive(Clone, Copy, Debug)]
pub(crate) enum Refusal {
    Ignored(Why),
    Memory,
}

impl From<AllocError> for Refusal {
    ghost use Rattle.std.specs.Prelude.{◌≡◌};
    ghost use Rattle.cv_props.specs.declared.refusal.Refusal.{Refusal};

    ghost from_gives = { λ _ refusal. refusal ≡ Refusal.Memory };

    fn from(_error: AllocError) -> Self {
        Refusal::Memory
    }
}
