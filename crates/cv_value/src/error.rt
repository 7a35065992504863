//! The refusals.

use std::alloc::AllocError;

/// Why a list gives no typed value.
#[derive(Clone, Copy, Debug, PartialEq, Eq)]
pub enum ValueErr {
    /// It doesn't match.
    Mismatch,
    /// It matches, but a number in it or in its calculations is out of range.
    Range,
    /// There is no memory.
    Memory,
}

impl From<AllocError> for ValueErr {
    ghost use Rattle.std.specs.Prelude.{◌≡◌};
    ghost use Rattle.cv_value.specs.declared.error.ValueErr.TheVariants.{Memory};

    ghost from_gives = { λ _ e. e ≡ Memory };

    fn from(_error: AllocError) -> ValueErr {
        ValueErr::Memory
    }
}
