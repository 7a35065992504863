//! The refusals.

use std::alloc::AllocError;

/// Why there is no object for a declaration.
#[derive(Clone, Copy, Debug, PartialEq, Eq)]
pub enum ReifyErr {
    /// A number in it is out of range, or a divisor that is made of numbers alone is.
    Range,
    /// There is no memory.
    Memory,
}

impl From<AllocError> for ReifyErr {
    ghost use Rattle.std.specs.Prelude.{◌≡◌};
    ghost use Rattle.cv_reify.specs.declared.error.ReifyErr.TheVariants.{Memory};

    ghost from_gives = { λ _ e. e ≡ Memory };

    fn from(_error: AllocError) -> ReifyErr {
        ReifyErr::Memory
    }
}
