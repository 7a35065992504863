//! The refusals.

use std::alloc::AllocError;

/// Why there is no numeric value.
#[derive(Clone, Copy, Debug, PartialEq, Eq)]
pub enum OmErr {
    /// The text isn't one number or math function.
    Syntax,
    /// The types don't fit.
    BadType,
    /// 0 is inverted.
    RangeError,
    /// A fraction or a power is out of bounds.
    Range,
    /// There is no memory.
    Memory,
}

impl From<AllocError> for OmErr {
    ghost use Rattle.std.specs.Prelude.{◌≡◌};
    ghost use Rattle.cv_om.specs.declared.error.OmErr.TheVariants.{Memory};

    ghost from_gives = { λ _ e. e ≡ Memory };

    fn from(_error: AllocError) -> OmErr {
        OmErr::Memory
    }
}
