//! The refusals.

use std::alloc::AllocError;

/// Why a call is refused.
#[derive(Clone, Copy, Debug, PartialEq, Eq)]
pub enum MapErr {
    /// The name is neither that of a custom property nor that of an ordinary one.
    NoProperty,
    /// The property may not be declared so.
    BadValue,
    /// The values of the property aren't lists.
    NotList,
    /// There is no memory.
    Memory,
}

impl From<AllocError> for MapErr {
    ghost use Rattle.std.specs.Prelude.{◌≡◌};
    ghost use Rattle.cv_map.specs.declared.error.MapErr.TheVariants.{Memory};

    ghost from_gives = { λ _ error. error ≡ Memory };

    fn from(_error: AllocError) -> Self {
        MapErr::Memory
    }
}
