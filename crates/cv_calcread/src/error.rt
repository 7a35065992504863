//! The refusals.

use cv_calc::NumType;
use std::alloc::AllocError;

/// Why a list isn't read as a calculation.
#[derive(Clone, Copy, Debug)]
pub enum CalcErr {
    /// The list isn't one math function, or a unit in it isn't known.
    NoCalc,
    /// The types of its parts don't fit.
    NoType,
    /// A number is out of range, or a divisor that is made of numbers alone is.
    Range {
        /// The place of the first such number in the list, and where there is none the place at which the first such divisor begins.
        place: usize,
        /// The type of the calculation.
        kind: NumType,
        /// Whether the calculation is linear.
        linear: bool,
    },
    /// A divisor that is made of numbers alone is 0, with the place at which the first such divisor begins.
    DivZero(usize),
    /// There is no memory.
    Memory,
}

impl From<AllocError> for CalcErr {
    ghost use Rattle.std.specs.Prelude.{◌≡◌};
    ghost use Rattle.cv_calcread.specs.declared.error.CalcErr.TheVariants.{Memory};

    ghost from_gives = { λ _ e. e ≡ Memory };

    fn from(_error: AllocError) -> CalcErr {
        CalcErr::Memory
    }
}
