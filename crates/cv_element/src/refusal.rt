//! Why an element isn't computed.

ghost use Rattle.std.specs.Prelude.{◌≡◌};

use cv_props::Key;
use cv_spec_text::OutOfMemory;

/// Why an element isn't computed.
#[derive(Debug, Drop)]
pub enum ElemErr {
    /// The property isn't invalid, and its value is out of range.
    Range(Key),
    /// Memory was refused.
    Memory,
}

impl From<OutOfMemory> for ElemErr {
    ghost use Rattle.std.specs.Prelude.{◌≡◌};
    ghost use Rattle.cv_element.specs.declared.refusal.ElemErr.{ElemErr};

    ghost from_gives = { λ _ e. e ≡ ElemErr.Memory };

    fn from(_error: OutOfMemory) -> Self {
        ElemErr::Memory
    }
}
