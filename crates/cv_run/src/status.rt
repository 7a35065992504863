//! How a run ended.

ghost use Rattle.std.specs.Prelude.{◌≡◌};
ghost use Rattle.cv_run.specs.StatusLines.{code_of};
ghost use Rattle.cv_run.specs.declared.status.Status.TheVariants.{NoMemory};

use cv_doc::{BadDoc, What};
use cv_props::Key;
use std::alloc::AllocError;

#[derive(Debug, PartialEq, Eq, Drop)]
pub enum Status {
    /// All of the report was written.
    Done,
    /// The words aren't taken.
    Usage,
    /// A read failed.
    ReadFault,
    /// There is more than there may be of this part.
    TooLarge(What),
    /// The document is refused.
    Malformed(BadDoc),
    /// On this element, the first such, this property isn't invalid and is out of range.
    Range {
        /// The index of the element.
        element: u32,
        /// One of its properties that are out of range.
        property: Key,
    },
    /// A write failed; a front of the report was written.
    WriteFault,
    /// Memory ran out; a front of the report was written.
    NoMemory,
}

impl Status {
    /// The exit number.
    pub fn code(&self) -> u8
        ensures { result ≡ code_of self.now }
    {
        match self {
            Status::Done => 0,
            Status::Usage => 2,
            Status::ReadFault => 3,
            Status::TooLarge(_) => 4,
            Status::Malformed(_) => 5,
            Status::Range { .. } => 6,
            Status::WriteFault => 7,
            Status::NoMemory => 8,
        }
    }
}

impl From<AllocError> for Status {
    ghost from_gives = { λ _ status. status ≡ NoMemory };

    fn from(_: AllocError) -> Status {
        Status::NoMemory
    }
}
