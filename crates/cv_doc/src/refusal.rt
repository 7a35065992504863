//! Why a document is refused.

ghost use Rattle.std.specs.Prelude.{◌≡◌, IfOk};
ghost use Rattle.cv_doc.specs.Refusals.{IsFieldOf};
ghost use Rattle.cv_doc.specs.declared.refusal.DocErr.TheVariants.{Memory};

use cv_spec_text::Name;
use std::alloc::{AllocError, Global};

/// A part of a document that is counted.
#[derive(Clone, Copy, Debug, PartialEq, Eq)]
pub enum What {
    Bytes,
    Elements,
    Show,
    Commands,
    Names,
}

/// What is wrong with a document.
#[derive(Debug, PartialEq, Eq, Drop)]
pub enum BadDoc {
    /// The bytes are no UTF-8, are no JSON, or are nested deeper than 127.
    NotJson,
    /// The member with this path, as `elements/3/style`, is of a wrong kind, or is missing. The empty path is the whole.
    Field(Name),
    /// The parent of this element isn't null at element 0, or an index below its own elsewhere.
    BadParent(u32),
    /// The viewport has no width and height that are whole numbers up to 1000000.
    BadViewport,
}

/// Why there is no document.
#[derive(Debug, PartialEq, Eq, Drop)]
pub enum DocErr {
    Bad(BadDoc),
    /// A part has more items than a document may have.
    TooMany(What),
    /// There is no memory.
    Memory,
}

impl From<AllocError> for DocErr {
    ghost from_gives = { λ _ e. e ≡ Memory };

    fn from(_: AllocError) -> DocErr {
        DocErr::Memory
    }
}

/// The refusal of a path.
pub fn field(alloc: Global, path: &str) -> Result<DocErr, AllocError>
    ensures { IfOk result (λ e. IsFieldOf path.now e) }
{
    Ok(DocErr::Bad(BadDoc::Field(Name::of(alloc, path)?)))
}
