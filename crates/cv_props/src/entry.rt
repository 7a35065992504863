//! What is registered of a custom property.

ghost use Rattle.std.specs.Prelude.{◌≡◌, IfOk};

use cv_syntax::Syntax;
use cv_valuation::Outcome;
use std::alloc::{AllocError, Global};

/// What is registered of a custom property: its syntax, whether it inherits, and its initial value, computed (Properties and Values
/// API 1, "The @property Rule").
#[derive(Drop)]
pub struct Entry {
    pub syntax: Syntax,
    pub inherits: bool,
    pub initial: Outcome,
}

impl Entry {
    /// The same entry again.
    pub fn copy(&self, alloc: Global) -> Result<Self, AllocError>
        ensures { IfOk result (λ entry. entry ≡ self.now) }
    {
        Ok(Entry {
            syntax: self.syntax.copy(alloc)?,
            inherits: self.inherits,
            initial: self.initial.copy(alloc)?,
        })
    }
}
