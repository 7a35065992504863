//! The values of an element, with the causes of those that are bad.

ghost use Rattle.std.specs.Prelude.{◌≡◌, IfOk};

use crate::key::Key;
use crate::valuation::Valuation;
use cv_spec_text::Name;
use sqlite_items::Items;
use std::alloc::{AllocError, Global};

/// Why a declared property is invalid at computed-value time (Cascading Variables 1, "Invalid Variables",
/// "Resolving Dependency Cycles" and "Safely Handling Overly-Long Variables"; Properties and Values API 1, "Calculation of Computed Values").
#[derive(Debug, Drop)]
pub enum Cause {
    /// It depends on itself.
    Cycle,
    /// It refers to a property without a value, and has no fallback there.
    Missing(Name),
    /// Its list has more tokens than the limit: this many.
    Limit(u128),
    /// Its list doesn't match its syntax or grammar.
    Mismatch,
}

impl Cause {
    /// The same cause again.
    pub fn copy(&self) -> Result<Self, AllocError>
        ensures { IfOk result (λ cause. cause ≡ self.now) }
    {
        match self {
            Cause::Cycle => Ok(Cause::Cycle),
            Cause::Missing(name) => Ok(Cause::Missing(name.copy()?)),
            Cause::Limit(length) => Ok(Cause::Limit(*length)),
            Cause::Mismatch => Ok(Cause::Mismatch),
        }
    }
}

/// The values of an element, and the declared properties that are bad, by the byte order of their names.
#[derive(Drop)]
pub struct Computed {
    pub values: Valuation,
    pub faults: Items<(Key, Cause)>,
}

impl Computed {
    /// The same values and causes again.
    pub fn copy(&self) -> Result<Self, AllocError>
        ensures { IfOk result (λ computed. computed ≡ self.now) }
    {
        Ok(Computed {
            values: self.values.copy()?,
            faults: copied(self.values.allocator(), self.faults.as_slice())?,
        })
    }
}

fn copied(alloc: Global, faults: &[(Key, Cause)]) -> Result<Items<(Key, Cause)>, AllocError>
    ensures { IfOk result (λ all. all ≡ faults.now) }
{
    let mut all = Items::new(alloc);
    for (key, cause) in faults {
        all.push((key.copy()?, cause.copy()?))?;
    }
    Ok(all)
}
