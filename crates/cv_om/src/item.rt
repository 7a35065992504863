//! An item of a sum value.

ghost use Rattle.std.specs.Prelude.{◌≡◌, IfOk};

use cv_calc::Unit;
use cv_frac::Frac;
use sqlite_items::Items;
use std::alloc::{AllocError, Global};

/// A fraction with the units of a product, each with its power (CSS Typed OM 1, "Common Numeric Operations, and the CSSNumericValue
/// Superclass").
#[derive(Drop)]
pub struct SumItem {
    pub value: Frac,
    pub units: Items<(Unit, i64)>,
}

impl SumItem {
    /// The same item once more.
    pub fn copy(&self, alloc: Global) -> Result<SumItem, AllocError>
        ensures { IfOk result (λ item. item ≡ self.now) }
    {
        Ok(SumItem {
            value: self.value,
            units: Items::from_slice(alloc, self.units.as_slice())?,
        })
    }
}
