//! Children from the last to the first, so that each can be taken from the end at once.

ghost use Rattle.std.specs.Prelude.{◌≡◌, IfOk, reverse};

use cv_calc::Calc;
use sqlite_items::Items;
use std::alloc::{AllocError, Global};

/// The children in the reverse order.
pub(crate) fn reversed(alloc: Global, mut children: Items<Calc>) -> Result<Items<Calc>, AllocError>
    ensures { IfOk result (λ cs. cs ≡ reverse children) }
{
    let mut reversed = Items::new(alloc);
    while let Some(child) = children.pop() {
        reversed.push(child)?;
    }
    Ok(reversed)
}
