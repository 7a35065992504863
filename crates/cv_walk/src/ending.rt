//! How it is found where the elements of a tree end.

ghost use Rattle.std.specs.Prelude.{◌≡◌, ◌+◌, ◌<◌, EachIndex, IfOk, length, slice_index};
ghost use Rattle.cv_doc.specs.Kept.{IsParentOf, IsTree};
ghost use Rattle.cv_walk.specs.Extents.{AreExtents, raised};

use crate::extent::Extents;
use cv_doc::Elem;
use std::alloc::{AllocError, Global};

// Ends of so many elements, each right behind itself.
fn own_ends(alloc: Global, count: usize) -> Result<Vec<usize>, AllocError>
    ensures count { IfOk result (λ ends. length ends.items ≡ count) }
    ensures own { IfOk result (λ ends. EachIndex ends.items (λ i. slice_index ends.items i ≡ i + 1)) }
{
    let mut ends = Vec::new(alloc);
    for index in 0..count {
        ends.push(index + 1)?;
    }
    Ok(ends)
}

// The element with this index ends, and its parent no earlier.
fn raise(ends: &mut [usize], index: usize, parent: Option<u32>)
    requires there { index < length ends.old }
    requires earlier { IsParentOf index parent }
    ensures { ends.new ≡ raised ends.old index parent }
{
    if let Some(parent) = parent {
        let end = ends[index];
        if ends[parent as usize] < end {
            ends[parent as usize] = end;
        }
    }
}

/// The extents of these elements, in one pass from the last to the first.
pub fn extents(alloc: Global, elements: &[Elem]) -> Result<Extents, AllocError>
    requires { IsTree elements.now }
    ensures { IfOk result (AreExtents elements.now) }
{
    let mut ends = own_ends(alloc, elements.len())?;
    let mut index = elements.len();
    while index > 0 {
        index -= 1;
        raise(&mut ends, index, elements[index].parent);
    }
    Ok(Extents { ends })
}
