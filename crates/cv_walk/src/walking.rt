//! A walk over an element and its descendants.

ghost use Rattle.std.specs.Prelude.{◌≡◌, ◌≤◌, ◌+◌, ◌<◌, length, vec_len};
ghost use Rattle.cv_doc.specs.Kept.{IsTree};
ghost use Rattle.cv_walk.specs.Extents.{AreExtents};
ghost use Rattle.cv_walk.specs.Subtrees.{stepped, subtree};
ghost use Rattle.cv_walk.specs.Walks.{AreReadyOver, ReachesOver, Walked};

use crate::extent::Extents;
use crate::marks::marked;
use cv_doc::{Elem, Step};
use std::alloc::Global;

/// Why a walk ends before its last element.
#[derive(Drop)]
pub enum WalkErr<E> {
    /// A step says so.
    Stop(E),
    /// There is no memory; no step was made.
    Memory,
}

/// Steps the element with this index, and then each descendant of it once, by index, and ends at the first that says to stop. No element
/// behind the last descendant is looked at.
pub fn walk_from<S: Step>(
    alloc: Global,
    elements: &Vec<Elem>,
    extents: &Extents,
    start: u32,
    step: &mut S,
) -> Result<(), WalkErr<S::Stop>>
    requires there { start < length elements.now.items }
    requires tree { IsTree elements.now.items }
    requires room { vec_len elements.now ≤ 4294967287 }
    requires extents { AreExtents elements.now.items extents.now }
    requires ready { AreReadyOver S.ready S.gives (subtree start elements.now.items) step.old }
    ensures { Walked S.gives (subtree start elements.now.items) step.old result step.new }
{
    let near = up_to(elements, extents, start);
    let marks = match marked(alloc, near, start) {
        Ok(marks) => marks,
        Err(_) => return Err(WalkErr::Memory),
    };
    match step_marked(&near[start as usize..], &marks, start, step) {
        Ok(()) => Ok(()),
        Err(stop) => Err(WalkErr::Stop(stop)),
    }
}

// The elements before the end of the one with this index.
fn up_to<'a>(elements: &'a [Elem], extents: &Extents, start: u32) -> &'a [Elem]
    requires there { start < length elements.now }
    requires extents { AreExtents elements.now extents.now }
    ensures there { start < length result.now }
    ensures few { length result.now ≤ length elements.now }
    ensures same { subtree start result.now ≡ subtree start elements.now }
{
    &elements[..extents.end(start as usize)]
}

// Steps the marked elements, by index, where these are the ones from index `start` on.
fn step_marked<S: Step>(
    elements: &[Elem],
    marks: &[bool],
    start: u32,
    step: &mut S,
) -> Result<(), S::Stop>
    requires room { start + length elements.now ≤ 4294967287 }
    requires ready { AreReadyOver S.ready S.gives (stepped start elements.now marks.now) step.old }
    ensures { ReachesOver S.gives (stepped start elements.now marks.now) step.old result step.new }
{
    let mut rest = elements;
    let mut left = marks;
    let mut index = start;
    while let Some((element, after)) = rest.split_first() {
        let Some((mark, others)) = left.split_first() else {
            return Ok(());
        };
        if *mark {
            step.step(index, element.parent)?;
        }
        index += 1;
        rest = after;
        left = others;
    }
    Ok(())
}
