//! Which elements a walk steps.

ghost use Rattle.std.specs.Prelude.{◌≡◌, ◌+◌, ◌-◌, ◌<◌, ◌≤◌, ◌∷◌, ◌++◌, [], true, drop, length, IfOk, OnOk};
ghost use Rattle.cv_walk.specs.Marked.{is_below, unmarked};
ghost use Rattle.cv_walk.specs.Subtrees.{stepped, subtree};

use cv_doc::Elem;
use std::alloc::{AllocError, Global};

// Whether the parent is marked, where the first mark is that of the element with index `start`.
fn is_below(start: u32, marks: &[bool], parent: Option<u32>) -> bool
    ensures { result ≡ is_below start marks.now parent }
{
    match parent {
        Some(parent) => {
            if parent < start {
                return false;
            }
            match marks.get((parent - start) as usize) {
                Some(mark) => *mark,
                None => false,
            }
        }
        None => false,
    }
}

// Marks the element at this place, and none between the last that is marked and it.
fn mark(marks: &mut Vec<bool>, place: usize) -> Result<(), AllocError>
    requires { length marks.old.items ≤ place }
    ensures { OnOk result (marks.new.items ≡ marks.old.items ++ unmarked (place - length marks.old.items) ++ true ∷ []) }
{
    while marks.len() < place {
        marks.push(false)?;
    }
    marks.push(true)?;
    Ok(())
}

/// Of the element with index `start` and each behind it, whether it is that one or a descendant of it, as far as one is.
pub(crate) fn marked(alloc: Global, elements: &[Elem], start: u32) -> Result<Vec<bool>, AllocError>
    requires { start < length elements.now }
    ensures { IfOk result (λ marks. stepped start (drop start elements.now) marks.items ≡ subtree start elements.now) }
{
    let mut marks = Vec::new(alloc);
    marks.push(true)?;
    let mut rest = &elements[start as usize + 1..];
    let mut place = 1usize;
    while let Some((element, after)) = rest.split_first() {
        if is_below(start, &marks, element.parent) {
            mark(&mut marks, place)?;
        }
        place += 1;
        rest = after;
    }
    Ok(marks)
}
