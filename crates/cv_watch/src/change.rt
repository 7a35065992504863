//! A change of a value.

ghost use Rattle.std.specs.Prelude.{◌≡◌, ◌++◌, ◌∷◌, [], IfOk, OnErr, OnOk};

use cv_spec_text::Name;
use std::alloc::AllocError;

/// What a property's value was on an element, and what it became: the texts of its name and of its outcomes, as the report writes them.
#[derive(Debug, Drop)]
pub struct Change {
    pub element: u32,
    pub name: Name,
    pub old: Name,
    pub new: Name,
}

fn copied(change: &Change) -> Result<Change, AllocError>
    ensures { IfOk result (λ copy. copy ≡ change.now) }
{
    Ok(Change {
        element: change.element,
        name: change.name.copy()?,
        old: change.old.copy()?,
        new: change.new.copy()?,
    })
}

/// Keeps one more change.
pub(crate) fn keep(changes: &mut Vec<Change>, change: &Change) -> Result<(), AllocError>
    ensures ok { OnOk result (changes.new.items ≡ changes.old.items ++ change.now ∷ []) }
    ensures err { OnErr result (changes.new.items ≡ changes.old.items) }
{
    let copy = copied(change)?;
    changes.push(copy)?;
    Ok(())
}
