//! A watcher that writes each change.

ghost use Rattle.std.specs.Prelude.{◌≡◌, [], List, ℕ, true, IfOk};
ghost use Rattle.cv_watch.specs.declared.change.Change as change;
ghost use Rattle.cv_watch.specs.Texts.{trail_text};

use crate::change::{Change, keep};
use crate::lines::push_change;
use crate::watcher::Watcher;
use cv_spec_text::Name;
use std::alloc::{AllocError, Global};

/// Wants every name, and writes a line for each change, as `1 --b: = 1px -> = 2px`.
#[derive(Drop)]
pub struct Trail {
    alloc: Global,
    changes: Vec<Change>,
}

impl Trail {
    /// A watcher that was told nothing.
    pub fn new(alloc: Global) -> Self
        ensures seen { ⟦<Trail as Watcher>⟧.seen result ≡ [] }
        ensures text { (changes : List change.Change) → ⟦<Trail as Watcher>⟧.text result changes ≡ trail_text changes }
        ensures wanted { (name : List ℕ) → ⟦<Trail as Watcher>⟧.wanted result name ≡ true }
    {
        Trail {
            alloc,
            changes: Vec::new(alloc),
        }
    }
}

impl Watcher for Trail {
    ghost seen = { λ trail. trail.changes.items };

    ghost text = { λ _ changes. trail_text changes };

    ghost wanted = { λ _ _. true };

    fn wants(&self, _name: &Name) -> bool {
        true
    }

    fn told(&mut self, change: &Change) -> Result<(), AllocError> {
        keep(&mut self.changes, change)
    }

    fn report(&self, out: &mut Vec<u8>) -> Result<(), AllocError> {
        let text = trail_of(self.alloc, &self.changes)?;
        out.extend_from_slice(&text)
    }
}

fn trail_of(alloc: Global, changes: &[Change]) -> Result<Vec<u8>, AllocError>
    ensures { IfOk result (λ text. text.items ≡ trail_text changes.now) }
{
    let mut text = Vec::new(alloc);
    for change in changes {
        push_change(&mut text, change)?;
    }
    Ok(text)
}
