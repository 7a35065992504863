//! A watcher that writes how many changes there were.

ghost use Rattle.std.specs.Prelude.{◌≡◌, [], List, ℕ};
ghost use Rattle.cv_spec_text.specs.Keywords.{is_custom};
ghost use Rattle.cv_watch.specs.declared.change.Change as change;
ghost use Rattle.cv_watch.specs.Texts.{tally_text};

use crate::change::{Change, keep};
use crate::watcher::Watcher;
use cv_spec_text::Name;
use std::alloc::{AllocError, Global};

/// Wants the names of custom properties, and writes how many changes there were, as `changes 3`.
#[derive(Drop)]
pub struct Tally {
    alloc: Global,
    changes: Vec<Change>,
}

impl Tally {
    /// A watcher that was told nothing.
    pub fn new(alloc: Global) -> Self
        ensures seen { ⟦<Tally as Watcher>⟧.seen result ≡ [] }
        ensures text { (changes : List change.Change) → ⟦<Tally as Watcher>⟧.text result changes ≡ tally_text changes }
        ensures wanted { (name : List ℕ) → ⟦<Tally as Watcher>⟧.wanted result name ≡ is_custom name }
    {
        Tally {
            alloc,
            changes: Vec::new(alloc),
        }
    }
}

impl Watcher for Tally {
    ghost seen = { λ tally. tally.changes.items };

    ghost text = { λ _ changes. tally_text changes };

    ghost wanted = { λ _ name. is_custom name };

    fn wants(&self, name: &Name) -> bool {
        name.is_custom()
    }

    fn told(&mut self, change: &Change) -> Result<(), AllocError> {
        keep(&mut self.changes, change)
    }

    fn report(&self, out: &mut Vec<u8>) -> Result<(), AllocError> {
        let count = self.changes.len();
        let line = format!(in self.alloc; "changes {count}\n")?;
        out.extend_from_slice(line.as_bytes())
    }
}
