//! A watcher that runs out of memory.

ghost use Rattle.std.specs.Prelude.{◌≡◌, ◌++◌, ◌∷◌, ◌≤◌, [], List, ℕ, true, length, IsErr, OnErr, OnOk};
ghost use Rattle.cv_watch.specs.declared.change.Change as change;
ghost use Rattle.cv_watch.specs.Texts.{refuser_text};

use crate::change::{Change, keep};
use crate::watcher::Watcher;
use cv_spec_text::Name;
use std::alloc::{AllocError, Global};

/// Wants every name, keeps the first changes, and has no memory for any further one. It writes how many it kept, as `refuser 3`.
#[derive(Drop)]
pub struct Refuser {
    alloc: Global,
    /// How many changes it keeps.
    pub after: u64,
    /// Those that it has kept.
    pub changes: Vec<Change>,
}

impl Refuser {
    /// A watcher that was told nothing, and keeps so many changes.
    pub fn new(alloc: Global, after: u64) -> Self
        ensures seen { ⟦<Refuser as Watcher>⟧.seen result ≡ [] }
        ensures text { (changes : List change.Change) → ⟦<Refuser as Watcher>⟧.text result changes ≡ refuser_text changes }
        ensures wanted { (name : List ℕ) → ⟦<Refuser as Watcher>⟧.wanted result name ≡ true }
        ensures after { result.after ≡ after }
        ensures none { result.changes.items ≡ [] }
    {
        Refuser {
            alloc,
            after,
            changes: Vec::new(alloc),
        }
    }
}

impl Watcher for Refuser {
    ghost seen = { λ refuser. refuser.changes.items };

    ghost text = { λ _ changes. refuser_text changes };

    ghost wanted = { λ _ _. true };

    fn wants(&self, _name: &Name) -> bool {
        true
    }

    fn told(&mut self, change: &Change) -> Result<(), AllocError>
        ensures ok { OnOk result (self.new.changes.items ≡ self.old.changes.items ++ change.now ∷ []) }
        ensures err { OnErr result (self.new.changes.items ≡ self.old.changes.items) }
        ensures full { self.old.after ≤ length self.old.changes.items → IsErr result }
        ensures same_after { self.new.after ≡ self.old.after }
        ensures same_wanted { ⟦<Refuser as Watcher>⟧.wanted self.new ≡ ⟦<Refuser as Watcher>⟧.wanted self.old }
        ensures same_text { ⟦<Refuser as Watcher>⟧.text self.new ≡ ⟦<Refuser as Watcher>⟧.text self.old }
    {
        if self.after <= self.changes.len() as u64 {
            return Err(AllocError);
        }
        keep(&mut self.changes, change)
    }

    fn report(&self, out: &mut Vec<u8>) -> Result<(), AllocError> {
        let count = self.changes.len();
        let line = format!(in self.alloc; "refuser {count}\n")?;
        out.extend_from_slice(line.as_bytes())
    }
}
