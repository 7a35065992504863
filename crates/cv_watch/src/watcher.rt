//! The trait of watchers.

ghost use Rattle.std.specs.Prelude.{◌≡◌, ◌++◌, ◌∷◌, [], Bool, List, ℕ, OnErr, OnOk};
ghost use Rattle.cv_watch.specs.declared.change.Change as change;

use crate::change::Change;
use cv_spec_text::Name;
use std::alloc::AllocError;

/// What is told of the changes of a session, and writes something of them in the end.
pub trait Watcher: Drop {
    /// The changes that were told, in order.
    ghost seen: { Self → List change.Change };

    /// The bytes that belong to a list of changes.
    ghost text: { Self → List change.Change → List ℕ };

    /// Which names are wanted.
    ghost wanted: { Self → List ℕ → Bool };

    /// Whether the watcher wants to be told of changes of this name.
    fn wants(&self, name: &Name) -> bool
        ensures { result ≡ wanted self.now name.now };

    /// Tells a change.
    fn told(&mut self, change: &Change) -> Result<(), AllocError>
        ensures ok { OnOk result (seen self.new ≡ seen self.old ++ change.now ∷ []) }
        ensures err { OnErr result (seen self.new ≡ seen self.old) }
        ensures same_wanted { wanted self.new ≡ wanted self.old }
        ensures same_text { text self.new ≡ text self.old };

    /// Appends the text of what was told.
    fn report(&self, out: &mut Vec<u8>) -> Result<(), AllocError>
        ensures ok { OnOk result (out.new.items ≡ out.old.items ++ text self.now (seen self.now)) }
        ensures err { OnErr result (out.new.items ≡ out.old.items) };
}
