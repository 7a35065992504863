//! The causes of an element's faults by key.

ghost use Rattle.std.specs.Prelude.{◌≡◌, [], ◌∷◌, ◌++◌, IfOk, OnOk};
ghost use Rattle.std.specs.Option.{option_copied};
ghost use Rattle.cv_valuation.specs.declared.key.Key as keys;
ghost use Rattle.cv_report.specs.Report.{cause_of};

use cv_props::{Cause, Key};
use indexmap::IndexMap;
use std::alloc::{AllocError, Global};
use std::marker::Model;

/// The causes of an element's faults, found by key without going through the faults. Contracts see the list of keys and causes.
#[derive(Drop)]
pub struct Causes {
    first: IndexMap<Key, Cause>,
}

impl Model for Causes {
    ghost use Rattle.std.specs.Prelude.{List};
    ghost use Rattle.cv_valuation.specs.declared.computed.Cause.{Cause};
    ghost use Rattle.cv_valuation.specs.declared.key.Key.{Key};

    ghost Value = { List (Key × Cause) };

    ghost view = { λ causes. causes.first.entries };
}

impl Causes {
    /// The causes of these faults: of more than one for a key the first counts. Without faults nothing is allocated.
    pub fn of(alloc: Global, faults: &[(Key, Cause)]) -> Result<Self, AllocError>
        ensures { IfOk result (λ causes. (key : keys.Key) → cause_of key causes ≡ cause_of key faults.now) }
    {
        let mut first = IndexMap::new(alloc);
        for (key, cause) in faults {
            add(&mut first, key, cause)?;
        }
        Ok(Causes { first })
    }

    /// The cause for which the key is bad, if it is.
    pub fn get(&self, key: &Key) -> Option<&Cause>
        ensures { option_copied result ≡ cause_of key.now self.now }
    {
        self.first.get(key)
    }
}

// Adds a copy of one more fault, unless its key has a cause already.
fn add(first: &mut IndexMap<Key, Cause>, key: &Key, cause: &Cause) -> Result<(), AllocError>
    ensures { OnOk result ((other : keys.Key) → cause_of other first.new.entries ≡ cause_of other (first.old.entries ++ (key.now, cause.now) ∷ [])) }
{
    if first.contains_key(key) {
        return Ok(());
    }
    first.insert(key.copy()?, cause.copy()?)?;
    Ok(())
}
