//! What references stand for.

ghost use Rattle.std.specs.Prelude.{◌≡◌, ◌≢◌, ℕ, List, None, Some, OnOk, OnErr, option_map};
ghost use Rattle.std.specs.Option.{option_copied};
ghost use Rattle.cv_subst.specs.Values.{value_in};

use cv_spec_text::{Name, OutOfMemory, Run};
use indexmap::IndexMap;
use std::alloc::Global;
use std::marker::Model;

/// A map from names to the tokens that a reference stands for. A name that isn't there has the guaranteed-invalid value.
/// Contracts see the entries, each name with its tokens.
#[derive(Drop)]
pub struct Runs {
    map: IndexMap<Name, Run>,
}

impl Model for Runs {
    ghost use Rattle.std.specs.Prelude.{ℕ, List};
    ghost use Rattle.cv_spec_text.specs.declared.token.Token.{Token};

    ghost Value = { List (List ℕ × List Token) };

    ghost view = { λ runs. runs.map.entries };
}

impl Runs {
    /// No name is there.
    pub fn new(alloc: Global) -> Self
        ensures { (name : List ℕ) → value_in result name ≡ None }
    {
        Runs {
            map: IndexMap::new(alloc),
        }
    }

    /// Maps the name to the run, also where it stood for another.
    pub fn put(&mut self, name: Name, run: Run) -> Result<(), OutOfMemory>
        ensures put { OnOk result (value_in self.new name ≡ Some run) }
        ensures others { OnOk result ((other : List ℕ) → other ≢ name → value_in self.new other ≡ value_in self.old other) }
        ensures err { OnErr result (self.new ≡ self.old) }
    {
        self.map.insert(name, run)?;
        Ok(())
    }

    /// The run of the name, and None exactly where the name isn't there.
    pub fn get(&self, name: &Name) -> Option<&Run>
        ensures { option_copied result ≡ value_in self.now name.now }
    {
        self.map.get(name)
    }
}
