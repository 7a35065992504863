//! The names that a list refers to.

ghost use Rattle.std.specs.Prelude.{◌≡◌, [], ◌∷◌, fold, bytes_eq, IfOk, OnOk};
ghost use Rattle.std.specs.List.{IsDistinct};
ghost use Rattle.cv_var.specs.Flat.{flat};
ghost use Rattle.cv_var.specs.Names.{names_of, names_in, with_name, firsts};
ghost use Rattle.cv_var.specs.References.{pieces_of};

use crate::declared::Declared;
use crate::flat::Part;
use cv_spec_text::{Name, OutOfMemory};
use indexmap::IndexSet;
use std::alloc::Global;

// Adds the name of the part, if it is a reference and its name isn't there.
fn add_name(names: &mut IndexSet<Name>, part: Part<'_>) -> Result<(), OutOfMemory>
    ensures { OnOk result (names.new.keys ≡ fold with_name names.old.keys (names_in (flat part.entry ∷ []))) }
{
    if let Part::Reference { name, .. } = part {
        if !names.contains(name) {
            names.insert(name.copy()?)?;
        }
    }
    Ok(())
}

// The names of the references, each at its first place.
fn firsts(alloc: Global, declared: &Declared) -> Result<IndexSet<Name>, OutOfMemory>
    ensures { IfOk result (λ names. names.keys ≡ firsts (names_of (pieces_of declared.now))) }
{
    let mut names = IndexSet::new(alloc);
    for number in 0..declared.part_count() {
        if let Some(part) = declared.part(number) {
            add_name(&mut names, part)?;
        }
    }
    Ok(names)
}

/// The names of the references, each once, in order of first place.
pub fn references(alloc: Global, declared: &Declared) -> Result<Vec<Name>, OutOfMemory>
    ensures names { IfOk result (λ names. names.items ≡ firsts (names_of (pieces_of declared.now))) }
    ensures distinct { IfOk result (λ names. IsDistinct bytes_eq names.items) }
{
    let mut all = Vec::new(alloc);
    for name in firsts(alloc, declared)?.iter() {
        all.push(name.copy()?)?;
    }
    Ok(all)
}
