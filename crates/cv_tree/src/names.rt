//! The properties that a document shows, and the names that it counts.

ghost use Rattle.std.specs.Prelude.{◌≡◌, ◌++◌, ◌∷◌, [], IfOk, OnOk, bytes_eq, filter, length, option_map, true};
ghost use Rattle.std.specs.List.{filter_map, list_any};
ghost use Rattle.std.specs.Map.{keys_of};
ghost use Rattle.std.specs.Option.{option_copied};
ghost use Rattle.indexmap.specs.IndexSet.{insert_all, insert_key};
ghost use Rattle.cv_spec_text.specs.Keywords.{is_custom};
ghost use Rattle.cv_doc.specs.Members.{is_name};
ghost use Rattle.cv_valuation.specs.Keys.{same_key};
ghost use Rattle.cv_tree.specs.Names.{AreNames, first_seen, keys_in, name_of_command, name_of_key, named_keys, names_in, names_shown, with_names};

use crate::laws::shown_names_are_keys;
use cv_doc::Command;
use cv_props::{Decls, Key, Registry};
use cv_spec_text::Name;
use indexmap::IndexSet;
use std::alloc::{AllocError, Global};

/// The properties of these names.
#[tactic(auto, using(crate::proofs::Naming::named_next, crate::proofs::Naming::names_head, crate::proofs::Naming::names_tail))]
pub fn named_keys(alloc: Global, names: &[Name]) -> Result<Vec<Key>, AllocError>
    requires { AreNames names.now }
    ensures { IfOk result (λ keys. keys.items ≡ named_keys names.now) }
{
    let mut keys = Vec::new(alloc);
    let mut rest = names;
    while let Some((name, after)) = rest.split_first() {
        add_named(alloc, &mut keys, name)?;
        rest = after;
    }
    Ok(keys)
}

fn add_named(alloc: Global, keys: &mut Vec<Key>, name: &Name) -> Result<(), AllocError>
    requires { is_name name.now ≡ true }
    ensures { OnOk result (keys.new.items ≡ keys.old.items ++ named_keys (name.now ∷ [])) }
{
    shown_names_are_keys();
    let named = Key::named(alloc, name.text())?;
    keys.push(named.unwrap())?;
    Ok(())
}

/// The keys of the declarations, each once, in the order in which they are first seen.
#[tactic(auto, using(crate::proofs::Naming::seen_next))]
pub fn first_seen(alloc: Global, all: &[Decls]) -> Result<Vec<Key>, AllocError>
    ensures { IfOk result (λ keys. keys.items ≡ first_seen (keys_in all.now)) }
{
    let mut seen = IndexSet::new(alloc);
    let mut rest = all;
    while let Some((declarations, after)) = rest.split_first() {
        add_keys(&mut seen, declarations)?;
        rest = after;
    }
    copies(alloc, seen.as_slice())
}

#[tactic(auto, using(crate::proofs::Naming::seen_key))]
fn add_keys(seen: &mut IndexSet<Key>, declarations: &Decls) -> Result<(), AllocError>
    ensures { OnOk result (seen.new.keys ≡ insert_all same_key seen.old.keys (keys_of declarations.now)) }
{
    for place in 0..declarations.len() {
        let (key, _) = declarations.at(place);
        if !seen.contains(key) {
            seen.insert(key.copy()?)?;
        }
    }
    Ok(())
}

fn copies(alloc: Global, keys: &[Key]) -> Result<Vec<Key>, AllocError>
    ensures { IfOk result (λ all. all.items ≡ keys.now) }
{
    let mut all = Vec::new(alloc);
    for key in keys {
        all.push(key.copy()?)?;
    }
    Ok(all)
}

/// The different custom names of the registry, the declarations, the names to show and the commands.
pub fn custom_names(
    alloc: Global,
    registry: &Registry,
    all: &[Decls],
    shown: &Option<Vec<Name>>,
    commands: &[Command],
) -> Result<IndexSet<Name>, AllocError>
    ensures { IfOk result (λ names. names.keys ≡ with_names [] (names_in registry.now all.now (option_map (λ names. names.items) shown.now) commands.now)) }
{
    let mut names = IndexSet::new(alloc);
    add_registered(&mut names, registry)?;
    add_all_declared(&mut names, all)?;
    add_show(&mut names, shown)?;
    add_asked(&mut names, commands)?;
    Ok(names)
}

#[tactic(auto, using(crate::proofs::Naming::with_registered_next))]
fn add_registered(names: &mut IndexSet<Name>, registry: &Registry) -> Result<(), AllocError>
    ensures { OnOk result (names.new.keys ≡ with_names names.old.keys (keys_of registry.now)) }
{
    for place in 0..registry.len() {
        let (name, _) = registry.at(place);
        add_custom(names, name)?;
    }
    Ok(())
}

#[tactic(auto, using(crate::proofs::Naming::with_keys_next))]
fn add_all_declared(names: &mut IndexSet<Name>, all: &[Decls]) -> Result<(), AllocError>
    ensures { OnOk result (names.new.keys ≡ with_names names.old.keys (filter_map name_of_key (keys_in all.now))) }
{
    let mut rest = all;
    while let Some((declarations, after)) = rest.split_first() {
        add_declared(names, declarations)?;
        rest = after;
    }
    Ok(())
}

#[tactic(auto, using(crate::proofs::Naming::with_key_next))]
fn add_declared(names: &mut IndexSet<Name>, declarations: &Decls) -> Result<(), AllocError>
    ensures { OnOk result (names.new.keys ≡ with_names names.old.keys (filter_map name_of_key (keys_of declarations.now))) }
{
    for place in 0..declarations.len() {
        let (key, _) = declarations.at(place);
        add_key(names, key)?;
    }
    Ok(())
}

fn add_key(names: &mut IndexSet<Name>, key: &Key) -> Result<(), AllocError>
    ensures { OnOk result (names.new.keys ≡ with_names names.old.keys (filter_map name_of_key (key.now ∷ []))) }
{
    match key {
        Key::Custom(name) => add_custom(names, name),
        Key::Table(_) => Ok(()),
    }
}

fn add_show(names: &mut IndexSet<Name>, show: &Option<Vec<Name>>) -> Result<(), AllocError>
    ensures { OnOk result (names.new.keys ≡ with_names names.old.keys (names_shown (option_map (λ shown. shown.items) show.now))) }
{
    match show {
        Some(shown) => add_shown(names, shown),
        None => Ok(()),
    }
}

#[tactic(auto, using(crate::proofs::Naming::with_names_next))]
fn add_shown(names: &mut IndexSet<Name>, shown: &[Name]) -> Result<(), AllocError>
    ensures { OnOk result (names.new.keys ≡ with_names names.old.keys shown.now) }
{
    let mut rest = shown;
    while let Some((name, after)) = rest.split_first() {
        add_custom(names, name)?;
        rest = after;
    }
    Ok(())
}

#[tactic(auto, using(crate::proofs::Naming::with_asked_next))]
fn add_asked(names: &mut IndexSet<Name>, commands: &[Command]) -> Result<(), AllocError>
    ensures { OnOk result (names.new.keys ≡ with_names names.old.keys (filter_map name_of_command commands.now)) }
{
    let mut rest = commands;
    while let Some((command, after)) = rest.split_first() {
        add_command(names, command)?;
        rest = after;
    }
    Ok(())
}

fn add_command(names: &mut IndexSet<Name>, command: &Command) -> Result<(), AllocError>
    ensures { OnOk result (names.new.keys ≡ with_names names.old.keys (filter_map name_of_command (command.now ∷ []))) }
{
    match name_of_command(command) {
        Some(name) => add_custom(names, name),
        None => Ok(()),
    }
}

fn add_custom(names: &mut IndexSet<Name>, name: &Name) -> Result<(), AllocError>
    ensures { OnOk result (names.new.keys ≡ with_names names.old.keys (name.now ∷ [])) }
{
    if name.is_custom() && !names.contains(name) {
        names.insert(name.copy()?)?;
    }
    Ok(())
}

// The name that a command speaks of.
fn name_of_command(command: &Command) -> Option<&Name>
    ensures { option_map (λ name. name.now) result ≡ name_of_command command.now }
{
    match command {
        Command::Get { name, .. } => Some(name),
        Command::GetAll { name, .. } => Some(name),
        Command::Has { name, .. } => Some(name),
        Command::Set { name, .. } => Some(name),
        Command::Append { name, .. } => Some(name),
        Command::Delete { name, .. } => Some(name),
        Command::Computed { name, .. } => Some(name),
        Command::Reify { name, .. } => Some(name),
        _ => None,
    }
}
