//! The custom properties that a sheet registers.

ghost use Rattle.std.specs.Prelude.{◌≡◌, ◌++◌, ◌<◌, ℕ, List, length, slice_get, bytes_eq, Some, All, IfOk, IfSome, OnOk};
ghost use Rattle.std.specs.List.{IsDistinct};
ghost use Rattle.std.specs.Map.{keys_of};
ghost use Rattle.std.specs.Option.{option_copied};
ghost use Rattle.indexmap.specs.IndexMap.{insert_entry};
ghost use Rattle.cv_spec_text.specs.Splits.{IsSpelt};
ghost use Rattle.cv_component.specs.Rules.{rules};
ghost use Rattle.cv_props.specs.Reading.{IsSpeltRule};
ghost use Rattle.cv_props.specs.Registered.{AreEntries, IsEntry, IsRegistered, entry_of};
ghost use Rattle.cv_valuation.specs.declared.key.Key as keys;
ghost use Rattle.cv_valuation.specs.Starts.{table_initial};
ghost use Rattle.cv_valuation.specs.Valuations.{outcome_at};
ghost use Rattle.cv_props.specs.Registration.{registration, viewport};
ghost use Rattle.cv_props.specs.Remembered.{IsMet, IsValueOf, takes_inherited};
ghost use Rattle.cv_props.specs.Sheets.{ignored, notes_on_rules, registered, registered_names, registry_of, with_registration};

use crate::entry::Entry;
use crate::memo::{Memo, is_worthwhile};
use crate::note::{Note, NotePlace};
use crate::refusal::Refusal;
use crate::registration::{read_rule, viewport};
use cv_calc::Context;
use cv_component::{Rule, rules};
use cv_property::Property;
use cv_spec_text::{Name, Run, Token};
use cv_valuation::Valuation;
use cv_value::Typed;
use indexmap::IndexMap;
use std::alloc::{AllocError, Global};
use std::cell::Cell;
use std::marker::Model;

/// The registered custom properties, in the order in which their names were first registered (Properties and Values API 1, "The
/// @property Rule"), beside the initial values of the ordinary ones. Contracts see the list of names and entries, in which each name
/// stands once. Computed values of ordinary properties are remembered beside them, which contracts don't see.
#[derive(Drop)]
pub struct Registry {
    entries: IndexMap<Name, Entry>,
    table: Valuation,
    memo: Cell<Option<Memo>>,
}

impl Model for Registry {
    ghost use Rattle.std.specs.Prelude.{All};
    ghost use Rattle.cv_props.specs.Registered.{IsRegistered, IsTable, Registered};

    ghost Value = { Registered };

    ghost use Rattle.std.specs.Coded.{coded_list, coded×, coded_ℕ};
    ghost use Rattle.cv_props.specs.contracts.entry.Entry as of_entry;

    ghost coded = { coded_list (coded× (coded_list coded_ℕ) of_entry.the_row.coded) };

    ghost view = { λ registry. registry.entries.entries };

    ghost invariant = { λ registry. All IsRegistered registry.entries.entries × IsTable registry.table };
}

impl Registry {
    /// What the sheet registers in a viewport of this size in px, and a note on each rule that is ignored, in order. The last valid rule
    /// of a name counts.
    pub fn of_sheet(
        alloc: Global,
        tokens: &[Token],
        width: u32,
        height: u32,
    ) -> Result<(Registry, Vec<Note>), AllocError>
        requires spelt { All IsSpelt tokens.now }
        requires few { length tokens.now < 4294967288 }
        ensures entries { IfOk result (λ sheet. (name : List ℕ) → entry_of sheet.0 name ≡ registered (viewport width height) (rules tokens.now) name) }
        ensures order { IfOk result (λ sheet. keys_of sheet.0 ≡ registered_names (viewport width height) (rules tokens.now)) }
        ensures registry { IfOk result (λ sheet. sheet.0 ≡ registry_of (viewport width height) (rules tokens.now)) }
        ensures notes { IfOk result (λ sheet. sheet.1.items ≡ notes_on_rules (viewport width height) (rules tokens.now)) }
        ensures valid { IfOk result (λ sheet. AreEntries sheet.0) }
    {
        let all = rules(alloc, tokens)?;
        of_rules(alloc, &viewport(width, height), &all)
    }

    /// What is registered of the name, if it is registered.
    pub fn get(&self, name: &Name) -> Option<&Entry>
        ensures entry { option_copied result ≡ entry_of self.now name.now }
        ensures kept { IfSome result (λ entry. IsEntry name.now entry.now) }
    {
        self.entries.get(name)
    }

    /// How many names are registered.
    pub fn len(&self) -> usize
        ensures len { result ≡ length self.now }
        ensures once { IsDistinct bytes_eq (keys_of self.now) }
        ensures entries { AreEntries self.now }
    {
        self.entries.len()
    }

    /// The name and the entry at this place.
    pub fn at(&self, place: usize) -> (&Name, &Entry)
        requires { place < length self.now }
        ensures entry { slice_get self.now place ≡ Some (result.0.now, result.1.now) }
        ensures kept { IsEntry result.0.now result.1.now }
    {
        self.entries.get_index(place).unwrap()
    }

    /// The initial value of each ordinary property; each custom one is invalid.
    pub fn table(&self) -> &Valuation
        ensures { (key : keys.Key) → outcome_at result.now key ≡ table_initial key }
    {
        &self.table
    }

    /// The same registry again.
    pub fn copy(&self) -> Result<Self, AllocError>
        ensures { IfOk result (λ registry. registry ≡ self.now) }
    {
        Ok(Registry {
            entries: copied(&self.entries)?,
            table: self.table.copy()?,
            memo: Cell::new(None),
        })
    }

    /// What the list is as a value of the property in this context, if it is remembered.
    pub fn remembered(
        &self,
        alloc: Global,
        property: Property,
        tokens: &[Token],
        x: &Context,
    ) -> Result<Option<Typed>, AllocError>
        ensures { IfOk result (λ found. IfSome found (IsValueOf property x.now tokens.now)) }
    {
        let memo = self.memo.take();
        let found = value_in(alloc, &memo, property, tokens, x);
        self.memo.set(memo);
        found
    }

    /// Remembers what the list is as a value of the property in this context, if that is worthwhile.
    pub fn remember(
        &self,
        alloc: Global,
        property: Property,
        list: &Run,
        x: &Context,
        value: &Typed,
    ) -> Result<(), AllocError>
        requires { IsMet property x.now list.now value.now }
    {
        if takes_inherited(property) || !is_worthwhile(list.tokens().len()) {
            return Ok(());
        }
        let mut memo = match self.memo.take() {
            Some(memo) => memo,
            None => Memo::new(alloc),
        };
        let kept = memo.keep(alloc, property, list, x, value);
        self.memo.set(Some(memo));
        kept
    }
}

// What the list is as a value of the property, if that is in the memo.
fn value_in(
    alloc: Global,
    memo: &Option<Memo>,
    property: Property,
    tokens: &[Token],
    x: &Context,
) -> Result<Option<Typed>, AllocError>
    ensures { IfOk result (λ found. IfSome found (IsValueOf property x.now tokens.now)) }
{
    match memo {
        Some(memo) if is_worthwhile(tokens.len()) => memo.value_of(alloc, property, tokens, x),
        _ => Ok(None),
    }
}

// Whether the computed value of the property may be the one that it inherits.
fn takes_inherited(property: Property) -> bool
    ensures { result ≡ takes_inherited property }
{
    matches!(property, Property::Color)
}

fn copied(entries: &IndexMap<Name, Entry>) -> Result<IndexMap<Name, Entry>, AllocError>
    ensures { IfOk result (λ all. all.entries ≡ entries.now.entries) }
{
    let mut all = IndexMap::new(*entries.allocator());
    for (name, entry) in entries.iter() {
        add_copy(&mut all, name, entry)?;
    }
    Ok(all)
}

fn add_copy(all: &mut IndexMap<Name, Entry>, name: &Name, entry: &Entry) -> Result<(), AllocError>
    ensures { OnOk result (all.new.entries ≡ insert_entry bytes_eq all.old.entries name.now entry.now) }
{
    let alloc = *all.allocator();
    all.insert(name.copy()?, entry.copy(alloc)?)?;
    Ok(())
}

// What the rules register, and a note on each that is ignored.
fn of_rules(alloc: Global, x: &Context, all: &[Rule]) -> Result<(Registry, Vec<Note>), AllocError>
    requires spelt { All IsSpeltRule all.now }
    requires few { length all.now < 4294967288 }
    ensures entries { IfOk result (λ sheet. (name : List ℕ) → entry_of sheet.0 name ≡ registered x.now all.now name) }
    ensures order { IfOk result (λ sheet. keys_of sheet.0 ≡ registered_names x.now all.now) }
    ensures registry { IfOk result (λ sheet. sheet.0 ≡ registry_of x.now all.now) }
    ensures notes { IfOk result (λ sheet. sheet.1.items ≡ notes_on_rules x.now all.now) }
    ensures valid { IfOk result (λ sheet. AreEntries sheet.0) }
{
    let mut entries = IndexMap::new(alloc);
    let mut notes = Vec::new(alloc);
    for (number, rule) in all.iter().enumerate() {
        add_rule(alloc, x, number as u32, rule, &mut entries, &mut notes)?;
    }
    let table = Valuation::initial(alloc)?;
    let registry = Registry {
        entries,
        table,
        memo: Cell::new(None),
    };
    Ok((registry, notes))
}

// Keeps what the rule registers, or notes why it is ignored.
fn add_rule(
    alloc: Global,
    x: &Context,
    number: u32,
    rule: &Rule,
    entries: &mut IndexMap<Name, Entry>,
    notes: &mut Vec<Note>,
) -> Result<(), AllocError>
    requires { IsSpeltRule rule.now }
    ensures entries { OnOk result (entries.new.entries ≡ with_registration entries.old.entries (registration x.now rule.now)) }
    ensures kept { All IsRegistered entries.old.entries → OnOk result (All IsRegistered entries.new.entries) }
    ensures notes { OnOk result (notes.new.items ≡ notes.old.items ++ ignored number (registration x.now rule.now)) }
{
    match read_rule(alloc, x, rule) {
        Ok((name, entry)) => {
            entries.insert(name, entry)?;
            Ok(())
        }
        Err(Refusal::Ignored(why)) => {
            let place = NotePlace::Rule(number);
            notes.push(Note { place, why })?;
            Ok(())
        }
        Err(Refusal::Memory) => Err(AllocError),
    }
}
