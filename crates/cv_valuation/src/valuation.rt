//! The values of an element.

ghost use Rattle.std.specs.Prelude.{◌≡◌, ◌<◌, ◌==◌, ℕ, nat_lt, if◌then◌else◌, unwrap_or, IfOk, OnOk, OnErr};
ghost use Rattle.std.specs.Option.{option_copied};
ghost use Rattle.std.specs.FinMap as map;
ghost use Rattle.cv_valuation.specs.declared.key.Key as keys;
ghost use Rattle.cv_valuation.specs.declared.key.Key.TheVariants.{Custom, Table};
ghost use Rattle.cv_valuation.specs.declared.outcome.Outcome.TheVariants.{Invalid};
ghost use Rattle.cv_property.specs.Table.{number_of};
ghost use Rattle.cv_valuation.specs.Rows.{in_row, outcome_by, place_of, row_of};
ghost use Rattle.cv_valuation.specs.Starts.{inherited_at, initial_or, table_initial};
ghost use Rattle.cv_valuation.specs.Valuations.{MayKeep, outcome_at, with_outcome};

use crate::key::Key;
use crate::outcome::Outcome;
use crate::row::Row;
use crate::trie::{Trie, found, path_of, put, shared};
use cv_property::{Property, table_is_found};
use cv_property_laws::properties_may_be_kept;
use cv_spec_text::Name;
use std::alloc::{AllocError, Global};
use std::marker::Model;

/// The outcomes of an element's properties. Each key that was never put has the outcome `Invalid`. Contracts see a map from
/// the keys whose outcomes aren't invalid to what is kept for them. Custom properties stand in a tree, ordinary ones in two rows: of
/// those that inherit, and of the others. Copies share all three.
#[derive(Drop)]
pub struct Valuation {
    alloc: Global,
    custom: Trie,
    inherited: Row,
    own: Row,
    invalid: Outcome,
}

impl Model for Valuation {
    ghost use Rattle.std.specs.Prelude.{◌≡◌};
    ghost use Rattle.cv_valuation.specs.declared.outcome.Outcome.TheVariants.{Invalid};
    ghost use Rattle.cv_valuation.specs.Valuations.{Values};
    ghost use Rattle.cv_valuation.specs.Rows.{AreKeptBy, values_by};

    ghost Value = { Values };

    ghost use Rattle.std.specs.FinMap.{code};
    ghost use Rattle.cv_valuation.specs.contracts.key.Key as keys;
    ghost use Rattle.cv_valuation.specs.Kept.{code_of_kept};

    ghost coded = { code keys.the_row.coded code_of_kept };

    ghost view = { λ valuation. values_by valuation.custom valuation.inherited valuation.own };

    ghost invariant = { λ valuation. AreKeptBy valuation.custom valuation.inherited valuation.own × (valuation.invalid ≡ Invalid) };
}

// The properties below this number inherit, and no others do.
const INHERITED: usize = 7;

fn is_inherited(property: Property) -> bool
    ensures { result ≡ nat_lt (number_of property) 7 }
{
    property.number() < INHERITED
}

// The place of the property in its row.
fn place_of(property: Property) -> usize
    ensures place { result ≡ place_of (number_of property) }
    ensures within { result < 35 }
{
    let number = property.number();
    if number < INHERITED {
        number
    } else {
        number - INHERITED
    }
}

// The outcome of the key, if one stands there.
fn found_by<'a>(
    custom: &'a Trie,
    inherited: &'a Row,
    own: &'a Row,
    key: &Key,
) -> Option<&'a Outcome>
    ensures { unwrap_or (option_copied result) Invalid ≡ outcome_by custom.now inherited.now own.now key.now }
{
    match key {
        Key::Custom(_) => found(custom, path_of(key), key),
        Key::Table(property) => found_ordinary(inherited, own, *property),
    }
}

fn found_ordinary<'a>(inherited: &'a Row, own: &'a Row, property: Property) -> Option<&'a Outcome>
    ensures { unwrap_or (option_copied result) Invalid ≡ in_row (row_of inherited.now own.now (number_of property)) (place_of (number_of property)) }
{
    if is_inherited(property) {
        inherited.get(place_of(property))
    } else {
        own.get(place_of(property))
    }
}

// Gives the property this outcome in its row, and leaves every other as it was.
fn put_in(
    alloc: Global,
    inherited: &mut Row,
    own: &mut Row,
    property: Property,
    outcome: Outcome,
) -> Result<(), AllocError>
    ensures ok { OnOk result ((q : ℕ) → in_row (row_of inherited.new own.new q) (place_of q) ≡ (if q == number_of property then outcome else in_row (row_of inherited.old own.old q) (place_of q))) }
    ensures err { OnErr result ((q : ℕ) → in_row (row_of inherited.new own.new q) (place_of q) ≡ in_row (row_of inherited.old own.old q) (place_of q)) }
{
    let place = place_of(property);
    if is_inherited(property) {
        inherited.put(alloc, place, outcome)
    } else {
        own.put(alloc, place, outcome)
    }
}

impl Valuation {
    /// Every key invalid.
    pub fn new(alloc: Global) -> Self
        ensures { result ≡ map.empty }
    {
        Valuation {
            alloc,
            custom: Trie::Leaf,
            inherited: Row::new(),
            own: Row::new(),
            invalid: Outcome::Invalid,
        }
    }

    /// The initial value of each ordinary property, and every custom one invalid.
    pub fn initial(alloc: Global) -> Result<Self, AllocError>
        ensures { IfOk result (λ values. (key : keys.Key) → outcome_at values key ≡ table_initial key) }
    {
        let mut values = Valuation::new(alloc);
        for number in 0..35u32 {
            values.put_initial(number)?;
        }
        Ok(values)
    }

    // Gives the property of this number its initial value.
    fn put_initial(&mut self, number: u32) -> Result<(), AllocError>
        ensures { OnOk result ((key : keys.Key) → outcome_at self.new key ≡ initial_or number key (outcome_at self.old key)) }
    {
        table_is_found();
        properties_may_be_kept();
        match Property::numbered(number) {
            Some(property) => {
                let value = property.initial(self.alloc)?;
                self.put(Key::Table(property), Outcome::Value(value))
            }
            None => Ok(()),
        }
    }

    /// What a child of an element with these values begins with: the custom properties and the ordinary ones that inherit have these
    /// values, the others have those of `initial`. Both are shared.
    pub fn inherited(&self, initial: &Valuation) -> Result<Self, AllocError>
        ensures { IfOk result (λ values. (key : keys.Key) → outcome_at values key ≡ inherited_at self.now initial.now key) }
    {
        Ok(Valuation {
            alloc: self.alloc,
            custom: shared(&self.custom)?,
            inherited: self.inherited.share()?,
            own: initial.own.share()?,
            invalid: Outcome::Invalid,
        })
    }

    /// Gives the key this outcome, and leaves every other as it was.
    pub fn put(&mut self, key: Key, outcome: Outcome) -> Result<(), AllocError>
        requires { MayKeep key outcome }
        ensures ok { OnOk result (self.new ≡ with_outcome self.old key outcome) }
        ensures err { OnErr result (self.new ≡ self.old) }
    {
        match key {
            Key::Custom(name) => self.put_custom(name, outcome),
            Key::Table(property) => self.put_ordinary(property, outcome),
        }
    }

    fn put_custom(&mut self, name: Name, outcome: Outcome) -> Result<(), AllocError>
        requires { MayKeep (Custom name) outcome }
        ensures ok { OnOk result (self.new ≡ with_outcome self.old (Custom name) outcome) }
        ensures err { OnErr result (self.new ≡ self.old) }
    {
        let key = Key::Custom(name);
        let path = path_of(&key);
        self.custom = put(self.alloc, &self.custom, path, key, outcome)?;
        Ok(())
    }

    fn put_ordinary(&mut self, property: Property, outcome: Outcome) -> Result<(), AllocError>
        requires { MayKeep (Table property) outcome }
        ensures ok { OnOk result (self.new ≡ with_outcome self.old (Table property) outcome) }
        ensures err { OnErr result (self.new ≡ self.old) }
    {
        put_in(
            self.alloc,
            &mut self.inherited,
            &mut self.own,
            property,
            outcome,
        )?;
        Ok(())
    }

    /// The outcome of the key.
    pub fn get(&self, key: &Key) -> &Outcome
        ensures outcome { result.now ≡ outcome_at self.now key.now }
        ensures kept { MayKeep key.now result.now }
    {
        match found_by(&self.custom, &self.inherited, &self.own, key) {
            Some(outcome) => outcome,
            None => &self.invalid,
        }
    }

    // The allocator of the outcomes.
    pub(crate) fn allocator(&self) -> Global {
        self.alloc
    }

    /// The same outcomes again.
    pub fn copy(&self) -> Result<Self, AllocError>
        ensures { IfOk result (λ valuation. valuation ≡ self.now) }
    {
        Ok(Valuation {
            alloc: self.alloc,
            custom: shared(&self.custom)?,
            inherited: self.inherited.share()?,
            own: self.own.share()?,
            invalid: Outcome::Invalid,
        })
    }
}
