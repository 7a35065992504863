//! The values of an element before a declaration is looked at.

ghost use Rattle.std.specs.Prelude.{◌≡◌, ◌<◌, ◌+◌, ℕ, Bool, is_none, length, IfOk, OnOk};
ghost use Rattle.std.specs.Option.{option_copied};
ghost use Rattle.cv_valuation.specs.declared.key.Key.{Key};
ghost use Rattle.cv_valuation.specs.Valuations.{Values, outcome_at};
ghost use Rattle.cv_spec_valuation.specs.Computed.{StandUnder, ParentStandsUnder};
ghost use Rattle.cv_element.specs.Starting.{AreReset, base_at};
ghost use Rattle.cv_element.specs.Values.{start_at};

use cv_property_laws::properties_may_be_kept;
use cv_props::{Key, Registry, Valuation, outcomes_are_by_key, properties_are_found};
use cv_spec_text::OutOfMemory;
use std::alloc::Global;

// Whether there is no parent.
fn is_top(parent: Option<&Valuation>) -> bool
    ensures { result ≡ is_none (option_copied parent.entry) }
{
    match parent {
        Some(_) => false,
        None => true,
    }
}

// The name at this place of the registry has its initial value, if it doesn't inherit or all have.
fn reset_one(
    alloc: Global,
    registry: &Registry,
    all: bool,
    place: usize,
    values: &mut Valuation,
) -> Result<(), OutOfMemory>
    requires place { place < length registry.now }
    ensures { OnOk result ((before : Values) → AreReset registry.now all place before values.old → AreReset registry.now all (place + 1) before values.new) }
{
    outcomes_are_by_key();
    properties_are_found();
    registry.len();
    let (name, entry) = registry.at(place);
    if all || !entry.inherits {
        let outcome = entry.initial.copy(alloc)?;
        values.put(Key::Custom(name.copy()?), outcome)?;
    }
    Ok(())
}

// The registered names that don't inherit have their initial values; all have where it is said so.
fn reset_names(
    alloc: Global,
    registry: &Registry,
    all: bool,
    values: &mut Valuation,
) -> Result<(), OutOfMemory>
    ensures { OnOk result (AreReset registry.now all (length registry.now) values.old values.new) }
{
    for place in 0..registry.len() {
        reset_one(alloc, registry, all, place, values)?;
    }
    Ok(())
}

// What the parent hands down of custom properties, and the values of the ordinary ones.
fn handed_down(registry: &Registry, parent: Option<&Valuation>) -> Result<Valuation, OutOfMemory>
    ensures { IfOk result (λ values. (key : Key) → outcome_at values key ≡ base_at (option_copied parent.entry) key) }
{
    match parent {
        Some(values) => values.inherited(registry.table()),
        None => registry.table().copy(),
    }
}

/// Each property has what it has undeclared.
pub fn started(
    alloc: Global,
    registry: &Registry,
    parent: Option<&Valuation>,
) -> Result<Valuation, OutOfMemory>
    requires parent { ParentStandsUnder registry.now (option_copied parent) }
    ensures start { IfOk result (λ values. (key : Key) → outcome_at values key ≡ start_at registry.now (option_copied parent.entry) key) }
    ensures stand { IfOk result (StandUnder registry.now) }
{
    properties_may_be_kept();
    registry.len();
    let mut values = handed_down(registry, parent)?;
    reset_names(alloc, registry, is_top(parent), &mut values)?;
    Ok(values)
}
