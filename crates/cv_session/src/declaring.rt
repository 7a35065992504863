//! The declarations that commands make of an element's.

ghost use Rattle.std.specs.Prelude.{◌≡◌, [], List, Ok, IfErr, IfOk, IfSome};
ghost use Rattle.std.specs.Map.{remove_entry};
ghost use Rattle.cv_valuation.specs.Keys.{key_named, same_key};
ghost use Rattle.cv_map.specs.Calls.{IsRefused, of_key};
ghost use Rattle.cv_map.specs.Lists.{append_key};
ghost use Rattle.cv_map.specs.Values.{set_key, value_in};
ghost use Rattle.cv_valuation.specs.declared.key.Key.{Key};
ghost use Rattle.cv_session.specs.Scenes.{AreAmong, IsAmong};

use cv_map::{MapErr, PropertyMap};
use cv_props::Registry;
use cv_spec_text::Name;
use std::alloc::{AllocError, Global};

/// The declarations with the property set.
#[tactic(auto, using(crate::proofs::Making::set_among))]
pub(crate) fn set(map: &PropertyMap, name: &Name, value: &Name) -> Result<PropertyMap, MapErr>
    ensures ok { IfOk result (λ made. set_key map.now (value_in value.now) (key_named name.now) ≡ Ok made) }
    ensures refused { IfErr result (IsRefused (set_key map.now (value_in value.now) (key_named name.now))) }
    ensures among { (keys : List Key) → AreAmong keys map.now → IfSome (key_named name.now) (IsAmong keys) → IfOk result (AreAmong keys) }
{
    let mut made = map.copy()?;
    match made.set(name.text(), value.text()) {
        Ok(()) => Ok(made),
        Err(error) => Err(error),
    }
}

/// The declarations with the value appended to the property's.
#[tactic(auto, using(crate::proofs::Making::append_among))]
pub(crate) fn append(
    registry: &Registry,
    map: &PropertyMap,
    name: &Name,
    value: &Name,
) -> Result<PropertyMap, MapErr>
    ensures ok { IfOk result (λ made. append_key registry.now map.now (value_in value.now) (key_named name.now) ≡ Ok made) }
    ensures refused { IfErr result (IsRefused (append_key registry.now map.now (value_in value.now) (key_named name.now))) }
    ensures among { (keys : List Key) → AreAmong keys map.now → IfSome (key_named name.now) (IsAmong keys) → IfOk result (AreAmong keys) }
{
    let mut made = map.copy()?;
    match made.append(registry, name.text(), value.text()) {
        Ok(()) => Ok(made),
        Err(error) => Err(error),
    }
}

/// The declarations without the property.
#[tactic(auto, using(crate::proofs::Making::delete_among))]
pub(crate) fn delete(map: &PropertyMap, name: &Name) -> Result<PropertyMap, MapErr>
    ensures ok { IfOk result (λ made. of_key (λ key. remove_entry (same_key key) map.now) (key_named name.now) ≡ Ok made) }
    ensures refused { IfErr result (IsRefused (of_key (λ key. remove_entry (same_key key) map.now) (key_named name.now))) }
    ensures among { (keys : List Key) → AreAmong keys map.now → IfOk result (AreAmong keys) }
{
    let mut made = map.copy()?;
    match made.delete(name.text()) {
        Ok(_) => Ok(made),
        Err(error) => Err(error),
    }
}

/// No declaration.
pub(crate) fn clear(map: &PropertyMap) -> Result<PropertyMap, AllocError>
    ensures { IfOk result (λ made. made ≡ []) }
{
    let mut made = map.copy()?;
    made.clear();
    Ok(made)
}
