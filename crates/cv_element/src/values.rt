//! The values that a property may take in place of a declared one.

ghost use Rattle.std.specs.Prelude.{◌≡◌, IfOk};
ghost use Rattle.std.specs.Option.{option_copied};
ghost use Rattle.cv_spec_element.specs.Keywords.{by_keyword, inherited};
ghost use Rattle.cv_spec_valuation.specs.Registered.{is_loose, inherits, initial_at};
ghost use Rattle.cv_element.specs.Keywords.{wide};
ghost use Rattle.cv_spec_valuation.specs.Computed.{MayStand, ParentStandsUnder};
ghost use Rattle.cv_element.specs.Values.{held_by, invalid_at};

use crate::keywords::Keyword;
use cv_property_laws::properties_may_be_kept;
use cv_props::{Key, Outcome, Registry, Valuation};
use cv_spec_text::OutOfMemory;
use cv_syntax::Syntax;
use std::alloc::Global;

/// Whether the property is a custom one that isn't registered, or is registered as `*`.
pub fn is_loose(registry: &Registry, key: &Key) -> bool
    ensures { result ≡ is_loose registry.now key.now }
{
    match key {
        Key::Custom(name) => match registry.get(name) {
            Some(entry) => matches!(entry.syntax, Syntax::Any),
            None => true,
        },
        Key::Table(_) => false,
    }
}

/// Whether the property inherits.
pub fn inherits(registry: &Registry, key: &Key) -> bool
    ensures { result ≡ inherits registry.now key.now }
{
    match key {
        Key::Custom(name) => match registry.get(name) {
            Some(entry) => entry.inherits,
            None => true,
        },
        Key::Table(property) => property.inherits(),
    }
}

/// The initial value.
pub fn initial_value(alloc: Global, registry: &Registry, key: &Key) -> Result<Outcome, OutOfMemory>
    ensures { IfOk result (λ outcome. outcome ≡ initial_at registry.now key.now) }
{
    match key {
        Key::Custom(name) => match registry.get(name) {
            Some(entry) => entry.initial.copy(alloc),
            None => Ok(Outcome::Invalid),
        },
        Key::Table(property) => Ok(Outcome::Value(property.initial(alloc)?)),
    }
}

// The parent's value; on the root the initial one.
fn inherited_value(
    alloc: Global,
    registry: &Registry,
    parent: Option<&Valuation>,
    key: &Key,
) -> Result<Outcome, OutOfMemory>
    ensures { IfOk result (λ outcome. outcome ≡ inherited (initial_at registry.now key.now) (held_by (option_copied parent.entry) key.now)) }
{
    match parent {
        Some(values) => values.get(key).copy(alloc),
        None => initial_value(alloc, registry, key),
    }
}

// What a CSS-wide keyword gives the property.
fn given_value(
    alloc: Global,
    registry: &Registry,
    parent: Option<&Valuation>,
    key: &Key,
    keyword: Keyword,
) -> Result<Outcome, OutOfMemory>
    ensures { IfOk result (λ outcome. outcome ≡ by_keyword (initial_at registry.now key.now) (held_by (option_copied parent.entry) key.now) (inherits registry.now key.now) (wide keyword)) }
{
    match keyword {
        Keyword::Initial => initial_value(alloc, registry, key),
        Keyword::Inherit => inherited_value(alloc, registry, parent, key),
        Keyword::Unset | Keyword::Revert | Keyword::RevertLayer => {
            if inherits(registry, key) {
                inherited_value(alloc, registry, parent, key)
            } else {
                initial_value(alloc, registry, key)
            }
        }
    }
}

/// What a CSS-wide keyword gives the property.
pub fn keyword_value(
    alloc: Global,
    registry: &Registry,
    parent: Option<&Valuation>,
    key: &Key,
    keyword: Keyword,
) -> Result<Outcome, OutOfMemory>
    requires parent { ParentStandsUnder registry.now (option_copied parent) }
    ensures outcome { IfOk result (λ outcome. outcome ≡ by_keyword (initial_at registry.now key.now) (held_by (option_copied parent.entry) key.now) (inherits registry.now key.now) (wide keyword)) }
    ensures stands { IfOk result (MayStand registry.now key.now) }
{
    properties_may_be_kept();
    registry.len();
    given_value(alloc, registry, parent, key, keyword)
}

// What the property has where it is invalid, as it stands.
fn refused_value(
    alloc: Global,
    registry: &Registry,
    parent: Option<&Valuation>,
    key: &Key,
) -> Result<Outcome, OutOfMemory>
    ensures { IfOk result (λ outcome. outcome ≡ invalid_at registry.now (option_copied parent.entry) key.now) }
{
    if is_loose(registry, key) {
        Ok(Outcome::Invalid)
    } else {
        given_value(alloc, registry, parent, key, Keyword::Unset)
    }
}

/// What the property has where it is invalid: a loose one the guaranteed-invalid value, any other what it has undeclared.
pub fn invalid_value(
    alloc: Global,
    registry: &Registry,
    parent: Option<&Valuation>,
    key: &Key,
) -> Result<Outcome, OutOfMemory>
    requires parent { ParentStandsUnder registry.now (option_copied parent) }
    ensures outcome { IfOk result (λ outcome. outcome ≡ invalid_at registry.now (option_copied parent.entry) key.now) }
    ensures stands { IfOk result (MayStand registry.now key.now) }
{
    properties_may_be_kept();
    registry.len();
    refused_value(alloc, registry, parent, key)
}
