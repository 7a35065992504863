//! The names of properties.

ghost use Rattle.std.specs.Prelude.{◌≡◌, ◌++◌, chars, IfOk, OnOk, OnErr};
ghost use Rattle.std.specs.Cmp.{partial_equiv_from_equiv};
ghost use Rattle.cv_valuation.specs.Keys.{key_input, key_named, key_text, same_key};
ghost use Rattle.cv_valuation.specs.KeyLaws.{same_key_equiv, fed_alike};

use cv_property::{Property, property_named};
use cv_spec_text::Name;
use cv_tokser::print_identifier;
use std::alloc::{AllocError, Global};
use std::hash::{Hash, Hasher};

/// The name of a custom property, or an ordinary property.
#[derive(Debug, Drop)]
pub enum Key {
    Custom(Name),
    Table(Property),
}

impl PartialEq for Key {
    ghost eq = { same_key };

    ghost laws = { partial_equiv_from_equiv same_key_equiv };

    fn eq(&self, other: &Key) -> bool {
        match (self, other) {
            (Key::Custom(name), Key::Custom(other)) => name == other,
            (Key::Table(property), Key::Table(other)) => property.number() == other.number(),
            _ => false,
        }
    }
}

impl Eq for Key {
    ghost laws = { same_key_equiv };
}

impl Hash for Key {
    ghost hash_input = { key_input };

    ghost respects_eq = { fed_alike };

    fn hash<H: Hasher>(&self, state: &mut H) {
        match self {
            Key::Custom(name) => name.hash(state),
            Key::Table(property) => property.number().hash(state),
        }
    }
}

impl Key {
    /// The key of this name: of a custom property, or without ASCII case of an ordinary one. `None` where it is neither.
    #[tactic(auto, unfolding(crate::specs::Keys::key_named))]
    pub fn named(alloc: Global, name: &str) -> Result<Option<Self>, AllocError>
        ensures { IfOk result (λ key. key ≡ key_named (chars name.now)) }
    {
        let name = Name::of(alloc, name)?;
        if name.is_custom() {
            return Ok(Some(Key::Custom(name)));
        }
        match property_named(&name) {
            Some(property) => Ok(Some(Key::Table(property))),
            None => Ok(None),
        }
    }

    /// The same key again.
    pub fn copy(&self) -> Result<Self, AllocError>
        ensures { IfOk result (λ key. key ≡ self.now) }
    {
        match self {
            Key::Custom(name) => Ok(Key::Custom(name.copy()?)),
            Key::Table(property) => Ok(Key::Table(*property)),
        }
    }
}

/// Adds the name as the report writes it: as an identifier, or in lower case.
pub fn key_text(alloc: Global, key: &Key, out: &mut Vec<u8>) -> Result<(), AllocError>
    ensures ok { OnOk result (out.new.items ≡ out.old.items ++ key_text key.now) }
    ensures err { OnErr result (out.new.items ≡ out.old.items) }
{
    match key {
        Key::Custom(name) => print_identifier(alloc, name, out),
        Key::Table(property) => out.extend_from_slice(property.name().as_bytes()),
    }
}
