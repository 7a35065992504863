//! The properties whose changes are told.

ghost use Rattle.std.specs.Prelude.{◌≡◌, ◌<◌, All, IfOk, IsUtf8, Some, chars, encode_utf8_all, map, slice_get};
ghost use Rattle.cv_valuation.specs.Keys.{key_text};
ghost use Rattle.cv_valuation.specs.declared.key.Key.TheVariants.{Custom, Table};
ghost use Rattle.cv_property.specs.Table.{properties};
ghost use Rattle.cv_update.specs.Names.{AreTold, IsNamed, IsSpelled, key_of};

use cv_props::{Key, Property};
use cv_spec_text::Name;
use cv_tokser::print_identifier;
use std::alloc::{AllocError, Global};
use std::str;

/// A property, with its name as the report writes it.
#[derive(Drop)]
pub struct Named {
    pub key: Key,
    pub text: Name,
}

fn bytes_of(named: &Named) -> &[u8]
    ensures { result.now ≡ encode_utf8_all named.now.text }
{
    named.text.text().as_bytes()
}

// The text of these bytes.
fn text_of(alloc: Global, bytes: &[u8]) -> Result<Name, AllocError>
    requires { IsUtf8 bytes.now }
    ensures { IfOk result (λ name. name ≡ chars bytes.now) }
{
    let text = str::from_utf8(bytes).unwrap();
    Name::of(alloc, text)
}

/// The text of these bytes, which are its bytes again.
pub(crate) fn name_of(alloc: Global, bytes: &[u8]) -> Result<Name, AllocError>
    requires { IsUtf8 bytes.now }
    ensures named { IfOk result (λ name. name ≡ chars bytes.now) }
    ensures spelled { IfOk result (λ name. encode_utf8_all name ≡ bytes.now) }
{
    text_of(alloc, bytes)
}

// The name of a custom property as the report writes it.
fn custom_text(alloc: Global, name: &Name) -> Result<Name, AllocError>
    ensures named { IfOk result (λ text. text ≡ chars (key_text (Custom name.now))) }
    ensures spelled { IfOk result (λ text. encode_utf8_all text ≡ key_text (Custom name.now)) }
{
    name.text();
    let mut bytes = Vec::new(alloc);
    print_identifier(alloc, name, &mut bytes)?;
    name_of(alloc, &bytes)
}

// The name of an ordinary property.
fn ordinary_text(alloc: Global, property: Property) -> Result<Name, AllocError>
    ensures named { IfOk result (λ text. text ≡ chars (key_text (Table property))) }
    ensures spelled { IfOk result (λ text. encode_utf8_all text ≡ key_text (Table property)) }
{
    Name::of(alloc, property.name())
}

// The property with its name.
fn with_name(alloc: Global, key: Key) -> Result<Named, AllocError>
    ensures key { IfOk result (λ named. named.key ≡ key) }
    ensures named { IfOk result IsNamed }
    ensures spelled { IfOk result IsSpelled }
{
    let text = match &key {
        Key::Custom(name) => custom_text(alloc, name)?,
        Key::Table(property) => ordinary_text(alloc, *property)?,
    };
    Ok(Named { key, text })
}

// The custom properties of these names.
fn custom_names(alloc: Global, custom: &[Name]) -> Result<Vec<Named>, AllocError>
    ensures keys { IfOk result (λ all. map key_of all.items ≡ map Custom custom.now) }
    ensures named { IfOk result (λ all. All IsNamed all.items) }
    ensures spelled { IfOk result (λ all. All IsSpelled all.items) }
{
    let mut all = Vec::new(alloc);
    for name in custom {
        let key = Key::Custom(name.copy()?);
        all.push(with_name(alloc, key)?)?;
    }
    Ok(all)
}

// The ordinary property of this number.
#[tactic(auto, unfolding(cv_property::specs::Table::numbered))]
fn ordinary(number: u32) -> Property
    requires { number < 35 }
    ensures { slice_get properties number ≡ Some result }
{
    match Property::numbered(number) {
        Some(property) => property,
        None => Property::FontSize,
    }
}

// The ordinary properties.
fn ordinary_names(alloc: Global) -> Result<Vec<Named>, AllocError>
    ensures keys { IfOk result (λ all. map key_of all.items ≡ map Table properties) }
    ensures named { IfOk result (λ all. All IsNamed all.items) }
    ensures spelled { IfOk result (λ all. All IsSpelled all.items) }
{
    let mut all = Vec::new(alloc);
    for number in 0..35u32 {
        all.push(with_name(alloc, Key::Table(ordinary(number)))?)?;
    }
    Ok(all)
}

/// The properties whose changes are told, by their names in byte order: these custom ones, and all ordinary ones.
pub fn names_of(alloc: Global, custom: &[Name]) -> Result<Vec<Named>, AllocError>
    ensures named { IfOk result (λ names. All IsNamed names.items) }
    ensures told { IfOk result (λ names. AreTold custom.now (map key_of names.items)) }
{
    let mut all = custom_names(alloc, custom)?;
    let mut ordinary = ordinary_names(alloc)?;
    all.append(&mut ordinary)?;
    all.sort_by(|a, b| bytes_of(a).cmp(bytes_of(b)))?;
    Ok(all)
}
