//! The texts of commands that change nothing.

ghost use Rattle.std.specs.Prelude.{◌≡◌, ◌++◌, IfOk, OnOk, map};
ghost use Rattle.std.specs.Option.{option_copied};
ghost use Rattle.cv_map.specs.declared.error.MapErr.TheVariants.{NoProperty};
ghost use Rattle.cv_reify.specs.Text.{joined, style_text_or_none};
ghost use Rattle.cv_session.specs.Texts.{bool_text, computed_text, declared_if_any, declared_or_none, declared_text, entries_text, entry_text, get_all_text, get_text, has_text, in_brackets, refusal_text, reify_text};

use crate::replies::bytes_of;
use cv_map::PropertyMap;
use cv_props::{Computed, Decl, Decls, Key, key_text, outcome_text};
use cv_reify::{ReifyErr, Style, reify_computed, reify_declared, style_text};
use cv_spec_text::Name;
use std::alloc::{AllocError, Global};

fn no_property(alloc: Global) -> Result<Vec<u8>, AllocError>
    ensures { IfOk result (λ text. text.items ≡ refusal_text NoProperty) }
{
    bytes_of(alloc, "refused NoProperty")
}

// ---- whether a property is declared

pub(crate) fn has_text(alloc: Global, map: &PropertyMap, name: &Name) -> Result<Vec<u8>, AllocError>
    ensures { IfOk result (λ text. text.items ≡ has_text map.now name.now) }
{
    match Key::named(alloc, name.text())? {
        Some(key) => bytes_of(alloc, bool_text(map.decls().get(&key).is_some())),
        None => no_property(alloc),
    }
}

fn bool_text(is: bool) -> &'static str
    ensures { result.now ≡ bool_text is }
{
    if is { "true" } else { "false" }
}

// ---- what is declared

fn push_style(
    alloc: Global,
    key: &Key,
    declaration: &Decl,
    text: &mut Vec<u8>,
) -> Result<(), AllocError>
    ensures { OnOk result (text.new.items ≡ text.old.items ++ declared_text key.now declaration.now) }
{
    match reify_declared(alloc, key, declaration) {
        Ok(style) => style_text(alloc, &style, text),
        Err(ReifyErr::Range) => Ok(()),
        Err(ReifyErr::Memory) => Err(AllocError),
    }
}

/// The object of a declaration, or `none`.
pub(crate) fn get_text(alloc: Global, map: &PropertyMap, name: &Name) -> Result<Vec<u8>, AllocError>
    ensures { IfOk result (λ text. text.items ≡ get_text map.now name.now) }
{
    match Key::named(alloc, name.text())? {
        Some(key) => declared_or_none(alloc, &key, map.decls().get(&key)),
        None => no_property(alloc),
    }
}

fn declared_or_none(
    alloc: Global,
    key: &Key,
    declaration: Option<&Decl>,
) -> Result<Vec<u8>, AllocError>
    ensures { IfOk result (λ text. text.items ≡ declared_or_none key.now (option_copied declaration.entry)) }
{
    match declaration {
        Some(declaration) => {
            let mut text = Vec::new(alloc);
            push_style(alloc, key, declaration, &mut text)?;
            Ok(text)
        }
        None => bytes_of(alloc, "none"),
    }
}

/// The object of a declaration in brackets, or empty brackets.
pub(crate) fn get_all_text(
    alloc: Global,
    map: &PropertyMap,
    name: &Name,
) -> Result<Vec<u8>, AllocError>
    ensures { IfOk result (λ text. text.items ≡ get_all_text map.now name.now) }
{
    match Key::named(alloc, name.text())? {
        Some(key) => declared_in_brackets(alloc, &key, map.decls().get(&key)),
        None => no_property(alloc),
    }
}

fn declared_in_brackets(
    alloc: Global,
    key: &Key,
    declaration: Option<&Decl>,
) -> Result<Vec<u8>, AllocError>
    ensures { IfOk result (λ text. text.items ≡ in_brackets (declared_if_any key.now (option_copied declaration.entry))) }
{
    let mut text = bytes_of(alloc, "[")?;
    if let Some(declaration) = declaration {
        push_style(alloc, key, declaration, &mut text)?;
    }
    text.push(b']')?;
    Ok(text)
}

/// The names of the declared properties, each with the object of its declaration.
pub(crate) fn entries_text(alloc: Global, map: &PropertyMap) -> Result<Vec<u8>, AllocError>
    ensures { IfOk result (λ text. text.items ≡ entries_text map.now) }
{
    let mut text = bytes_of(alloc, "[")?;
    push_entries(alloc, map.decls(), &mut text)?;
    text.push(b']')?;
    Ok(text)
}

fn push_entries(alloc: Global, decls: &Decls, text: &mut Vec<u8>) -> Result<(), AllocError>
    ensures { OnOk result (text.new.items ≡ text.old.items ++ joined (map entry_text decls.now)) }
{
    let mut separator: &[u8] = b"";
    for place in 0..decls.len() {
        let (key, declaration) = decls.at(place);
        text.extend_from_slice(separator)?;
        push_entry(alloc, key, declaration, text)?;
        separator = b", ";
    }
    Ok(())
}

fn push_entry(
    alloc: Global,
    key: &Key,
    declaration: &Decl,
    text: &mut Vec<u8>,
) -> Result<(), AllocError>
    ensures { OnOk result (text.new.items ≡ text.old.items ++ entry_text (key.now, declaration.now)) }
{
    key_text(alloc, key, text)?;
    text.extend_from_slice(b": ")?;
    push_style(alloc, key, declaration, text)
}

// ---- what is computed

/// The outcome as the report writes it.
pub(crate) fn computed_text(
    alloc: Global,
    computed: &Computed,
    name: &Name,
) -> Result<Vec<u8>, AllocError>
    ensures { IfOk result (λ text. text.items ≡ computed_text computed.now name.now) }
{
    match Key::named(alloc, name.text())? {
        Some(key) => {
            let mut text = Vec::new(alloc);
            outcome_text(alloc, computed.values.get(&key), &mut text)?;
            Ok(text)
        }
        None => no_property(alloc),
    }
}

/// The object of what is computed, or `none`.
pub(crate) fn reify_text(
    alloc: Global,
    computed: &Computed,
    name: &Name,
) -> Result<Vec<u8>, AllocError>
    ensures { IfOk result (λ text. text.items ≡ reify_text computed.now name.now) }
{
    match Key::named(alloc, name.text())? {
        Some(key) => {
            let style = reify_computed(alloc, &key, computed.values.get(&key))?;
            style_or_none(alloc, style.as_ref())
        }
        None => no_property(alloc),
    }
}

fn style_or_none(alloc: Global, style: Option<&Style>) -> Result<Vec<u8>, AllocError>
    ensures { IfOk result (λ text. text.items ≡ style_text_or_none (option_copied style.entry)) }
{
    match style {
        Some(style) => {
            let mut text = Vec::new(alloc);
            style_text(alloc, style, &mut text)?;
            Ok(text)
        }
        None => bytes_of(alloc, "none"),
    }
}
