//! The styles of a document's elements: their declarations, and what is ignored in them.

ghost use Rattle.std.specs.Prelude.{◌≡◌, ◌≤◌, ◌++◌, All, IfOk, IfSome, OnOk, bytes_eq, length, map};
ghost use Rattle.indexmap.specs.IndexMap.{get};
ghost use Rattle.cv_spec_text.specs.Splits.{IsSpelt};
ghost use Rattle.cv_tree.specs.Contents.{most_bytes};
ghost use Rattle.cv_tree.specs.Styles.{declarations_in, declarations_of, elements_notes, items_in, tokens_in};
ghost use Rattle.cv_tree.specs.Contents.{AreFew};
ghost use Rattle.cv_tree.specs.Again.{AreRead, IsAdded, IsReadOf};
ghost use Rattle.cv_props.specs.Kept.{notes_on};

use cv_doc::Elem;
use cv_props::{Decls, Note};
use cv_spec_text::{Name, Token};
use cv_token::tokenise;
use indexmap::IndexMap;
use std::alloc::{AllocError, Global};

/// The tokens of a text, no more than its characters.
pub fn tokens_in(alloc: Global, text: &Name) -> Result<Vec<Token>, AllocError>
    ensures tokens { IfOk result (λ all. all.items ≡ tokens_in text.now) }
    ensures spelt { IfOk result (λ all. All IsSpelt all.items) }
    ensures few { IfOk result (λ all. length all.items ≤ length text.now) }
{
    tokenise(alloc, text.text())
}

/// The declarations of each element, and the notes on what is ignored behind those that are there.
#[tactic(auto, using(crate::proofs::Stepping::notes_next))]
pub fn declarations_of(
    alloc: Global,
    elements: &[Elem],
    notes: &mut Vec<Note>,
) -> Result<Vec<Decls>, AllocError>
    requires count { length elements.now ≤ 16384 }
    requires short { All (λ element. length element.style ≤ most_bytes) elements.now }
    ensures declarations { IfOk result (λ all. all.items ≡ map declarations_of elements.now) }
    ensures few { IfOk result (λ all. All AreFew all.items) }
    ensures notes { OnOk result (notes.new.items ≡ notes.old.items ++ elements_notes 0 elements.now) }
{
    let mut all = Vec::new(alloc);
    let mut places = IndexMap::new(alloc);
    let mut rest = elements;
    let mut number = 0u32;
    while let Some((element, after)) = rest.split_first() {
        add_declarations(alloc, number, &element.style, &mut places, &mut all, notes)?;
        number += 1;
        rest = after;
    }
    Ok(all)
}

// The declarations of an earlier element with the same style, if there is one on which there is no note.
fn earlier(
    all: &[Decls],
    places: &IndexMap<Name, usize>,
    style: &Name,
) -> Result<Option<Decls>, AllocError>
    requires { AreRead (get bytes_eq places.now) all.now }
    ensures { IfOk result (λ found. IfSome found (IsReadOf style.now)) }
{
    match places.get(style) {
        Some(place) => match all.get(*place) {
            Some(declarations) => Ok(Some(declarations.copy()?)),
            None => Ok(None),
        },
        None => Ok(None),
    }
}

// Adds the declarations of the element with this number, whose style isn't read again where an earlier element has it.
fn add_declarations(
    alloc: Global,
    number: u32,
    style: &Name,
    places: &mut IndexMap<Name, usize>,
    all: &mut Vec<Decls>,
    notes: &mut Vec<Note>,
) -> Result<(), AllocError>
    requires short { length style.now ≤ most_bytes }
    requires read { AreRead (get bytes_eq places.old) all.old.items }
    ensures { OnOk result (IsAdded number style.now all.old.items notes.old.items (get bytes_eq places.new) all.new.items notes.new.items) }
{
    match earlier(all, places, style)? {
        Some(declarations) => {
            all.push(declarations)?;
            Ok(())
        }
        None => add_read(alloc, number, style, places, all, notes),
    }
}

// Reads the declarations of the element with this number, and adds them.
fn add_read(
    alloc: Global,
    number: u32,
    style: &Name,
    places: &mut IndexMap<Name, usize>,
    all: &mut Vec<Decls>,
    notes: &mut Vec<Note>,
) -> Result<(), AllocError>
    requires short { length style.now ≤ most_bytes }
    requires read { AreRead (get bytes_eq places.old) all.old.items }
    ensures { OnOk result (IsAdded number style.now all.old.items notes.old.items (get bytes_eq places.new) all.new.items notes.new.items) }
{
    let noted = notes.len();
    let place = all.len();
    let declarations = declarations_in(alloc, number, style, notes)?;
    all.push(declarations)?;
    if noted < notes.len() {
        return Ok(());
    }
    places.insert(style.copy()?, place)?;
    Ok(())
}

// The declarations of the element with this number.
fn declarations_in(
    alloc: Global,
    number: u32,
    style: &Name,
    notes: &mut Vec<Note>,
) -> Result<Decls, AllocError>
    requires { length style.now ≤ most_bytes }
    ensures declarations { IfOk result (λ declarations. declarations ≡ declarations_in style.now) }
    ensures few { IfOk result AreFew }
    ensures notes { OnOk result (notes.new.items ≡ notes.old.items ++ notes_on number (items_in style.now)) }
{
    let tokens = tokens_in(alloc, style)?;
    let (declarations, mut more) = Decls::of_style(alloc, number, &tokens)?;
    notes.append(&mut more)?;
    Ok(declarations)
}
