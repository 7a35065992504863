//! What a document says of its elements.

ghost use Rattle.std.specs.Prelude.{◌≡◌, ◌≤◌, IfOk, IfSome, length, option_map};
ghost use Rattle.cv_doc.specs.Kept.{TextsAreWithin};
ghost use Rattle.cv_doc.specs.Reading.{shape_of};
ghost use Rattle.cv_tree.specs.Contents.{most_bytes};
ghost use Rattle.cv_tree.specs.Names.{AreNames, keys_in, keys_shown};
ghost use Rattle.cv_tree.specs.Contents.{HasContents};

use crate::names::{first_seen, named_keys};
use crate::styles::{declarations_of, tokens_in};
use cv_doc::Document;
use cv_props::{Decls, Key, Note, Registry};
use cv_spec_text::Name;
use std::alloc::{AllocError, Global};

/// What a document says of its elements.
#[derive(Drop)]
pub struct Contents {
    pub registry: Registry,
    pub notes: Vec<Note>,
    pub declarations: Vec<Decls>,
    pub shown: Vec<Key>,
}

/// What a document says.
pub fn contents_of(alloc: Global, document: &Document) -> Result<Contents, AllocError>
    requires few { length document.now.elements.items ≤ 16384 }
    requires short { TextsAreWithin most_bytes (shape_of document.now) }
    requires names { IfSome (option_map (λ names. names.items) document.now.show) AreNames }
    ensures { IfOk result (HasContents (shape_of document.now)) }
{
    let sheet = tokens_in(alloc, &document.sheet)?;
    let (registry, mut notes) = Registry::of_sheet(alloc, &sheet, document.width, document.height)?;
    let declarations = declarations_of(alloc, &document.elements, &mut notes)?;
    let shown = shown_keys(alloc, &document.show, &declarations)?;
    Ok(Contents {
        registry,
        notes,
        declarations,
        shown,
    })
}

// The properties to show, where these are the declarations.
fn shown_keys(
    alloc: Global,
    show: &Option<Vec<Name>>,
    declarations: &[Decls],
) -> Result<Vec<Key>, AllocError>
    requires { IfSome (option_map (λ names. names.items) show.now) AreNames }
    ensures { IfOk result (λ keys. keys.items ≡ keys_shown (option_map (λ names. names.items) show.now) (keys_in declarations.now)) }
{
    match show {
        Some(names) => named_keys(alloc, names),
        None => first_seen(alloc, declarations),
    }
}
