//! How a scene is opened.

ghost use Rattle.std.specs.Prelude.{◌≡◌, ◌≤◌, ◌<◌, ℕ, All, Err, IfOk, length};
ghost use Rattle.cv_doc.specs.Kept as kept;
ghost use Rattle.cv_doc.specs.Kept.{TextsAreWithin};
ghost use Rattle.cv_doc.specs.Reading.{shape_of};
ghost use Rattle.cv_valuation.specs.declared.key.Key as keys;
ghost use Rattle.cv_tree.specs.Contents.{HasContents, most_bytes};
ghost use Rattle.cv_tree.specs.Names.{counted, counted_names};
ghost use Rattle.cv_tree.specs.Single.{HaveOneResult};
ghost use Rattle.cv_tree.specs.Tree.{AllStand, AreComputed, IsOutOfRange, tree_of};
ghost use Rattle.cv_session.specs.Scenes.{IsOfThese, IsOpened, keys_in};

use crate::scene::Scene;
use cv_doc::{Command, Document};
use cv_map::PropertyMap;
use cv_props::{Computed, Decls, Key, winners_are_by_key};
use cv_spec_text::Name;
use cv_tree::{Contents, Stop, computed_of_document, contents_of, counted_names};
use cv_update::names_of;
use cv_walk::extents;
use std::alloc::{AllocError, Global};

const MOST_NAMES: usize = 2048;

/// Why a document isn't opened.
#[derive(Drop)]
pub enum OpenErr {
    /// There are more than 2048 different custom names.
    Names,
    /// On this element, the first such, this property isn't invalid and is out of range.
    Range { element: u32, property: Key },
    /// There is no memory.
    Memory,
}

impl From<AllocError> for OpenErr {
    ghost use Rattle.std.specs.Prelude.{◌≡◌};
    ghost use Rattle.cv_session.specs.declared.opening.OpenErr.TheVariants.{Memory};

    ghost from_gives = { λ _ error. error ≡ Memory };

    fn from(_error: AllocError) -> Self {
        OpenErr::Memory
    }
}

// The declarations of each element as a property map.
fn maps_of(alloc: Global, declarations: Vec<Decls>) -> Result<Vec<PropertyMap>, AllocError>
    ensures { IfOk result (λ maps. maps.items ≡ declarations.items) }
{
    let mut maps = Vec::new(alloc);
    for decls in declarations {
        maps.push(PropertyMap::of(alloc, decls))?;
    }
    Ok(maps)
}

// The scene of a document with these contents and this computed of it, and the document's commands.
fn scene_of(
    alloc: Global,
    document: Document,
    contents: Contents,
    custom: &[Name],
    all: Vec<Computed>,
    limit: u32,
) -> Result<(Scene, Vec<Command>), AllocError>
    requires sound { kept.IsSound (shape_of document) }
    requires contents { HasContents (shape_of document) contents }
    requires names { custom.now ≡ counted_names (shape_of document) }
    requires few_names { counted (shape_of document) ≤ 2048 }
    requires least { 1 ≤ limit }
    requires most { limit ≤ 32768 }
    requires computed { AreComputed (tree_of (shape_of document)) limit (length (shape_of document).elements) all.items }
    requires stand { AllStand (tree_of (shape_of document)).registered all.items }
    ensures opened { IfOk result (λ opened. IsOpened (shape_of document) limit opened.0) }
    ensures commands { IfOk result (λ opened. opened.1.items ≡ (shape_of document).commands) }
    ensures these { IfOk result (λ opened. All (IsOfThese (keys_in opened.0)) opened.1.items) }
{
    winners_are_by_key();
    let extents = extents(alloc, &document.elements)?;
    let names = names_of(alloc, custom)?;
    let maps = maps_of(alloc, contents.declarations)?;
    let scene = Scene {
        registry: contents.registry,
        elements: document.elements,
        extents,
        notes: contents.notes,
        names,
        maps,
        all,
        width: document.width,
        height: document.height,
        limit,
    };
    Ok((scene, document.commands))
}

impl Scene {
    /// The scene of a document, before any command, and the document's commands.
    pub fn open(
        alloc: Global,
        document: Document,
        limit: u32,
    ) -> Result<(Scene, Vec<Command>), OpenErr>
        requires sound { kept.IsSound (shape_of document) }
        requires short { TextsAreWithin most_bytes (shape_of document) }
        requires least { 1 ≤ limit }
        requires most { limit ≤ 32768 }
        ensures opened { IfOk result (λ opened. IsOpened (shape_of document) limit opened.0) }
        ensures commands { IfOk result (λ opened. opened.1.items ≡ (shape_of document).commands) }
        ensures these { IfOk result (λ opened. All (IsOfThese (keys_in opened.0)) opened.1.items) }
        ensures single { IfOk result (λ opened. HaveOneResult (tree_of (shape_of document)) limit) }
        ensures few_names { IfOk result (λ opened. counted (shape_of document) ≤ 2048) }
        ensures names { result ≡ Err OpenErr.Names → 2048 < counted (shape_of document) }
        ensures range { (element : ℕ) (property : keys.Key) → result ≡ Err (OpenErr.Range element property) → IsOutOfRange (tree_of (shape_of document)) limit element property }
        ensures range_few { (element : ℕ) (property : keys.Key) → result ≡ Err (OpenErr.Range element property) → counted (shape_of document) ≤ 2048 }
    {
        let contents = contents_of(alloc, &document)?;
        let custom = counted_names(alloc, &document, &contents)?;
        if custom.len() > MOST_NAMES {
            return Err(OpenErr::Names);
        }
        let all = match computed_of_document(alloc, &document, &contents, limit) {
            Ok(all) => all,
            Err(Stop::Range { element, property }) => {
                return Err(OpenErr::Range { element, property });
            }
            Err(Stop::Memory) => return Err(OpenErr::Memory),
        };
        match scene_of(alloc, document, contents, custom.as_slice(), all, limit) {
            Ok(opened) => Ok(opened),
            Err(_) => Err(OpenErr::Memory),
        }
    }
}
