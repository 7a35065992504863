//! What is computed of a document, and the custom names that it has.

ghost use Rattle.std.specs.Prelude.{◌≡◌, ◌≤◌, ℕ, IfOk, length};
ghost use Rattle.cv_doc.specs.Kept.{IsSound};
ghost use Rattle.cv_doc.specs.Reading.{shape_of};
ghost use Rattle.cv_valuation.specs.declared.key.Key as keys;
ghost use Rattle.cv_tree.specs.Contents.{HasContents};
ghost use Rattle.cv_tree.specs.Names.{counted_names};
ghost use Rattle.cv_tree.specs.Single.{HaveOneResult};
ghost use Rattle.cv_tree.specs.Tree.{AllStand, AreComputed, IsOutOfRange, tree_of};

use crate::contents::Contents;
use crate::laws::trees_have_one_result;
use crate::names::custom_names;
use crate::tree::{Stop, computed_of};
use cv_doc::Document;
use cv_props::Computed;
use cv_spec_text::Name;
use indexmap::IndexSet;
use std::alloc::{AllocError, Global};

/// The different custom names of a document: of its valid rules, its winning declarations, what it shows and its commands.
pub fn counted_names(
    alloc: Global,
    document: &Document,
    contents: &Contents,
) -> Result<IndexSet<Name>, AllocError>
    requires { HasContents (shape_of document.now) contents.now }
    ensures { IfOk result (λ names. names.keys ≡ counted_names (shape_of document.now)) }
{
    custom_names(
        alloc,
        &contents.registry,
        &contents.declarations,
        &document.show,
        &document.commands,
    )
}

/// What is computed of each element of a document, by index. It is the only thing that may be computed of them.
///
/// # Errors
///
/// [`Stop::Range`] for a property of the first element on which one is out of range.
pub fn computed_of_document(
    alloc: Global,
    document: &Document,
    contents: &Contents,
    limit: u32,
) -> Result<Vec<Computed>, Stop>
    requires sound { IsSound (shape_of document.now) }
    requires contents { HasContents (shape_of document.now) contents.now }
    requires least { 1 ≤ limit }
    requires most { limit ≤ 32768 }
    ensures computed { IfOk result (λ all. AreComputed (tree_of (shape_of document.now)) limit (length (shape_of document.now).elements) all.items) }
    ensures stand { IfOk result (λ all. AllStand (tree_of (shape_of document.now)).registered all.items) }
    ensures single { IfOk result (λ all. HaveOneResult (tree_of (shape_of document.now)) limit) }
    ensures few { IfOk result (λ all. length all.items ≤ 16384) }
    ensures range { (number : ℕ) (property : keys.Key) → result ≡ Err (Stop.Range number property) → IsOutOfRange (tree_of (shape_of document.now)) limit number property }
{
    trees_have_one_result();
    computed_of(
        alloc,
        &document.elements,
        &contents.registry,
        &contents.declarations,
        (document.width, document.height),
        limit,
    )
}
