//! The document of a size.

ghost use Rattle.std.specs.Prelude.{◌≡◌, ◌≤◌, ◌<◌, IfOk, map};
ghost use Rattle.std.specs.List.{range_with_len};
ghost use Rattle.cv_doc.specs.Kept.{IsSound, TextsAreWithin};
ghost use Rattle.cv_doc.specs.Reading.{shape_of};
ghost use Rattle.cv_gen.specs.Generated.{element_of, gen_document, parent_of, sheet};

use crate::style::{ascii_name, style};
use cv_doc::{Document, Elem};
use cv_spec_text::Name;
use std::alloc::{AllocError, Global};

const WIDTH: u32 = 1000;

const HEIGHT: u32 = 800;

const SHEET: &str = "@property --base { syntax: \"<length>\"; inherits: true; initial-value: 4px }";

/// The document with this many elements. It is one that could have been read: its elements are a tree in order, and no part of it is
/// larger than a document's may be.
pub fn document_of_size(alloc: Global, size: u32) -> Result<Document, AllocError>
    requires least { 1 ≤ size }
    requires most { size ≤ 4096 }
    ensures exact { IfOk result (λ document. shape_of document ≡ gen_document size) }
    ensures sound { IfOk result (λ document. IsSound (shape_of document)) }
    ensures short { IfOk result (λ document. TextsAreWithin 16777216 (shape_of document)) }
{
    let sheet = sheet(alloc)?;
    let elements = elements(alloc, size)?;
    Ok(Document {
        width: WIDTH,
        height: HEIGHT,
        sheet,
        elements,
        show: None,
        commands: Vec::new(alloc),
    })
}

fn sheet(alloc: Global) -> Result<Name, AllocError>
    ensures { IfOk result (λ text. text ≡ sheet) }
{
    ascii_name(alloc, SHEET)
}

fn elements(alloc: Global, size: u32) -> Result<Vec<Elem>, AllocError>
    ensures { IfOk result (λ elements. elements.items ≡ map element_of (range_with_len 0 size)) }
{
    let mut elements = Vec::with_capacity(alloc, size as usize)?;
    for index in 0..size {
        let element = element(alloc, index, &elements)?;
        elements.push(element)?;
    }
    Ok(elements)
}

// The element with this index, behind those with lower ones.
fn element(alloc: Global, index: u32, earlier: &[Elem]) -> Result<Elem, AllocError>
    requires { earlier.now ≡ map element_of (range_with_len 0 index) }
    ensures { IfOk result (λ element. element ≡ element_of index) }
{
    let style = style(alloc, index, earlier)?;
    Ok(Elem {
        parent: parent(index),
        style,
    })
}

fn parent(index: u32) -> Option<u32>
    ensures { result ≡ parent_of index }
{
    if index == 0 {
        None
    } else {
        Some((index - 1) / 2)
    }
}
