//! The elements of a document.

ghost use Rattle.std.specs.Prelude.{◌≡◌, ◌≤◌, length, option_map, option_and_then, is_some, IfOk, string_bytes};
ghost use Rattle.serde_json.specs.Find.{as_null};
ghost use Rattle.serde_json.specs.View.{items_view, view};
ghost use Rattle.cv_doc.specs.Members.{element_in, element_path, elements_in, elements_of, parent_in, style_path};
ghost use Rattle.cv_doc.specs.Refusals.{Answers, all_from};

use crate::array::array;
use crate::refusal::field;
use crate::value::{text, whole};
use crate::{BadDoc, DocErr, What};
use cv_spec_text::Name;
use serde_json::Value;
use std::alloc::{AllocError, Global};

const MOST_ELEMENTS: usize = 16384;

/// An element: the index of its parent, none for element 0, and its style.
#[derive(Debug, Drop)]
pub struct Elem {
    pub parent: Option<u32>,
    pub style: Name,
}

/// The elements, or the first refusal.
pub fn elements(alloc: Global, value: Option<&Value>) -> Result<Vec<Elem>, DocErr>
    ensures { Answers (λ elements. elements.items) (elements_in (option_map (λ v. view v.now) value.entry)) result }
{
    match array(value) {
        Some(items) => elements_of(alloc, items),
        None => Err(field(alloc, "elements")?),
    }
}

#[tactic(auto, using(crate::proofs::Items::count_of_items))]
fn elements_of(alloc: Global, items: &[Value]) -> Result<Vec<Elem>, DocErr>
    ensures { Answers (λ elements. elements.items) (elements_of (items_view items.now)) result }
{
    if items.is_empty() {
        return Err(field(alloc, "elements")?);
    }
    if items.len() > MOST_ELEMENTS {
        return Err(DocErr::TooMany(What::Elements));
    }
    each_element(alloc, items)
}

fn each_element(alloc: Global, items: &[Value]) -> Result<Vec<Elem>, DocErr>
    requires { length items.now ≤ 16384 }
    ensures { Answers (λ elements. elements.items) (all_from element_in 0 (items_view items.now)) result }
{
    let mut elements = Vec::new(alloc);
    let mut rest = items;
    let mut index = 0u32;
    while let Some((item, after)) = rest.split_first() {
        elements
            .push(element(alloc, index, item)?)
            .map_err(AllocError::from)?;
        index += 1;
        rest = after;
    }
    Ok(elements)
}

fn element(alloc: Global, index: u32, value: &Value) -> Result<Elem, DocErr>
    ensures { Answers (λ element. element) (element_in index (view value.now)) result }
{
    if !value.is_object() {
        let path = element_path(alloc, index)?;
        return Err(field(alloc, path.as_str())?);
    }
    let parent = parent(index, value.get("parent"))?;
    let path = style_path(alloc, index)?;
    let style = text(alloc, path.as_str(), value.get("style"))?;
    Ok(Elem { parent, style })
}

fn parent(index: u32, value: Option<&Value>) -> Result<Option<u32>, DocErr>
    ensures { Answers (λ parent. parent) (parent_in index (option_map (λ v. view v.now) value.entry)) result }
{
    if index == 0 {
        return if is_null(value) {
            Ok(None)
        } else {
            Err(DocErr::Bad(BadDoc::BadParent(index)))
        };
    }
    match whole(value) {
        Some(parent) if parent < index as u64 => Ok(Some(parent as u32)),
        _ => Err(DocErr::Bad(BadDoc::BadParent(index))),
    }
}

fn is_null(value: Option<&Value>) -> bool
    ensures { result ≡ is_some (option_and_then as_null (option_map (λ v. view v.now) value.entry)) }
{
    match value {
        Some(value) => value.is_null(),
        None => false,
    }
}

fn element_path(alloc: Global, index: u32) -> Result<String, AllocError>
    ensures { IfOk result (λ path. string_bytes path ≡ element_path index) }
{
    format!(in alloc; "elements/{index}")
}

fn style_path(alloc: Global, index: u32) -> Result<String, AllocError>
    ensures { IfOk result (λ path. string_bytes path ≡ style_path index) }
{
    format!(in alloc; "elements/{index}/style")
}
