//! The names that a document asks to be shown.

ghost use Rattle.std.specs.Prelude.{◌≡◌, ◌≤◌, length, option_map, Some, IfOk, string_bytes};
ghost use Rattle.serde_json.specs.View.{items_view, view};
ghost use Rattle.cv_doc.specs.Members.{name_in, name_of, names_of, show_in, show_path};
ghost use Rattle.cv_doc.specs.Json.{text_of};
ghost use Rattle.cv_doc.specs.Refusals.{Answers, all_from};

use crate::array::array;
use crate::names::is_property;
use crate::refusal::field;
use crate::value::text_of;
use crate::{DocErr, What};
use cv_spec_text::Name;
use serde_json::Value;
use std::alloc::{AllocError, Global};

const MOST_NAMES: usize = 2048;

/// The names to show, none where that is left open, or the first refusal.
pub fn show(alloc: Global, value: Option<&Value>) -> Result<Option<Vec<Name>>, DocErr>
    ensures { Answers (option_map (λ names. names.items)) (show_in (option_map (λ v. view v.now) value.entry)) result }
{
    if value.is_none() {
        return Ok(None);
    }
    match array(value) {
        Some(items) => Ok(Some(names_of(alloc, items)?)),
        None => Err(field(alloc, "show")?),
    }
}

#[tactic(auto, using(crate::proofs::Items::count_of_items))]
fn names_of(alloc: Global, items: &[Value]) -> Result<Vec<Name>, DocErr>
    ensures { Answers (λ names. names.items) (names_of (items_view items.now)) result }
{
    if items.len() > MOST_NAMES {
        return Err(DocErr::TooMany(What::Show));
    }
    each_name(alloc, items)
}

fn each_name(alloc: Global, items: &[Value]) -> Result<Vec<Name>, DocErr>
    requires { length items.now ≤ 2048 }
    ensures { Answers (λ names. names.items) (all_from name_in 0 (items_view items.now)) result }
{
    let mut names = Vec::new(alloc);
    let mut rest = items;
    let mut index = 0u32;
    while let Some((item, after)) = rest.split_first() {
        names
            .push(name(alloc, index, item)?)
            .map_err(AllocError::from)?;
        index += 1;
        rest = after;
    }
    Ok(names)
}

fn name(alloc: Global, index: u32, value: &Value) -> Result<Name, DocErr>
    ensures { Answers (λ name. name) (name_in index (view value.now)) result }
{
    match name_of(alloc, value)? {
        Some(name) => Ok(name),
        None => {
            let path = show_path(alloc, index)?;
            Err(field(alloc, path.as_str())?)
        }
    }
}

// The name of a property that can be shown.
fn name_of(alloc: Global, value: &Value) -> Result<Option<Name>, AllocError>
    ensures { IfOk result (λ name. name ≡ name_of (text_of (Some (view value.now)))) }
{
    match text_of(alloc, Some(value))? {
        Some(name) => Ok(shown(name)),
        None => Ok(None),
    }
}

fn shown(name: Name) -> Option<Name>
    ensures { result ≡ name_of (Some name) }
{
    if name.is_custom() || is_property(&name) {
        Some(name)
    } else {
        None
    }
}

fn show_path(alloc: Global, index: u32) -> Result<String, AllocError>
    ensures { IfOk result (λ path. string_bytes path ≡ show_path index) }
{
    format!(in alloc; "show/{index}")
}
