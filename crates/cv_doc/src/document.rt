//! The document of bytes.

ghost use Rattle.std.specs.Prelude.{IfOk, length};
ghost use Rattle.serde_json.specs.View.{view};
ghost use Rattle.cv_doc.specs.Kept.{IsSound, TextsAreWithin};
ghost use Rattle.cv_doc.specs.Reading.{document_in, document_of, members_in, shape_of};
ghost use Rattle.cv_doc.specs.Refusals.{Answers, RefusesCounted};

use crate::command::Command;
use crate::commands::commands;
use crate::elements::{Elem, elements};
use crate::refusal::field;
use crate::show::show;
use crate::value::{read_json, text};
use crate::viewport::viewport;
use crate::{BadDoc, DocErr};
use cv_spec_text::Name;
use serde_json::Value;
use std::alloc::Global;

/// What a run computes.
#[derive(Debug, Drop)]
pub struct Document {
    /// The width of the viewport in pixels, up to 1000000.
    pub width: u32,
    /// The height of the viewport in pixels, up to 1000000.
    pub height: u32,
    /// The style sheet.
    pub sheet: Name,
    /// The elements, each after its parent.
    pub elements: Vec<Elem>,
    /// The names of the properties to show, as they are given.
    pub show: Option<Vec<Name>>,
    /// What a session is asked to do.
    pub commands: Vec<Command>,
}

impl Document {
    /// The document that the bytes hold, or the first refusal: of the JSON, and then of the members `viewport`, `sheet`,
    /// `elements`, `show` and `commands` in this order. Other members are ignored.
    ///
    /// ```text
    /// {"elements": [{"parent": null, "style": "--a: 1px"}, {"parent": 0}], "show": ["--a"]}
    /// ```
    #[tactic(auto, using(crate::proofs::Counted::document_counted))]
    pub fn of_bytes(alloc: Global, bytes: &[u8]) -> Result<Document, DocErr>
        ensures exact { Answers shape_of (document_of bytes.now) result }
        ensures counted { RefusesCounted (document_of bytes.now) }
        ensures sound { IfOk result (λ document. IsSound (shape_of document)) }
        ensures sized { IfOk result (λ document. TextsAreWithin (length bytes.now) (shape_of document)) }
    {
        match read_json(alloc, bytes)? {
            Some(value) => document_of_value(alloc, &value),
            None => Err(DocErr::Bad(BadDoc::NotJson)),
        }
    }
}

fn document_of_value(alloc: Global, value: &Value) -> Result<Document, DocErr>
    ensures { Answers shape_of (document_in (view value.now)) result }
{
    if value.is_object() {
        members(alloc, value)
    } else {
        Err(field(alloc, "")?)
    }
}

fn members(alloc: Global, value: &Value) -> Result<Document, DocErr>
    ensures { Answers shape_of (members_in (view value.now)) result }
{
    let (width, height) = viewport(value.get("viewport"))?;
    let sheet = text(alloc, "sheet", value.get("sheet"))?;
    let elements = elements(alloc, value.get("elements"))?;
    let show = show(alloc, value.get("show"))?;
    let commands = commands(alloc, value.get("commands"))?;
    Ok(Document {
        width,
        height,
        sheet,
        elements,
        show,
        commands,
    })
}
