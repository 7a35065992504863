//! What becomes of an input, and the report of it.

ghost use Rattle.std.specs.Prelude.{◌≤◌, IfErr, IfOk, length};
ghost use Rattle.cv_doc.specs.Kept.{IsSound, TextsAreWithin};
ghost use Rattle.cv_doc.specs.Reading.{document_of, shape_of};
ghost use Rattle.cv_doc.specs.Refusals.{RefusesCounted};
ghost use Rattle.cv_tree.specs.Contents.{HasContents, most_bytes};
ghost use Rattle.cv_run.specs.Fates.{computed, fate_of_document, fate_of_reading};
ghost use Rattle.cv_run.specs.Telling.{IsRefusal, IsReportOf, IsSized};
ghost use Rattle.cv_words.specs.declared.words.Job.TheVariants.{Compute};

use crate::status::Status;
use crate::writing::Report;
use cv_doc::{DocErr, Document, What};
use cv_tree::{Contents, Stop, computed_of_document, contents_of, counted_names};
use std::alloc::Global;

const MOST_NAMES: usize = 2048;

/// The report of the bytes of a document, or the status with which it has none.
pub fn report_of(alloc: Global, bytes: &[u8], limit: u32) -> Result<Report, Status>
    requires short { length bytes.now ≤ most_bytes }
    requires least { 1 ≤ limit }
    requires most { limit ≤ 32768 }
    ensures tells { IfOk result (IsReportOf limit (fate_of_reading (document_of bytes.now))) }
    ensures sized { IfOk result IsSized }
    ensures refused { IfErr result (IsRefusal Compute limit (fate_of_reading (document_of bytes.now))) }
    ensures counted { RefusesCounted (document_of bytes.now) }
{
    let document = match Document::of_bytes(alloc, bytes) {
        Ok(document) => document,
        Err(DocErr::Bad(why)) => return Err(Status::Malformed(why)),
        Err(DocErr::TooMany(what)) => return Err(Status::TooLarge(what)),
        Err(DocErr::Memory) => return Err(Status::NoMemory),
    };
    report_of_document(alloc, &document, limit)
}

fn report_of_document(alloc: Global, document: &Document, limit: u32) -> Result<Report, Status>
    requires sound { IsSound (shape_of document.now) }
    requires short { TextsAreWithin most_bytes (shape_of document.now) }
    requires least { 1 ≤ limit }
    requires most { limit ≤ 32768 }
    ensures tells { IfOk result (IsReportOf limit (fate_of_document (shape_of document.now))) }
    ensures sized { IfOk result IsSized }
    ensures refused { IfErr result (IsRefusal Compute limit (fate_of_document (shape_of document.now))) }
{
    let contents = contents_of(alloc, document)?;
    let names = counted_names(alloc, document, &contents)?;
    if names.len() > MOST_NAMES {
        return Err(Status::TooLarge(What::Names));
    }
    report_of_contents(alloc, document, contents, limit)
}

fn report_of_contents(
    alloc: Global,
    document: &Document,
    contents: Contents,
    limit: u32,
) -> Result<Report, Status>
    requires sound { IsSound (shape_of document.now) }
    requires contents { HasContents (shape_of document.now) contents }
    requires least { 1 ≤ limit }
    requires most { limit ≤ 32768 }
    ensures tells { IfOk result (IsReportOf limit (computed (shape_of document.now))) }
    ensures sized { IfOk result IsSized }
    ensures refused { IfErr result (IsRefusal Compute limit (computed (shape_of document.now))) }
{
    let all = match computed_of_document(alloc, document, &contents, limit) {
        Ok(all) => all,
        Err(Stop::Range { element, property }) => return Err(Status::Range { element, property }),
        Err(Stop::Memory) => return Err(Status::NoMemory),
    };
    Ok(Report {
        notes: contents.notes,
        shown: contents.shown,
        declarations: contents.declarations,
        all,
    })
}
