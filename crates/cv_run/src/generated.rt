//! The summary of a generated document.

ghost use Rattle.std.specs.Prelude.{◌≡◌, ◌≤◌, IfErr, IfOk, length};
ghost use Rattle.cv_doc.specs.Reading.{Shape};
ghost use Rattle.cv_words.specs.declared.words.Job.TheVariants.{Gen};
ghost use Rattle.cv_gen.specs.Generated.{gen_document};
ghost use Rattle.cv_tree.specs.Single.{HaveOneResult};
ghost use Rattle.cv_tree.specs.Tree.{AreComputed, tree_of};
ghost use Rattle.cv_run.specs.Fates.{computed};
ghost use Rattle.cv_run.specs.Telling.{IsRefusal, TellsOf};

use crate::laws::documents_have_one_report;
use crate::status::Status;
use cv_gen::{SummaryErr, document_of_size, summary};
use cv_props::{Computed, Key};
use cv_tree::{Stop, computed_of_document, contents_of};
use std::alloc::Global;

const LIMIT: u32 = 16384;

/// The summary of the generated document of this size, or the status with which it has none.
pub fn summary_of_size(alloc: Global, size: u32) -> Result<Vec<u8>, Status>
    requires least { 1 ≤ size }
    requires most { size ≤ 4096 }
    ensures tells { IfOk result (λ text. TellsOf Gen 16384 (computed (gen_document size)) text.items) }
    ensures refused { IfErr result (IsRefusal Gen 16384 (computed (gen_document size))) }
{
    let document = document_of_size(alloc, size)?;
    let contents = contents_of(alloc, &document)?;
    match computed_of_document(alloc, &document, &contents, LIMIT) {
        Ok(all) => summary_of(alloc, size, &all),
        Err(Stop::Range { element, property }) => Err(Status::Range { element, property }),
        Err(Stop::Memory) => Err(Status::NoMemory),
    }
}

// The summary, where this is computed of the generated document of this size.
fn summary_of(alloc: Global, size: u32, all: &[Computed]) -> Result<Vec<u8>, Status>
    requires few { length all.now ≤ 16384 }
    requires computed { AreComputed (tree_of (gen_document size)) 16384 (length (gen_document size).elements) all.now }
    requires single { HaveOneResult (tree_of (gen_document size)) 16384 }
    ensures tells { IfOk result (λ text. TellsOf Gen 16384 (computed (gen_document size)) text.items) }
    ensures refused { IfErr result (IsRefusal Gen 16384 (computed (gen_document size))) }
{
    documents_have_one_report();
    let mut text = Vec::new(alloc);
    match summary(alloc, all, &mut text) {
        Ok(()) => Ok(text),
        Err(SummaryErr::Range { element, property }) => Err(Status::Range {
            element,
            property: Key::Table(property),
        }),
        Err(SummaryErr::Memory) => Err(Status::NoMemory),
    }
}
