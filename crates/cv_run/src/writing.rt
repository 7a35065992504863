//! What a run writes.

ghost use Rattle.std.specs.Prelude.{◌≡◌, ◌⊎◌, OnErr, OnOk};
ghost use Rattle.std.specs.Io.KnownBytes.{Appends};
ghost use Rattle.cv_io.specs.Causes.{HasSinkCause, Rose};
ghost use Rattle.cv_io.specs.Streams.{TookPrefix};
ghost use Rattle.cv_run.specs.Telling.{IsFew, text_of};

use crate::status::Status;
use cv_io::{Sink, SinkErr, put};
use cv_props::{Computed, Decls, Key, Note};
use cv_reify_report::reify_report;
use cv_report::report;
use std::alloc::Global;

/// What a run writes.
#[derive(Drop)]
pub enum Writing {
    /// The notes, and the values that are shown.
    Values(Report),
    /// The notes, and the objects of the declarations and the values that are shown.
    Objects(Report),
    /// The summary of a generated document.
    Summary(Vec<u8>),
}

/// What a report tells.
#[derive(Drop)]
pub struct Report {
    pub notes: Vec<Note>,
    pub shown: Vec<Key>,
    pub declarations: Vec<Decls>,
    pub all: Vec<Computed>,
}

/// Writes it.
pub fn write<O: Sink>(alloc: Global, writing: &Writing, out: &mut O) -> Status
    requires { IsFew writing.now }
    ensures done { result ≡ Status.Done → Appends (O.taken out.old) (O.taken out.new) (text_of writing.now) }
    ensures cut_short { result ≡ Status.WriteFault → TookPrefix (O.taken out.old) (O.taken out.new) (text_of writing.now) }
    ensures no_memory { result ≡ Status.NoMemory → TookPrefix (O.taken out.old) (O.taken out.new) (text_of writing.now) }
    ensures write_fault { result ≡ Status.WriteFault → Rose (O.faults out.old) (O.faults out.new) }
    ensures others { (result ≡ Status.Done) ⊎ (result ≡ Status.WriteFault) ⊎ (result ≡ Status.NoMemory) }
{
    match put_all(alloc, writing, out) {
        Ok(()) => Status::Done,
        Err(SinkErr::Failed) => Status::WriteFault,
        Err(SinkErr::Memory) => Status::NoMemory,
    }
}

// Puts a report line by line, and a summary whole.
fn put_all<O: Sink>(alloc: Global, writing: &Writing, out: &mut O) -> Result<(), SinkErr>
    requires { IsFew writing.now }
    ensures whole { OnOk result (Appends (O.taken out.old) (O.taken out.new) (text_of writing.now)) }
    ensures part { OnErr result (TookPrefix (O.taken out.old) (O.taken out.new) (text_of writing.now)) }
    ensures cause { HasSinkCause (O.faults out.old) (O.faults out.new) result }
{
    match writing {
        Writing::Values(told) => report(alloc, &told.notes, &told.shown, &told.all, out),
        Writing::Objects(told) => reify_report(
            alloc,
            &told.notes,
            &told.shown,
            &told.declarations,
            &told.all,
            out,
        ),
        Writing::Summary(text) => put(out, text),
    }
}
