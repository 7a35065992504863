//! The report, line by line into a sink.

ghost use Rattle.std.specs.Prelude.{◌<◌, ◌++◌, length, OnOk, OnErr};
ghost use Rattle.std.specs.Option.{option_copied};
ghost use Rattle.std.specs.Io.KnownBytes.{Appends};
ghost use Rattle.cv_io.specs.Causes.{HasSinkCause};
ghost use Rattle.cv_io.specs.Streams.{TookPrefix};
ghost use Rattle.cv_report.specs.Report.{cause_line, cause_lines, element_text, elements_text, note_line, notes_text, outcome_line, report_text};
ghost use Rattle.cv_report.specs.Written.{TookText};

use crate::causes::Causes;
use crate::lines::{push_cause, push_note, push_outcome};
use cv_io::{Sink, SinkErr, put};
use cv_props::{Cause, Computed, Key, Note};
use std::alloc::Global;

/// Writes the report: the notes, then by element the shown keys in order. Each line is put as one piece.
///
/// # Errors
///
/// After each a prefix of the report was taken. [`SinkErr::Failed`] only where the sink's count of faults rose;
/// [`SinkErr::Memory`] for want of memory.
pub fn report<O: Sink>(
    alloc: Global,
    notes: &[Note],
    shown: &[Key],
    all: &[Computed],
    out: &mut O,
) -> Result<(), SinkErr>
    requires { length all.now < 4294967288 }
    ensures whole { OnOk result (Appends (O.taken out.old) (O.taken out.new) (report_text notes.now shown.now all.now)) }
    ensures part { OnErr result (TookPrefix (O.taken out.old) (O.taken out.new) (report_text notes.now shown.now all.now)) }
    ensures cause { HasSinkCause (O.faults out.old) (O.faults out.new) result }
{
    let mut line = Vec::new(alloc);
    match write_notes(&mut line, notes, out) {
        Ok(()) => {}
        Err(error) => return Err(error),
    }
    write_elements(alloc, &mut line, shown, all, out)
}

// Writes the notes. Each line is made in the same buffer, here and below.
fn write_notes<O: Sink>(line: &mut Vec<u8>, notes: &[Note], out: &mut O) -> Result<(), SinkErr>
    ensures taken { TookText (O.taken out.old) (O.taken out.new) (notes_text notes.now) result }
    ensures cause { HasSinkCause (O.faults out.old) (O.faults out.new) result }
{
    for note in notes {
        match write_note(line, *note, out) {
            Ok(()) => {}
            Err(error) => return Err(error),
        }
    }
    Ok(())
}

fn write_note<O: Sink>(line: &mut Vec<u8>, note: Note, out: &mut O) -> Result<(), SinkErr>
    ensures taken { TookText (O.taken out.old) (O.taken out.new) (note_line note) result }
    ensures cause { HasSinkCause (O.faults out.old) (O.faults out.new) result }
{
    line.clear();
    push_note(line, note)?;
    put(out, line)
}

fn write_elements<O: Sink>(
    alloc: Global,
    line: &mut Vec<u8>,
    shown: &[Key],
    all: &[Computed],
    out: &mut O,
) -> Result<(), SinkErr>
    requires { length all.now < 4294967288 }
    ensures taken { TookText (O.taken out.old) (O.taken out.new) (elements_text shown.now all.now) result }
    ensures cause { HasSinkCause (O.faults out.old) (O.faults out.new) result }
{
    for (element, computed) in all.iter().enumerate() {
        match write_element(alloc, line, element as u32, shown, computed, out) {
            Ok(()) => {}
            Err(error) => return Err(error),
        }
    }
    Ok(())
}

fn write_element<O: Sink>(
    alloc: Global,
    line: &mut Vec<u8>,
    element: u32,
    shown: &[Key],
    computed: &Computed,
    out: &mut O,
) -> Result<(), SinkErr>
    ensures taken { TookText (O.taken out.old) (O.taken out.new) (element_text shown.now (element, computed.now)) result }
    ensures cause { HasSinkCause (O.faults out.old) (O.faults out.new) result }
{
    let causes = Causes::of(alloc, computed.faults.as_slice())?;
    for key in shown {
        match write_values(alloc, line, element, key, computed, causes.get(key), out) {
            Ok(()) => {}
            Err(error) => return Err(error),
        }
    }
    Ok(())
}

// The lines of a key on an element.
fn write_values<O: Sink>(
    alloc: Global,
    line: &mut Vec<u8>,
    element: u32,
    key: &Key,
    computed: &Computed,
    cause: Option<&Cause>,
    out: &mut O,
) -> Result<(), SinkErr>
    ensures taken { TookText (O.taken out.old) (O.taken out.new) (outcome_line element key.now computed.now ++ cause_lines element key.now (option_copied cause.entry)) result }
    ensures cause { HasSinkCause (O.faults out.old) (O.faults out.new) result }
{
    match write_outcome(alloc, line, element, key, computed, out) {
        Ok(()) => {}
        Err(error) => return Err(error),
    }
    write_cause(alloc, line, element, key, cause, out)
}

fn write_outcome<O: Sink>(
    alloc: Global,
    line: &mut Vec<u8>,
    element: u32,
    key: &Key,
    computed: &Computed,
    out: &mut O,
) -> Result<(), SinkErr>
    ensures taken { TookText (O.taken out.old) (O.taken out.new) (outcome_line element key.now computed.now) result }
    ensures cause { HasSinkCause (O.faults out.old) (O.faults out.new) result }
{
    line.clear();
    push_outcome(alloc, line, element, key, computed)?;
    put(out, line)
}

fn write_cause<O: Sink>(
    alloc: Global,
    line: &mut Vec<u8>,
    element: u32,
    key: &Key,
    cause: Option<&Cause>,
    out: &mut O,
) -> Result<(), SinkErr>
    ensures taken { TookText (O.taken out.old) (O.taken out.new) (cause_lines element key.now (option_copied cause.entry)) result }
    ensures cause { HasSinkCause (O.faults out.old) (O.faults out.new) result }
{
    match cause {
        Some(cause) => write_one_cause(alloc, line, element, key, cause, out),
        None => Ok(()),
    }
}

fn write_one_cause<O: Sink>(
    alloc: Global,
    line: &mut Vec<u8>,
    element: u32,
    key: &Key,
    cause: &Cause,
    out: &mut O,
) -> Result<(), SinkErr>
    ensures taken { TookText (O.taken out.old) (O.taken out.new) (cause_line element key.now cause.now) result }
    ensures cause { HasSinkCause (O.faults out.old) (O.faults out.new) result }
{
    line.clear();
    push_cause(alloc, line, element, key, cause)?;
    put(out, line)
}
