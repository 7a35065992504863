//! The report, line by line into a sink.

ghost use Rattle.std.specs.Prelude.{◌≡◌, ◌<◌, ◌++◌, codes, length, OnOk, OnErr, Ok, Some, None};
ghost use Rattle.std.specs.Option.{option_copied};
ghost use Rattle.std.specs.Io.KnownBytes.{Appends};
ghost use Rattle.cv_io.specs.Causes.{HasSinkCause};
ghost use Rattle.cv_io.specs.Streams.{TookPrefix};
ghost use Rattle.cv_report.specs.Report.{note_line, notes_text};
ghost use Rattle.cv_report.specs.Written.{TookText};
ghost use Rattle.cv_valuation.specs.Valuations.{outcome_at};
ghost use Rattle.cv_props.specs.Winners.{declaration_of};
ghost use Rattle.cv_reify.specs.ComputedStyle.{computed_style};
ghost use Rattle.cv_reify.specs.DeclaredStyle.{declared_style};
ghost use Rattle.cv_reify_report.specs.Report as reports;

use crate::lines::push_line;
use cv_io::{Sink, SinkErr, put};
use cv_props::{Computed, Decl, Decls, Key, Note};
use cv_reify::{ReifyErr, Style, reify_computed, reify_declared};
use cv_report::note_line;
use std::alloc::Global;

/// Writes the report of objects: the notes, then by element the shown keys in order, each with the object of its declaration, where it has
/// one, and that of its value. Each line is put as one piece.
///
/// # Errors
///
/// After each a prefix of the report was taken. [`SinkErr::Failed`] only where the sink's count of faults rose;
/// [`SinkErr::Memory`] for want of memory.
pub fn reify_report<O: Sink>(
    alloc: Global,
    notes: &[Note],
    shown: &[Key],
    declarations: &[Decls],
    all: &[Computed],
    out: &mut O,
) -> Result<(), SinkErr>
    requires paired { length declarations.now ≡ length all.now }
    requires few { length all.now < 4294967288 }
    ensures whole { OnOk result (Appends (O.taken out.old) (O.taken out.new) (reports.reify_text notes.now shown.now declarations.now all.now)) }
    ensures part { OnErr result (TookPrefix (O.taken out.old) (O.taken out.new) (reports.reify_text notes.now shown.now declarations.now all.now)) }
    ensures cause { HasSinkCause (O.faults out.old) (O.faults out.new) result }
{
    let mut line = Vec::new(alloc);
    match write_notes(alloc, &mut line, notes, out) {
        Ok(()) => {}
        Err(error) => return Err(error),
    }
    write_elements(alloc, &mut line, shown, declarations, all, out)
}

// Writes the notes. Each line is made in the same buffer, here and below.
fn write_notes<O: Sink>(
    alloc: Global,
    line: &mut Vec<u8>,
    notes: &[Note],
    out: &mut O,
) -> Result<(), SinkErr>
    ensures taken { TookText (O.taken out.old) (O.taken out.new) (notes_text notes.now) result }
    ensures cause { HasSinkCause (O.faults out.old) (O.faults out.new) result }
{
    for note in notes {
        match write_note(alloc, line, note, out) {
            Ok(()) => {}
            Err(error) => return Err(error),
        }
    }
    Ok(())
}

fn write_note<O: Sink>(
    alloc: Global,
    line: &mut Vec<u8>,
    note: &Note,
    out: &mut O,
) -> Result<(), SinkErr>
    ensures taken { TookText (O.taken out.old) (O.taken out.new) (note_line note.now) result }
    ensures cause { HasSinkCause (O.faults out.old) (O.faults out.new) result }
{
    line.clear();
    note_line(alloc, note, line)?;
    put(out, line)
}

fn write_elements<O: Sink>(
    alloc: Global,
    line: &mut Vec<u8>,
    shown: &[Key],
    declarations: &[Decls],
    all: &[Computed],
    out: &mut O,
) -> Result<(), SinkErr>
    requires paired { length declarations.now ≡ length all.now }
    requires few { length all.now < 4294967288 }
    ensures taken { TookText (O.taken out.old) (O.taken out.new) (reports.elements_text shown.now declarations.now all.now) result }
    ensures cause { HasSinkCause (O.faults out.old) (O.faults out.new) result }
{
    for (element, computed) in all.iter().enumerate() {
        let declared = &declarations[element];
        match write_element(alloc, line, element as u32, shown, declared, computed, out) {
            Ok(()) => {}
            Err(error) => return Err(error),
        }
    }
    Ok(())
}

fn write_element<O: Sink>(
    alloc: Global,
    line: &mut Vec<u8>,
    element: u32,
    shown: &[Key],
    declared: &Decls,
    computed: &Computed,
    out: &mut O,
) -> Result<(), SinkErr>
    ensures taken { TookText (O.taken out.old) (O.taken out.new) (reports.element_text shown.now (element, (declared.now, computed.now))) result }
    ensures cause { HasSinkCause (O.faults out.old) (O.faults out.new) result }
{
    for key in shown {
        match write_key(alloc, line, element, key, declared, computed, out) {
            Ok(()) => {}
            Err(error) => return Err(error),
        }
    }
    Ok(())
}

// The lines of a key on an element.
fn write_key<O: Sink>(
    alloc: Global,
    line: &mut Vec<u8>,
    element: u32,
    key: &Key,
    declared: &Decls,
    computed: &Computed,
    out: &mut O,
) -> Result<(), SinkErr>
    ensures taken { TookText (O.taken out.old) (O.taken out.new) (reports.key_lines element key.now declared.now computed.now) result }
    ensures cause { HasSinkCause (O.faults out.old) (O.faults out.new) result }
{
    match write_declared(alloc, line, element, key, declared.get(key), out) {
        Ok(()) => {}
        Err(error) => return Err(error),
    }
    write_computed(alloc, line, element, key, computed, out)
}

// The line of a declaration, if there is one.
fn write_declared<O: Sink>(
    alloc: Global,
    line: &mut Vec<u8>,
    element: u32,
    key: &Key,
    declaration: Option<&Decl>,
    out: &mut O,
) -> Result<(), SinkErr>
    ensures taken { TookText (O.taken out.old) (O.taken out.new) (reports.declared_lines element key.now (option_copied declaration.entry)) result }
    ensures cause { HasSinkCause (O.faults out.old) (O.faults out.new) result }
{
    match declaration {
        Some(declaration) => write_declaration(alloc, line, element, key, declaration, out),
        None => Ok(()),
    }
}

fn write_declaration<O: Sink>(
    alloc: Global,
    line: &mut Vec<u8>,
    element: u32,
    key: &Key,
    declaration: &Decl,
    out: &mut O,
) -> Result<(), SinkErr>
    ensures taken { TookText (O.taken out.old) (O.taken out.new) (reports.object_lines element key.now (declared_style key.now declaration.now)) result }
    ensures cause { HasSinkCause (O.faults out.old) (O.faults out.new) result }
{
    match reify_declared(alloc, key, declaration) {
        Ok(style) => write_style(alloc, line, element, key, b"declared", Some(&style), out),
        Err(ReifyErr::Range) => Ok(()),
        Err(ReifyErr::Memory) => Err(SinkErr::Memory),
    }
}

// The line of a value.
fn write_computed<O: Sink>(
    alloc: Global,
    line: &mut Vec<u8>,
    element: u32,
    key: &Key,
    computed: &Computed,
    out: &mut O,
) -> Result<(), SinkErr>
    ensures taken { TookText (O.taken out.old) (O.taken out.new) (reports.computed_line element key.now (outcome_at computed.now.values key.now)) result }
    ensures cause { HasSinkCause (O.faults out.old) (O.faults out.new) result }
{
    let style = reify_computed(alloc, key, computed.values.get(key))?;
    write_style(alloc, line, element, key, b"computed", style.as_ref(), out)
}

fn write_style<O: Sink>(
    alloc: Global,
    line: &mut Vec<u8>,
    element: u32,
    key: &Key,
    word: &[u8],
    style: Option<&Style>,
    out: &mut O,
) -> Result<(), SinkErr>
    ensures taken { TookText (O.taken out.old) (O.taken out.new) (reports.style_line element key.now word.now (option_copied style.entry)) result }
    ensures cause { HasSinkCause (O.faults out.old) (O.faults out.new) result }
{
    line.clear();
    push_line(alloc, line, element, key, word, style)?;
    put(out, line)
}
