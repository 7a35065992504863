//! The line of a status.

ghost use Rattle.std.specs.Prelude.{◌≡◌, ◌∷◌, [], IfOk};
ghost use Rattle.cv_io.specs.Causes.{HasSinkCause};
ghost use Rattle.cv_report.specs.Written.{TookText};
ghost use Rattle.cv_spec_text.specs.Characters.{line_feed};
ghost use Rattle.cv_run.specs.StatusLines.{ended, line, line_of, malformed_line, part_text, range_line};

use crate::status::Status;
use cv_doc::{BadDoc, What};
use cv_io::{Sink, SinkErr, put};
use cv_props::{Key, key_text};
use itoa::Buffer;
use std::alloc::{AllocError, Global};

impl Status {
    /// Writes the line of the status with its LF, as `cssvars: malformed: field elements/3/style`; none where the run is done.
    /// Only the line of a property that is out of range takes memory.
    ///
    /// # Errors
    ///
    /// Those of the sink, and want of memory. After each a front of the line was taken.
    pub fn put_line<E: Sink>(&self, alloc: Global, err: &mut E) -> Result<(), SinkErr>
        ensures taken { TookText (E.taken err.old) (E.taken err.new) (line_of self.now) result }
        ensures cause { HasSinkCause (E.faults err.old) (E.faults err.new) result }
    {
        match self {
            Status::Done => put_text(err, b""),
            Status::Usage => put_text(err, b"cssvars: bad usage\n"),
            Status::ReadFault => put_text(err, b"cssvars: read fault\n"),
            Status::TooLarge(what) => {
                put_around(err, b"cssvars: too large: ", part_text(*what).as_bytes())
            }
            Status::Malformed(why) => put_malformed(err, why),
            Status::Range { element, property } => put_range(alloc, err, *element, property),
            Status::WriteFault => put_text(err, b"cssvars: write fault\n"),
            Status::NoMemory => put_text(err, b"cssvars: no memory\n"),
        }
    }
}

fn part_text(what: What) -> &'static str
    ensures { result.now ≡ part_text what }
{
    match what {
        What::Bytes => "bytes",
        What::Elements => "elements",
        What::Show => "show",
        What::Commands => "commands",
        What::Names => "names",
    }
}

// Writes the line of a property that is out of range on an element.
fn put_range<E: Sink>(
    alloc: Global,
    err: &mut E,
    element: u32,
    property: &Key,
) -> Result<(), SinkErr>
    ensures taken { TookText (E.taken err.old) (E.taken err.new) (range_line element property.now) result }
    ensures cause { HasSinkCause (E.faults err.old) (E.faults err.new) result }
{
    match range_text(alloc, element, property) {
        Ok(text) => put_text(err, &text),
        Err(_) => Err(SinkErr::Memory),
    }
}

fn range_text(alloc: Global, element: u32, property: &Key) -> Result<Vec<u8>, AllocError>
    ensures { IfOk result (λ text. text.items ≡ range_line element property.now) }
{
    let mut text = Vec::from_slice(alloc, b"cssvars: out of range: element ")?;
    let mut buffer = Buffer::new();
    text.extend_from_slice(buffer.format(element).as_bytes())?;
    text.push(b' ')?;
    key_text(alloc, property, &mut text)?;
    text.push(b'\n')?;
    Ok(text)
}

fn put_malformed<E: Sink>(err: &mut E, why: &BadDoc) -> Result<(), SinkErr>
    ensures taken { TookText (E.taken err.old) (E.taken err.new) (malformed_line why.now) result }
    ensures cause { HasSinkCause (E.faults err.old) (E.faults err.new) result }
{
    match why {
        BadDoc::NotJson => put_text(err, b"cssvars: malformed: not JSON\n"),
        BadDoc::Field(path) => {
            put_around(err, b"cssvars: malformed: field ", path.text().as_bytes())
        }
        BadDoc::BadParent(element) => {
            let mut buffer = Buffer::new();
            let number = buffer.format(*element);
            put_around(err, b"cssvars: malformed: parent ", number.as_bytes())
        }
        BadDoc::BadViewport => put_text(err, b"cssvars: malformed: viewport\n"),
    }
}

// Writes a front, a text and an LF.
fn put_around<E: Sink>(err: &mut E, front: &[u8], text: &[u8]) -> Result<(), SinkErr>
    ensures taken { TookText (E.taken err.old) (E.taken err.new) (line front.now text.now) result }
    ensures cause { HasSinkCause (E.faults err.old) (E.faults err.new) result }
{
    match put_text(err, front) {
        Ok(()) => {}
        Err(error) => return Err(error),
    }
    put_ended(err, text)
}

// Writes a text and an LF.
fn put_ended<E: Sink>(err: &mut E, text: &[u8]) -> Result<(), SinkErr>
    ensures taken { TookText (E.taken err.old) (E.taken err.new) (ended text.now) result }
    ensures cause { HasSinkCause (E.faults err.old) (E.faults err.new) result }
{
    match put_text(err, text) {
        Ok(()) => {}
        Err(error) => return Err(error),
    }
    put_line_feed(err)
}

fn put_line_feed<E: Sink>(err: &mut E) -> Result<(), SinkErr>
    ensures taken { TookText (E.taken err.old) (E.taken err.new) (line_feed ∷ []) result }
    ensures cause { HasSinkCause (E.faults err.old) (E.faults err.new) result }
{
    put_text(err, b"\n")
}

fn put_text<E: Sink>(err: &mut E, text: &[u8]) -> Result<(), SinkErr>
    ensures taken { TookText (E.taken err.old) (E.taken err.new) text.now result }
    ensures cause { HasSinkCause (E.faults err.old) (E.faults err.new) result }
{
    put(err, text)
}
