//! The lines of a report.

ghost use Rattle.std.specs.Prelude.{◌≡◌, ◌++◌, decimal, find, IfOk, OnOk, OnErr};
ghost use Rattle.std.specs.Option.{option_copied};
ghost use Rattle.cv_report.specs.Report.{cause_line, cause_of, cause_text, counted, note_line, outcome_line, place_text, subject, value_lines, why_text};

use cv_props::{Cause, Computed, Key, Note, NotePlace, Why, key_text, outcome_text};
use itoa::Buffer;
use std::alloc::{AllocError, Global};

fn push_number(text: &mut Vec<u8>, number: u32) -> Result<(), AllocError>
    ensures { OnOk result (text.new.items ≡ text.old.items ++ decimal number) }
{
    let mut buffer = Buffer::new();
    text.extend_from_slice(buffer.format(number).as_bytes())
}

fn why_text(why: Why) -> &'static str
    ensures { result.now ≡ why_text why }
{
    match why {
        Why::Skipped => "skipped",
        Why::RuleName => "invalid @property (name)",
        Why::RuleBlock => "invalid @property (block)",
        Why::RuleSyntax => "invalid @property (syntax)",
        Why::RuleInherits => "invalid @property (inherits)",
        Why::RuleInitial => "invalid @property (initial-value)",
        Why::AtRule => "at-rule",
        Why::NotDeclaration => "not a declaration",
        Why::UnknownProperty => "unknown property",
        Why::TooDeep => "too deep",
        Why::BadValue => "bad value",
        Why::BadVar => "bad var",
    }
}

// Adds a word and a number.
#[tactic(auto, unfolding(crate::specs::Report::counted))]
fn push_counted(text: &mut Vec<u8>, word: &str, number: u32) -> Result<(), AllocError>
    ensures { OnOk result (text.new.items ≡ text.old.items ++ counted word.now number) }
{
    text.extend_from_slice(word.as_bytes())?;
    push_number(text, number)
}

fn push_place(text: &mut Vec<u8>, place: NotePlace) -> Result<(), AllocError>
    ensures { OnOk result (text.new.items ≡ text.old.items ++ place_text place) }
{
    match place {
        NotePlace::Rule(number) => push_counted(text, "sheet rule ", number),
        NotePlace::Item { element, item } => {
            push_counted(text, "element ", element)?;
            push_counted(text, " declaration ", item)
        }
    }
}

/// Adds the line of a note. At want of memory it may have been begun.
pub fn push_note(text: &mut Vec<u8>, note: Note) -> Result<(), AllocError>
    ensures { OnOk result (text.new.items ≡ text.old.items ++ note_line note) }
{
    text.extend_from_slice(b"# ")?;
    push_place(text, note.place)?;
    text.extend_from_slice(b": ")?;
    text.extend_from_slice(why_text(note.why).as_bytes())?;
    text.push(b'\n')?;
    Ok(())
}

/// Adds the line of a note, as `# sheet rule 0: skipped`.
pub fn note_line(alloc: Global, note: &Note, out: &mut Vec<u8>) -> Result<(), AllocError>
    ensures ok { OnOk result (out.new.items ≡ out.old.items ++ note_line note.now) }
    ensures err { OnErr result (out.new.items ≡ out.old.items) }
{
    let mut text = Vec::new(alloc);
    push_note(&mut text, *note)?;
    out.extend_from_slice(&text)
}

// Adds the number of an element and the name of a key, each with a space behind it.
fn push_subject(
    alloc: Global,
    text: &mut Vec<u8>,
    element: u32,
    key: &Key,
) -> Result<(), AllocError>
    ensures { OnOk result (text.new.items ≡ text.old.items ++ subject element key.now) }
{
    push_number(text, element)?;
    text.push(b' ')?;
    key_text(alloc, key, text)?;
    text.push(b' ')?;
    Ok(())
}

/// Adds the line of a key's outcome. At want of memory it may have been begun.
pub fn push_outcome(
    alloc: Global,
    text: &mut Vec<u8>,
    element: u32,
    key: &Key,
    computed: &Computed,
) -> Result<(), AllocError>
    ensures { OnOk result (text.new.items ≡ text.old.items ++ outcome_line element key.now computed.now) }
{
    push_subject(alloc, text, element, key)?;
    outcome_text(alloc, computed.values.get(key), text)?;
    text.push(b'\n')?;
    Ok(())
}

// The cause for which a key is bad, if it is.
fn cause_of<'a>(key: &Key, faults: &'a [(Key, Cause)]) -> Option<&'a Cause>
    ensures { option_copied result ≡ cause_of key.now faults.now }
{
    faults
        .iter()
        .find(|fault| *key == fault.0)
        .map(|fault| &fault.1)
}

fn cause_text(cause: &Cause) -> &'static str
    ensures { result.now ≡ cause_text cause.now }
{
    match cause {
        Cause::Cycle => "cycle",
        Cause::Missing(_) => "missing",
        Cause::Limit(_) => "limit",
        Cause::Mismatch => "mismatch",
    }
}

/// Adds the line of a cause. At want of memory it may have been begun.
pub fn push_cause(
    alloc: Global,
    text: &mut Vec<u8>,
    element: u32,
    key: &Key,
    cause: &Cause,
) -> Result<(), AllocError>
    ensures { OnOk result (text.new.items ≡ text.old.items ++ cause_line element key.now cause.now) }
{
    push_subject(alloc, text, element, key)?;
    text.extend_from_slice(b"! ")?;
    text.extend_from_slice(cause_text(cause).as_bytes())?;
    text.push(b'\n')?;
    Ok(())
}

fn text_of_values(
    alloc: Global,
    element: u32,
    key: &Key,
    computed: &Computed,
) -> Result<Vec<u8>, AllocError>
    ensures { IfOk result (λ text. text.items ≡ value_lines element key.now computed.now) }
{
    let mut text = Vec::new(alloc);
    push_outcome(alloc, &mut text, element, key, computed)?;
    if let Some(cause) = cause_of(key, computed.faults.as_slice()) {
        push_cause(alloc, &mut text, element, key, cause)?;
    }
    Ok(text)
}

/// Adds the line of a key's outcome, as `0 --a = 1px`, and where it is bad the line of its cause, as `0 --a ! cycle`. Of more
/// than one cause the first counts.
pub fn value_lines(
    alloc: Global,
    element: u32,
    key: &Key,
    computed: &Computed,
    out: &mut Vec<u8>,
) -> Result<(), AllocError>
    ensures ok { OnOk result (out.new.items ≡ out.old.items ++ value_lines element key.now computed.now) }
    ensures err { OnErr result (out.new.items ≡ out.old.items) }
{
    let text = text_of_values(alloc, element, key, computed)?;
    out.extend_from_slice(&text)
}
