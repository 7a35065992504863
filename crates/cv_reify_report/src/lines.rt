//! The lines of a report of objects.

ghost use Rattle.std.specs.Prelude.{◌≡◌, ◌++◌, decimal, OnOk};
ghost use Rattle.std.specs.Option.{option_copied};
ghost use Rattle.cv_report.specs.Report.{subject};
ghost use Rattle.cv_reify.specs.Text.{style_text_or_none};
ghost use Rattle.cv_reify_report.specs.Report.{style_line};

use cv_props::{Key, key_text};
use cv_reify::{Style, style_text};
use itoa::Buffer;
use std::alloc::{AllocError, Global};

fn push_number(text: &mut Vec<u8>, number: u32) -> Result<(), AllocError>
    ensures { OnOk result (text.new.items ≡ text.old.items ++ decimal number) }
{
    let mut buffer = Buffer::new();
    text.extend_from_slice(buffer.format(number).as_bytes())
}

// Adds the number of an element and the name of a key, each with a space behind it.
fn push_subject(
    alloc: Global,
    text: &mut Vec<u8>,
    element: u32,
    key: &Key,
) -> Result<(), AllocError>
    ensures { OnOk result (text.new.items ≡ text.old.items ++ subject element key.now) }
{
    push_number(text, element)?;
    text.push(b' ')?;
    key_text(alloc, key, text)?;
    text.push(b' ')?;
    Ok(())
}

// Adds the text of an object, if there is one.
fn push_style(alloc: Global, text: &mut Vec<u8>, style: Option<&Style>) -> Result<(), AllocError>
    ensures { OnOk result (text.new.items ≡ text.old.items ++ style_text_or_none (option_copied style.entry)) }
{
    match style {
        Some(style) => style_text(alloc, style, text),
        None => text.extend_from_slice(b"none"),
    }
}

/// Adds the line of an object, with a word in front of it. At want of memory it may have been begun.
pub(crate) fn push_line(
    alloc: Global,
    text: &mut Vec<u8>,
    element: u32,
    key: &Key,
    word: &[u8],
    style: Option<&Style>,
) -> Result<(), AllocError>
    ensures { OnOk result (text.new.items ≡ text.old.items ++ style_line element key.now word.now (option_copied style.entry)) }
{
    push_subject(alloc, text, element, key)?;
    text.extend_from_slice(word)?;
    text.push(b' ')?;
    push_style(alloc, text, style)?;
    text.push(b'\n')?;
    Ok(())
}
