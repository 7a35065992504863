//! The lines that watchers write.

ghost use Rattle.std.specs.Prelude.{◌≡◌, ◌++◌, OnOk, decimal, encode_utf8_all};
ghost use Rattle.cv_watch.specs.Texts.{change_line, values_text};

use crate::change::Change;
use cv_spec_text::Name;
use itoa::Buffer;
use std::alloc::AllocError;

fn bytes_of(text: &Name) -> &[u8]
    ensures { result.now ≡ encode_utf8_all text.now }
{
    text.text().as_bytes()
}

fn push_number(text: &mut Vec<u8>, number: u32) -> Result<(), AllocError>
    ensures { OnOk result (text.new.items ≡ text.old.items ++ decimal number) }
{
    let mut buffer = Buffer::new();
    text.extend_from_slice(buffer.format(number).as_bytes())
}

// Adds the old and the new value.
#[tactic(auto, unfolding(crate::specs::Texts::values_text))]
fn push_values(text: &mut Vec<u8>, change: &Change) -> Result<(), AllocError>
    ensures { OnOk result (text.new.items ≡ text.old.items ++ values_text change.now) }
{
    text.extend_from_slice(bytes_of(&change.old))?;
    text.extend_from_slice(b" -> ")?;
    text.extend_from_slice(bytes_of(&change.new))
}

/// Adds the line of a change. At want of memory it may have been begun.
pub(crate) fn push_change(text: &mut Vec<u8>, change: &Change) -> Result<(), AllocError>
    ensures { OnOk result (text.new.items ≡ text.old.items ++ change_line change.now) }
{
    push_number(text, change.element)?;
    text.push(b' ')?;
    text.extend_from_slice(bytes_of(&change.name))?;
    text.extend_from_slice(b": ")?;
    push_values(text, change)?;
    text.push(b'\n')?;
    Ok(())
}
