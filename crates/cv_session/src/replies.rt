//! The texts of replies.

ghost use Rattle.std.specs.Prelude.{◌≡◌, IfOk, decimal};
ghost use Rattle.cv_session.specs.Texts.{range_text, refusal_text, reply_line};

use cv_map::MapErr;
use cv_props::{Key, key_text};
use std::alloc::{AllocError, Global};

/// These bytes.
pub(crate) fn bytes_of(alloc: Global, text: &str) -> Result<Vec<u8>, AllocError>
    ensures { IfOk result (λ bytes. bytes.items ≡ text.now) }
{
    let mut bytes = Vec::new(alloc);
    bytes.extend_from_slice(text.as_bytes())?;
    Ok(bytes)
}

/// Why a call of a property map is refused. Want of memory has no text.
pub(crate) fn refusal_text(error: MapErr) -> &'static str
    ensures { result.now ≡ refusal_text error }
{
    match error {
        MapErr::NoProperty => "refused NoProperty",
        MapErr::NotList => "refused NotList",
        MapErr::BadValue => "refused BadValue",
        MapErr::Memory => "",
    }
}

/// That the property is out of range on the element.
pub(crate) fn range_text(alloc: Global, element: u32, property: &Key) -> Result<Vec<u8>, AllocError>
    ensures { IfOk result (λ text. text.items ≡ range_text element property.now) }
{
    let front = format!(in alloc; "refused Range {element} ")?;
    let mut text = bytes_of(alloc, front.as_str())?;
    key_text(alloc, property, &mut text)?;
    Ok(text)
}

/// A number of declarations.
pub(crate) fn number_text(alloc: Global, number: usize) -> Result<Vec<u8>, AllocError>
    ensures { IfOk result (λ text. text.items ≡ decimal number) }
{
    let text = format!(in alloc; "{number}")?;
    bytes_of(alloc, text.as_str())
}

/// The line of the reply to the command with this number.
pub fn reply_line(alloc: Global, number: u64, text: &[u8]) -> Result<Vec<u8>, AllocError>
    ensures { IfOk result (λ line. line.items ≡ reply_line number text.now) }
{
    let front = format!(in alloc; "{number}: ")?;
    let mut line = bytes_of(alloc, front.as_str())?;
    line.extend_from_slice(text)?;
    line.push(b'\n')?;
    Ok(line)
}
