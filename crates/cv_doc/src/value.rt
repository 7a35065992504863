//! What is read of a JSON value.

ghost use Rattle.std.specs.Prelude.{◌≡◌, IfOk, option_map, option_and_then};
ghost use Rattle.serde_json.specs.Find.{as_str};
ghost use Rattle.serde_json.specs.View.{view};
ghost use Rattle.cv_doc.specs.Json.{json_of, text_of, whole_of, whole_up_to};
ghost use Rattle.cv_doc.specs.Members.{text_in};
ghost use Rattle.cv_doc.specs.Refusals.{Answers};

use crate::DocErr;
use crate::refusal::field;
use cv_spec_text::Name;
use serde_json::Value;
use std::alloc::{AllocError, Global};

/// The value that the bytes are read as, or `None` where they are no UTF-8, are no JSON or are nested deeper than 127.
pub fn read_json(alloc: Global, bytes: &[u8]) -> Result<Option<Value>, AllocError>
    ensures { IfOk result (λ value. option_map view value ≡ json_of bytes.now) }
{
    match Value::from_slice(alloc, bytes) {
        Ok(value) => Ok(Some(value)),
        Err(error) => {
            if error.is_memory() {
                Err(AllocError)
            } else {
                Ok(None)
            }
        }
    }
}

/// A whole number that is written in digits alone.
pub fn whole(value: Option<&Value>) -> Option<u64>
    ensures { result ≡ option_and_then whole_of (option_map (λ v. view v.now) value.entry) }
{
    value?.as_u64()
}

/// Such a number, up to the most.
pub fn whole_up_to(most: u32, value: Option<&Value>) -> Option<u32>
    ensures { result ≡ whole_up_to most (option_map (λ v. view v.now) value.entry) }
{
    let number = whole(value)?;
    if number <= most as u64 {
        Some(number as u32)
    } else {
        None
    }
}

/// A string.
pub fn string(value: Option<&Value>) -> Option<&str>
    ensures { option_map (λ s. s.now) result ≡ option_and_then as_str (option_map (λ v. view v.now) value.entry) }
{
    value?.as_str()
}

/// The text of a string.
pub fn text_of(alloc: Global, value: Option<&Value>) -> Result<Option<Name>, AllocError>
    ensures { IfOk result (λ text. text ≡ text_of (option_map (λ v. view v.now) value.entry)) }
{
    match string(value) {
        Some(text) => Ok(Some(Name::of(alloc, text)?)),
        None => Ok(None),
    }
}

/// A text that is empty where it is absent, or the refusal of its path.
pub fn text(alloc: Global, path: &str, value: Option<&Value>) -> Result<Name, DocErr>
    ensures { Answers (λ text. text) (text_in path.now (option_map (λ v. view v.now) value.entry)) result }
{
    if value.is_none() {
        return Ok(Name::new(alloc));
    }
    match text_of(alloc, value)? {
        Some(text) => Ok(text),
        None => Err(field(alloc, path)?),
    }
}
