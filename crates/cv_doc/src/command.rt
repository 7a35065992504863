//! The commands of a session, as a document has them.

ghost use Rattle.std.specs.Prelude.{◌≡◌, codes, option_and_then, IfOk};
ghost use Rattle.serde_json.specs.Find.{as_str, get};
ghost use Rattle.serde_json.specs.View.{view};
ghost use Rattle.cv_doc.specs.Commands.{command_of, command_with, number_in, verb_named, with_name, with_value};

use crate::value::{string, text_of, whole_up_to};
use cv_spec_text::Name;
use serde_json::Value;
use std::alloc::{AllocError, Global};

/// What a session is asked to do.
#[derive(Debug, Drop)]
pub enum Command {
    Get {
        element: u32,
        name: Name,
    },
    GetAll {
        element: u32,
        name: Name,
    },
    Has {
        element: u32,
        name: Name,
    },
    Set {
        element: u32,
        name: Name,
        value: Name,
    },
    Append {
        element: u32,
        name: Name,
        value: Name,
    },
    Delete {
        element: u32,
        name: Name,
    },
    Clear {
        element: u32,
    },
    Size {
        element: u32,
    },
    Entries {
        element: u32,
    },
    Computed {
        element: u32,
        name: Name,
    },
    Reify {
        element: u32,
        name: Name,
    },
    Unwatch {
        watcher: u32,
    },
}

// The word of a command.
#[derive(Clone, Copy, Debug)]
enum Verb {
    Get,
    GetAll,
    Has,
    Set,
    Append,
    Delete,
    Clear,
    Size,
    Entries,
    Computed,
    Reify,
    Unwatch,
}

/// The command that a value is, or `None` where it is none.
pub fn command_of(alloc: Global, value: &Value) -> Result<Option<Command>, AllocError>
    ensures { IfOk result (λ command. command ≡ command_of (view value.now)) }
{
    match verb_of(value) {
        Some(verb) => command_with(alloc, verb, value),
        None => Ok(None),
    }
}

fn verb_of(value: &Value) -> Option<Verb>
    ensures { result ≡ option_and_then verb_named (option_and_then as_str (get (codes "do") (view value.now))) }
{
    verb_named(string(value.get("do"))?)
}

fn verb_named(word: &str) -> Option<Verb>
    ensures { result ≡ verb_named word.now }
{
    match word {
        "get" => Some(Verb::Get),
        "getAll" => Some(Verb::GetAll),
        "has" => Some(Verb::Has),
        "set" => Some(Verb::Set),
        "append" => Some(Verb::Append),
        "delete" => Some(Verb::Delete),
        "clear" => Some(Verb::Clear),
        "size" => Some(Verb::Size),
        "entries" => Some(Verb::Entries),
        "computed" => Some(Verb::Computed),
        "reify" => Some(Verb::Reify),
        "unwatch" => Some(Verb::Unwatch),
        _ => None,
    }
}

// The command, where its members are there and of their kinds.
fn command_with(alloc: Global, verb: Verb, value: &Value) -> Result<Option<Command>, AllocError>
    ensures { IfOk result (λ command. command ≡ command_with verb (view value.now)) }
{
    match verb {
        Verb::Get => Ok(with_name(alloc, value)?.map(|(element, name)| Command::Get {
            element,
            name,
        })),
        Verb::GetAll => Ok(with_name(alloc, value)?.map(|(element, name)| Command::GetAll {
            element,
            name,
        })),
        Verb::Has => Ok(with_name(alloc, value)?.map(|(element, name)| Command::Has {
            element,
            name,
        })),
        Verb::Set => Ok(with_value(alloc, value)?.map(|(element, name, value)| Command::Set {
            element,
            name,
            value,
        })),
        Verb::Append => Ok(with_value(alloc, value)?.map(|(element, name, value)| Command::Append {
            element,
            name,
            value,
        })),
        Verb::Delete => Ok(with_name(alloc, value)?.map(|(element, name)| Command::Delete {
            element,
            name,
        })),
        Verb::Clear => Ok(number(value, "element").map(|element| Command::Clear { element })),
        Verb::Size => Ok(number(value, "element").map(|element| Command::Size { element })),
        Verb::Entries => Ok(number(value, "element").map(|element| Command::Entries { element })),
        Verb::Computed => Ok(with_name(alloc, value)?.map(|(element, name)| Command::Computed {
            element,
            name,
        })),
        Verb::Reify => Ok(with_name(alloc, value)?.map(|(element, name)| Command::Reify {
            element,
            name,
        })),
        Verb::Unwatch => Ok(number(value, "watcher").map(|watcher| Command::Unwatch { watcher })),
    }
}

// A whole number below 2 ^ 32.
fn number(value: &Value, key: &str) -> Option<u32>
    ensures { result ≡ number_in key.now (view value.now) }
{
    whole_up_to(u32::MAX, value.get(key))
}

// The number of an element, and a name.
fn with_name(alloc: Global, value: &Value) -> Result<Option<(u32, Name)>, AllocError>
    ensures { IfOk result (λ members. members ≡ with_name (view value.now)) }
{
    let Some(element) = number(value, "element") else {
        return Ok(None);
    };
    match text_of(alloc, value.get("name"))? {
        Some(name) => Ok(Some((element, name))),
        None => Ok(None),
    }
}

// The number of an element, a name and a value.
fn with_value(alloc: Global, value: &Value) -> Result<Option<(u32, Name, Name)>, AllocError>
    ensures { IfOk result (λ members. members ≡ with_value (view value.now)) }
{
    let Some((element, name)) = with_name(alloc, value)? else {
        return Ok(None);
    };
    match text_of(alloc, value.get("value"))? {
        Some(value) => Ok(Some((element, name, value))),
        None => Ok(None),
    }
}
