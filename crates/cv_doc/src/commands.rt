//! The commands of a document.

ghost use Rattle.std.specs.Prelude.{◌≡◌, ◌≤◌, length, option_map, IfOk, string_bytes};
ghost use Rattle.serde_json.specs.View.{items_view, view};
ghost use Rattle.cv_doc.specs.Commands.{command_in, command_path, commands_in, commands_of};
ghost use Rattle.cv_doc.specs.Refusals.{Answers, all_from};

use crate::array::array;
use crate::command::{Command, command_of};
use crate::refusal::field;
use crate::{DocErr, What};
use serde_json::Value;
use std::alloc::{AllocError, Global};

const MOST_COMMANDS: usize = 4096;

/// The commands, empty where they are absent, or the first refusal.
pub fn commands(alloc: Global, value: Option<&Value>) -> Result<Vec<Command>, DocErr>
    ensures { Answers (λ commands. commands.items) (commands_in (option_map (λ v. view v.now) value.entry)) result }
{
    if value.is_none() {
        return Ok(Vec::new(alloc));
    }
    match array(value) {
        Some(items) => commands_of(alloc, items),
        None => Err(field(alloc, "commands")?),
    }
}

#[tactic(auto, using(crate::proofs::Items::count_of_items))]
fn commands_of(alloc: Global, items: &[Value]) -> Result<Vec<Command>, DocErr>
    ensures { Answers (λ commands. commands.items) (commands_of (items_view items.now)) result }
{
    if items.len() > MOST_COMMANDS {
        return Err(DocErr::TooMany(What::Commands));
    }
    each_command(alloc, items)
}

fn each_command(alloc: Global, items: &[Value]) -> Result<Vec<Command>, DocErr>
    requires { length items.now ≤ 4096 }
    ensures { Answers (λ commands. commands.items) (all_from command_in 0 (items_view items.now)) result }
{
    let mut commands = Vec::new(alloc);
    let mut rest = items;
    let mut index = 0u32;
    while let Some((item, after)) = rest.split_first() {
        commands
            .push(read_command(alloc, index, item)?)
            .map_err(AllocError::from)?;
        index += 1;
        rest = after;
    }
    Ok(commands)
}

fn read_command(alloc: Global, index: u32, value: &Value) -> Result<Command, DocErr>
    ensures { Answers (λ command. command) (command_in index (view value.now)) result }
{
    match command_of(alloc, value)? {
        Some(command) => Ok(command),
        None => {
            let path = command_path(alloc, index)?;
            Err(field(alloc, path.as_str())?)
        }
    }
}

fn command_path(alloc: Global, index: u32) -> Result<String, AllocError>
    ensures { IfOk result (λ path. string_bytes path ≡ command_path index) }
{
    format!(in alloc; "commands/{index}")
}
