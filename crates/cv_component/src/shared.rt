//! The items of a style whose values share its list.

ghost use Rattle.std.specs.Prelude.{◌≡◌, ◌≤◌, ℕ, List, length, map, drop, take, None, Some, MatchOption, IfOk, IfSome};
ghost use Rattle.cv_component.specs.declared.items.Piece.TheVariants as pieces;
ghost use Rattle.cv_component.specs.Items.{declaration, declaration_by, declared_value, item, items, unimportant};
ghost use Rattle.cv_component.specs.Nesting.{completed};
ghost use Rattle.cv_component.specs.Parts.{trim};
ghost use Rattle.cv_component.specs.TopLevel.{trim_front};
ghost use Rattle.cv_component.specs.Shared.{piece_of};

use crate::items::{item_length, separates, unimportant};
use crate::splitting::is_closed;
use crate::top_level::{completed, trim_end, trim_front};
use cv_spec_text::{Name, OutOfMemory, Run, Token};
use std::alloc::Global;

/// An item: a declaration, a rule, or neither. The value of a declaration shares the list that the item stands in.
#[derive(Drop)]
pub enum SharedPiece {
    Decl {
        name: Name,
        value: Run,
        important: bool,
    },
    At,
    Other,
}

/// The run without whitespace at its ends, which shares its list.
pub fn trim_run(list: Run) -> Run
    ensures { result ≡ trim list }
{
    let tokens = list.tokens();
    let front = trim_front(tokens);
    let start = tokens.len() - front.len();
    let end = start + trim_end(front).len();
    list.into_part(start, end)
}

// The run, and closing brackets for those that are open at its end: the run itself where none is.
fn completed_run(alloc: Global, list: Run) -> Result<Run, OutOfMemory>
    ensures { IfOk result (λ all. all ≡ completed list) }
{
    if is_closed(alloc, list.tokens())? {
        return Ok(list);
    }
    let all = completed(alloc, list.tokens())?;
    Run::of(alloc, all)
}

// The value of a declaration, from the token behind its colon on.
#[tactic(auto, unfolding(crate::specs::Items::declared_value))]
fn shared_value(alloc: Global, list: Run) -> Result<Run, OutOfMemory>
    ensures { IfOk result (λ value. value ≡ declared_value list) }
{
    let all = completed_run(alloc, list)?;
    Ok(trim_run(all))
}

// How many tokens stand in front of `! important`, if the value ends in that.
fn unimportant_length(value: &[Token]) -> Option<usize>
    ensures before { MatchOption result (unimportant value.now ≡ None) (λ size. unimportant value.now ≡ Some (take size value.now)) }
    ensures within { IfSome result (λ size. size ≤ length value.now) }
{
    match unimportant(value) {
        Some(before) => Some(before.len()),
        None => None,
    }
}

// The value without `! important`, and whether it ended in that.
fn without_importance(value: Run) -> (Run, bool)
    ensures { (name : List ℕ) → declaration_by name value (unimportant value) ≡ pieces.Decl name result.0 result.1 }
{
    match unimportant_length(value.tokens()) {
        Some(size) => (value.into_part(0, size), true),
        None => (value, false),
    }
}

// A declaration, from the token behind its name on.
fn shared_declaration(alloc: Global, name: Name, list: Run) -> Result<SharedPiece, OutOfMemory>
    ensures { IfOk result (λ piece. piece_of piece ≡ declaration name list) }
{
    let size = list.tokens().len();
    match list.tokens() {
        [Token::Colon, ..] => {
            let value = shared_value(alloc, list.into_part(1, size))?;
            let (value, important) = without_importance(value);
            Ok(SharedPiece::Decl {
                name,
                value,
                important,
            })
        }
        _ => Ok(SharedPiece::Other),
    }
}

// The tokens behind the first, without whitespace at their front.
fn behind_name(list: Run) -> Run
    requires { 1 ≤ length list }
    ensures { result ≡ trim_front (drop 1 list) }
{
    let tokens = list.tokens();
    let size = tokens.len();
    let start = size - trim_front(&tokens[1..]).len();
    list.into_part(start, size)
}

// What an item is.
fn shared_item(alloc: Global, list: Run) -> Result<SharedPiece, OutOfMemory>
    ensures { IfOk result (λ piece. piece_of piece ≡ item list) }
{
    match list.tokens() {
        [Token::At(_), ..] => Ok(SharedPiece::At),
        [Token::Ident(name), ..] => {
            let name = name.copy()?;
            shared_declaration(alloc, name, behind_name(list))
        }
        _ => Ok(SharedPiece::Other),
    }
}

/// The items of the tokens, as [`declarations`](crate::declarations) gives them. Their values share the list; only one whose
/// brackets aren't closed is copied.
pub fn shared_declarations(alloc: Global, list: &Run) -> Result<Vec<SharedPiece>, OutOfMemory>
    ensures { IfOk result (λ all. map piece_of all.items ≡ items list.now) }
{
    let mut all = Vec::new(alloc);
    let tokens = list.tokens();
    let mut start = 0;
    'items: while start < tokens.len() {
        if separates(&tokens[start]) {
            start += 1;
        } else {
            let end = start + item_length(alloc, &tokens[start..])?;
            all.push(shared_item(alloc, list.part(start, end)?)?)?;
            start = end;
        }
    }
    Ok(all)
}
