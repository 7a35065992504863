//! Places in a list of tokens.

ghost use Rattle.std.specs.Prelude.{◌≡◌, ◌≤◌, ◌+◌, ◌<◌, ◌^◌, IfOk, length, drop};
ghost use Rattle.cv_calcread.specs.Answer as answers;

use crate::figure::Mark;
use crate::literal::is_in_range;
use cv_spec_text::Token;
use std::alloc::{AllocError, Global};

/// Whether a token is a number that is out of range.
fn is_wide(token: &Token) -> bool
    ensures { result ≡ answers.is_wide token.now }
{
    match token {
        Token::Number(spelling) => !is_in_range(spelling),
        Token::Percentage(spelling) => !is_in_range(spelling),
        Token::Dimension(spelling, _) => !is_in_range(spelling),
        _ => false,
    }
}

/// The place of the first number that is out of range.
pub fn wide_place(tokens: &[Token]) -> Option<usize>
    ensures { result ≡ answers.wide_place 0 tokens.now }
{
    for i in 0..tokens.len() {
        if is_wide(&tokens[i]) {
            return Some(i);
        }
    }
    None
}

fn is_white(token: &Token) -> bool
    ensures { result ≡ answers.is_white token.now }
{
    match token {
        Token::White => true,
        _ => false,
    }
}

/// How much White stands at a place.
fn white_length(tokens: &[Token], from: usize) -> usize
    requires { from ≤ length tokens.now }
    ensures size { result ≡ answers.white_length (drop from tokens.now) }
    ensures within { from + result ≤ length tokens.now }
{
    for i in from..tokens.len() {
        if !is_white(&tokens[i]) {
            return i - from;
        }
    }
    tokens.len() - from
}

fn is_solidus(token: &Token) -> bool
    ensures { result ≡ answers.is_solidus token.now }
{
    match token {
        Token::Delim(sign) => *sign == '/',
        _ => false,
    }
}

/// Where the divisors begin.
pub fn divisor_places(alloc: Global, tokens: &[Token]) -> Result<Vec<usize>, AllocError>
    ensures { IfOk result (λ places. places.items ≡ answers.divisor_places 0 tokens.now) }
{
    let mut places = Vec::new(alloc);
    for i in 0..tokens.len() {
        if !is_solidus(&tokens[i]) {
            continue;
        }
        places.push(i + 1 + white_length(tokens, i + 1))?;
    }
    Ok(places)
}

/// Whether a divisor is of a kind.
fn is_marked(mark: Mark, wanted: Mark) -> bool
    ensures { result ≡ answers.is_marked wanted mark }
{
    match (wanted, mark) {
        (Mark::Far, Mark::Far) => true,
        (Mark::Null, Mark::Null) => true,
        _ => false,
    }
}

/// The place of the first divisor of a kind.
pub fn divisor_place(wanted: Mark, marks: &[Mark], places: &[usize]) -> Option<usize>
    ensures { result ≡ answers.divisor_place (answers.is_marked wanted) marks.now places.now }
{
    for i in 0..marks.len() {
        if i == places.len() {
            return None;
        }
        if is_marked(marks[i], wanted) {
            return Some(places[i]);
        }
    }
    None
}
