//! The top level of a list of tokens.

ghost use Rattle.std.specs.Prelude.{◌≡◌, ◌++◌, [], ◌≤◌, ◌-◌, length, take, drop, IfOk, IsTrue};
ghost use Rattle.cv_component.specs.Nesting.{completed};
ghost use Rattle.cv_component.specs.Stops.{stops};
ghost use Rattle.cv_component.specs.TopLevel.{is_semicolon, opens_curly, closes_curly, top_length, curly_length, trim_front, trim_end};

use crate::nesting::Nesting;
use cv_spec_text::{Bracket, OutOfMemory, Token};
use std::alloc::Global;

/// The token at the top level before which a list ends.
#[derive(Clone, Copy)]
pub enum Stop {
    Semicolon,
    OpenCurly,
    CloseCurly,
    SemicolonOrCurly,
}

fn is_semicolon(token: &Token) -> bool
    ensures { result ≡ is_semicolon token.now }
{
    match token {
        Token::Semicolon => true,
        _ => false,
    }
}

pub fn opens_curly(token: &Token) -> bool
    ensures { result ≡ opens_curly token.now }
{
    match token {
        Token::Open(Bracket::Curly) => true,
        _ => false,
    }
}

fn closes_curly(token: &Token) -> bool
    ensures { result ≡ closes_curly token.now }
{
    match token {
        Token::Close(Bracket::Curly) => true,
        _ => false,
    }
}

/// Whether a list ends before such a token.
fn stops(stop: Stop, token: &Token) -> bool
    ensures { result ≡ stops stop token.now }
{
    match stop {
        Stop::Semicolon => is_semicolon(token),
        Stop::OpenCurly => opens_curly(token),
        Stop::CloseCurly => closes_curly(token),
        Stop::SemicolonOrCurly => is_semicolon(token) || opens_curly(token),
    }
}

/// How many tokens stand before the first at the top level at which the list ends.
#[tactic(auto, unfolding(crate::specs::TopLevel::top_length))]
pub fn top_length(alloc: Global, tokens: &[Token], stop: Stop) -> Result<usize, OutOfMemory>
    ensures size { IfOk result (λ n. n ≡ top_length (stops stop) tokens.now) }
    ensures within { IfOk result (λ n. n ≤ length tokens.now) }
{
    let mut nesting = Nesting::new(alloc);
    let mut rest = tokens;
    let mut taken = 0;
    'tokens: while let [token, after @ ..] = rest {
        if nesting.is_empty() && stops(stop, token) {
            return Ok(taken);
        }
        nesting.read(token)?;
        rest = after;
        taken += 1;
    }
    Ok(taken)
}

/// How many tokens the block in curly brackets takes that begins here.
pub fn curly_length(alloc: Global, tokens: &[Token]) -> Result<usize, OutOfMemory>
    ensures size { IfOk result (λ n. n ≡ curly_length tokens.now) }
    ensures within { IfOk result (λ n. n ≤ length tokens.now) }
{
    match tokens {
        [token, rest @ ..] => {
            if opens_curly(token) {
                let inner = top_length(alloc, rest, Stop::CloseCurly)?;
                Ok(tokens.len().min(inner + 2))
            } else {
                Ok(0)
            }
        }
        [] => Ok(0),
    }
}

/// The list without whitespace at its front.
pub fn trim_front(tokens: &[Token]) -> &[Token]
    ensures trimmed { result.now ≡ trim_front tokens.now }
    ensures end { result.now ≡ drop (length tokens.now - length result.now) tokens.now }
    ensures within { length result.now ≤ length tokens.now }
{
    let mut rest = tokens;
    'white: while let [Token::White, after @ ..] = rest {
        rest = after;
    }
    rest
}

/// The list without whitespace at its end.
pub fn trim_end(tokens: &[Token]) -> &[Token]
    ensures trimmed { result.now ≡ trim_end tokens.now }
    ensures front { result.now ≡ take (length result.now) tokens.now }
    ensures within { length result.now ≤ length tokens.now }
{
    let mut rest = tokens;
    'white: while let [before @ .., Token::White] = rest {
        rest = before;
    }
    rest
}

/// The tokens, and closing brackets for those that are open at their end.
pub fn completed(alloc: Global, tokens: &[Token]) -> Result<Vec<Token>, OutOfMemory>
    ensures { IfOk result (λ all. all.items ≡ completed tokens.now) }
{
    let mut nesting = Nesting::new(alloc);
    let mut all = Vec::new(alloc);
    'tokens: for token in tokens {
        nesting.read(token)?;
        all.push(token.copy()?)?;
    }
    'closing: while let Some(bracket) = nesting.pop() {
        all.push(Token::Close(bracket))?;
    }
    Ok(all)
}
