//! The descriptors of an `@property` rule (Properties and Values API 1, "The @property Rule").

ghost use Rattle.std.specs.Prelude.{◌≡◌, map, codes, IfOk};
ghost use Rattle.std.specs.Option.{option_copied};
ghost use Rattle.cv_component.specs.Shared.{piece_of};
ghost use Rattle.cv_syntax.specs.Strings.{syntax};
ghost use Rattle.cv_props.specs.Registration.{descriptor, first_or, inherits_in, initial_in, last_said, right, said_inherits, said_syntax, syntax_in, truth};

use cv_component::SharedPiece;
use cv_spec_text::{Name, Run, Token};
use cv_syntax::{Syntax, SyntaxErr, parse_syntax};
use std::alloc::{AllocError, Global};

// The value of a declaration of `syntax` that isn't important.
fn syntax_value(piece: &SharedPiece) -> Option<&Run>
    ensures { option_copied result ≡ descriptor (codes "syntax") (piece_of piece.now) }
{
    match piece {
        SharedPiece::Decl {
            name,
            value,
            important: false,
        } if name.is_word("syntax") => Some(value),
        _ => None,
    }
}

// The value of a declaration of `inherits` that isn't important.
fn inherits_value(piece: &SharedPiece) -> Option<&Run>
    ensures { option_copied result ≡ descriptor (codes "inherits") (piece_of piece.now) }
{
    match piece {
        SharedPiece::Decl {
            name,
            value,
            important: false,
        } if name.is_word("inherits") => Some(value),
        _ => None,
    }
}

// The value of a declaration of `initial-value` that isn't important.
fn initial_in(piece: &SharedPiece) -> Option<&Run>
    ensures { option_copied result ≡ initial_in (piece_of piece.now) }
{
    match piece {
        SharedPiece::Decl {
            name,
            value,
            important: false,
        } if name.is_word("initial-value") => Some(value),
        _ => None,
    }
}

// The syntax that a string says, if it is a syntax string.
fn syntax_of(alloc: Global, text: &Name) -> Result<Option<Syntax>, AllocError>
    ensures { IfOk result (λ found. found ≡ right (syntax text.now)) }
{
    match parse_syntax(alloc, text.text()) {
        Ok(syntax) => Ok(Some(syntax)),
        Err(SyntaxErr::Memory) => Err(AllocError),
        Err(_) => Ok(None),
    }
}

fn said_syntax(alloc: Global, value: &[Token]) -> Result<Option<Syntax>, AllocError>
    ensures { IfOk result (λ found. found ≡ said_syntax value.now) }
{
    match value {
        [Token::Str(text)] => syntax_of(alloc, text),
        _ => Ok(None),
    }
}

fn truth(word: &Name) -> Option<bool>
    ensures { result ≡ truth word.now }
{
    if word.is_word("true") {
        Some(true)
    } else if word.is_word("false") {
        Some(false)
    } else {
        None
    }
}

fn said_inherits(value: &[Token]) -> Option<bool>
    ensures { result ≡ said_inherits value.now }
{
    match value {
        [Token::Ident(word)] => truth(word),
        _ => None,
    }
}

fn syntax_in(alloc: Global, piece: &SharedPiece) -> Result<Option<Syntax>, AllocError>
    ensures { IfOk result (λ found. found ≡ syntax_in (piece_of piece.now)) }
{
    match syntax_value(piece) {
        Some(value) => said_syntax(alloc, value.tokens()),
        None => Ok(None),
    }
}

fn inherits_in(piece: &SharedPiece) -> Option<bool>
    ensures { result ≡ inherits_in (piece_of piece.now) }
{
    match inherits_value(piece) {
        Some(value) => said_inherits(value.tokens()),
        None => None,
    }
}

// The later if there is one, else the earlier.
fn later<T: Drop>(later: Option<T>, earlier: Option<T>) -> Option<T>
    ensures { result ≡ first_or later earlier }
{
    match later {
        Some(later) => Some(later),
        None => earlier,
    }
}

/// The syntax that the last descriptor says that is a syntax string.
pub(crate) fn last_syntax(
    alloc: Global,
    block: &[SharedPiece],
) -> Result<Option<Syntax>, AllocError>
    ensures { IfOk result (λ found. found ≡ last_said syntax_in (map piece_of block.now)) }
{
    let mut last = None;
    for piece in block {
        last = later(syntax_in(alloc, piece)?, last);
    }
    Ok(last)
}

/// Whether the property inherits, as the last descriptor says that is `true` or `false`.
pub(crate) fn last_inherits(block: &[SharedPiece]) -> Option<bool>
    ensures { result ≡ last_said inherits_in (map piece_of block.now) }
{
    let mut last = None;
    for piece in block {
        last = later(inherits_in(piece), last);
    }
    last
}

/// The last initial value that is written.
pub(crate) fn last_initial(block: &[SharedPiece]) -> Option<&Run>
    ensures { option_copied result ≡ last_said initial_in (map piece_of block.now) }
{
    let mut last = None;
    for piece in block {
        last = later(initial_in(piece), last);
    }
    last
}
