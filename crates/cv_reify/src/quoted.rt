//! Strings.

ghost use Rattle.std.specs.Prelude.{◌≡◌, ◌<◌, ◌++◌, ◌∷◌, [], ◌||◌, ◌&&◌, ◌==◌, OnOk, nat_le};
ghost use Rattle.std.specs.Char.{digit_char};
ghost use Rattle.std.specs.List.{flat_map};
ghost use Rattle.cv_spec_text.specs.Printing as printing;
ghost use Rattle.cv_reify.specs.Text.{string_text};

use cv_spec_text::Token;
use cv_tokser::print;
use std::alloc::{AllocError, Global};

// The digits of hexadecimal numbers.
fn hex_digit(n: u8) -> u8
    requires { n < 16 }
    ensures { result ≡ digit_char n }
{
    if n < 10 { b'0' + n } else { b'a' + (n - 10) }
}

// `\`, the number of an ASCII character and a space.
#[tactic(auto, unfolding(cv_spec_text::specs::Printing::hex_escape))]
fn push_hex_escape(text: &mut Vec<u8>, byte: u8) -> Result<(), AllocError>
    requires { byte < 128 }
    ensures { OnOk result (text.new.items ≡ text.old.items ++ printing.hex_escape byte) }
{
    text.push(b'\\')?;
    if byte >= 16 {
        text.push(hex_digit(byte / 16))?;
        text.push(hex_digit(byte % 16))?;
    } else {
        text.push(hex_digit(byte))?;
    }
    text.push(b' ')?;
    Ok(())
}

fn is_control(byte: u8) -> bool
    ensures { result ≡ printing.is_control byte }
{
    (1..=0x1f).contains(&byte) || byte == 0x7f
}

// Adds what a byte of a string is written as. What is escaped is ASCII.
#[tactic(auto, unfolding(cv_spec_text::specs::Printing::string_code_point))]
fn push_in_string(text: &mut Vec<u8>, byte: u8) -> Result<(), AllocError>
    ensures { OnOk result (text.new.items ≡ text.old.items ++ printing.string_code_point byte) }
{
    if byte == b'"' || byte == b'\\' {
        text.push(b'\\')?;
        text.push(byte)?;
        Ok(())
    } else if is_control(byte) {
        push_hex_escape(text, byte)
    } else {
        text.push(byte)?;
        Ok(())
    }
}

fn push_all_in_string(text: &mut Vec<u8>, bytes: &[u8]) -> Result<(), AllocError>
    ensures { OnOk result (text.new.items ≡ text.old.items ++ flat_map printing.string_code_point bytes.now) }
{
    for byte in bytes {
        push_in_string(text, *byte)?;
    }
    Ok(())
}

// Adds bytes as a string.
fn push_quoted(text: &mut Vec<u8>, bytes: &[u8]) -> Result<(), AllocError>
    ensures { OnOk result (text.new.items ≡ text.old.items ++ printing.quoted bytes.now) }
{
    text.push(b'"')?;
    push_all_in_string(text, bytes)?;
    text.push(b'"')?;
    Ok(())
}

/// Adds the text of some tokens as a string.
#[tactic(auto, using(crate::proofs::Bytewise::quoted_bytes))]
pub(crate) fn push_string(
    alloc: Global,
    text: &mut Vec<u8>,
    tokens: &[Token],
) -> Result<(), AllocError>
    ensures { OnOk result (text.new.items ≡ text.old.items ++ string_text tokens.now) }
{
    let mut printed = Vec::new(alloc);
    print(alloc, tokens, &mut printed)?;
    push_quoted(text, &printed)
}
