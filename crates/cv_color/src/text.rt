//! The text of a colour.

ghost use Rattle.std.specs.Prelude.{◌≡◌, ◌∷◌, [], ◌++◌, All, IfOk, OnOk, IsAscii, codes};
ghost use Rattle.cv_spec_text.specs.declared.token.Token.{Token};
ghost use Rattle.cv_spec_text.specs.Splits.{IsSpelt};
ghost use Rattle.cv_tokser.specs.Clean.{IsClean};
ghost use Rattle.cv_color.specs.Text.{separated, channel_text, channels_text, alpha_text, closing, color_text};

use crate::color::Color;
use cv_calc::{Calc, Unit};
use cv_frac::Frac;
use cv_simplify::calc_tokens;
use cv_spec_text::{Bracket, Name, Token};
use itoa::Buffer;
use std::alloc::{AllocError, Global};

/// An ASCII text.
fn ascii_name(alloc: Global, text: &str) -> Result<Name, AllocError>
    requires { IsAscii text.now }
    ensures { IfOk result (λ name. name ≡ text.now) }
{
    Name::of(alloc, text)
}

/// Adds a comma and a space.
fn separate(tokens: &mut Vec<Token>) -> Result<(), AllocError>
    ensures { OnOk result (tokens.new.items ≡ tokens.old.items ++ separated []) }
{
    tokens.push(Token::Comma)?;
    tokens.push(Token::White)?;
    Ok(())
}

/// Adds a channel.
fn push_channel(alloc: Global, channel: u8, tokens: &mut Vec<Token>) -> Result<(), AllocError>
    ensures { OnOk result (tokens.new.items ≡ tokens.old.items ++ channel_text channel) }
{
    let mut buffer = Buffer::new();
    tokens.push(Token::Number(ascii_name(alloc, buffer.format(channel))?))?;
    Ok(())
}

/// The function of a name, with its channels and without its end.
fn opened(alloc: Global, name: &str, r: u8, g: u8, b: u8) -> Result<Vec<Token>, AllocError>
    requires { IsAscii name.now }
    ensures { IfOk result (λ ts. ts.items ≡ Token.Function name.now ∷ channels_text r g b) }
{
    let mut tokens = Vec::new(alloc);
    tokens.push(Token::Function(ascii_name(alloc, name)?))?;
    push_channel(alloc, r, &mut tokens)?;
    separate(&mut tokens)?;
    push_channel(alloc, g, &mut tokens)?;
    separate(&mut tokens)?;
    push_channel(alloc, b, &mut tokens)?;
    Ok(tokens)
}

/// The tokens of a colour that hides what is behind it.
fn opaque_list(alloc: Global, r: u8, g: u8, b: u8) -> Result<Vec<Token>, AllocError>
    ensures { IfOk result (λ ts. ts.items ≡ Token.Function (codes "rgb") ∷ channels_text r g b ++ closing) }
{
    let mut tokens = opened(alloc, "rgb", r, g, b)?;
    tokens.push(Token::Close(Bracket::Round))?;
    Ok(tokens)
}

/// A colour that hides what is behind it.
fn opaque_tokens(alloc: Global, r: u8, g: u8, b: u8) -> Result<Vec<Token>, AllocError>
    ensures tokens { IfOk result (λ ts. ts.items ≡ Token.Function (codes "rgb") ∷ channels_text r g b ++ closing) }
    ensures clean { IfOk result (λ ts. IsClean ts.items) }
    ensures spelt { IfOk result (λ ts. All IsSpelt ts.items) }
{
    Ok(opaque_list(alloc, r, g, b)?)
}

/// The alpha.
fn alpha_alone(alloc: Global, a: Frac) -> Result<Vec<Token>, AllocError>
    ensures tokens { IfOk result (λ ts. ts.items ≡ alpha_text a) }
    ensures spelt { IfOk result (λ _. All IsSpelt (alpha_text a)) }
{
    Ok(calc_tokens(alloc, &Calc::Num(a, Unit::Number))?)
}

/// The tokens of a colour with its alpha.
fn alpha_list(alloc: Global, r: u8, g: u8, b: u8, a: Frac) -> Result<Vec<Token>, AllocError>
    ensures tokens { IfOk result (λ ts. ts.items ≡ Token.Function (codes "rgba") ∷ channels_text r g b ++ separated (alpha_text a) ++ closing) }
    ensures alpha { IfOk result (λ _. All IsSpelt (alpha_text a)) }
{
    let mut tokens = opened(alloc, "rgba", r, g, b)?;
    separate(&mut tokens)?;
    let mut alpha = alpha_alone(alloc, a)?;
    tokens.append(&mut alpha)?;
    tokens.push(Token::Close(Bracket::Round))?;
    Ok(tokens)
}

/// A colour with its alpha.
fn alpha_tokens(alloc: Global, r: u8, g: u8, b: u8, a: Frac) -> Result<Vec<Token>, AllocError>
    ensures tokens { IfOk result (λ ts. ts.items ≡ Token.Function (codes "rgba") ∷ channels_text r g b ++ separated (alpha_text a) ++ closing) }
    ensures clean { IfOk result (λ ts. IsClean ts.items) }
    ensures spelt { IfOk result (λ ts. All IsSpelt ts.items) }
{
    Ok(alpha_list(alloc, r, g, b, a)?)
}

fn current_list(alloc: Global) -> Result<Vec<Token>, AllocError>
    ensures { IfOk result (λ ts. ts.items ≡ Token.Ident (codes "currentcolor") ∷ []) }
{
    let mut tokens = Vec::new(alloc);
    tokens.push(Token::Ident(ascii_name(alloc, "currentcolor")?))?;
    Ok(tokens)
}

fn current_tokens(alloc: Global) -> Result<Vec<Token>, AllocError>
    ensures tokens { IfOk result (λ ts. ts.items ≡ Token.Ident (codes "currentcolor") ∷ []) }
    ensures clean { IfOk result (λ ts. IsClean ts.items) }
    ensures spelt { IfOk result (λ ts. All IsSpelt ts.items) }
{
    Ok(current_list(alloc)?)
}

/// The text of a colour, as tokens: `rgb(255, 0, 0)`, or `rgba(0, 0, 0, calc(1 / 3))` where the alpha isn't 1 (CSS Color 4, "Serializing
/// sRGB values"). The alpha is exact.
pub fn color_tokens(alloc: Global, c: &Color) -> Result<Vec<Token>, AllocError>
    ensures tokens { IfOk result (λ ts. ts.items ≡ color_text c.now) }
    ensures clean { IfOk result (λ ts. IsClean ts.items) }
    ensures spelt { IfOk result (λ ts. All IsSpelt ts.items) }
{
    match c {
        Color::Current => current_tokens(alloc),
        Color::Rgb { r, g, b, a } => {
            if *a == Frac::whole(1) {
                opaque_tokens(alloc, *r, *g, *b)
            } else {
                alpha_tokens(alloc, *r, *g, *b, *a)
            }
        }
    }
}
