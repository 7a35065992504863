//! The text of typed values, as tokens.

ghost use Rattle.std.specs.Prelude.{◌≡◌, ◌∷◌, ◌++◌, [], IfOk, OnOk};
ghost use Rattle.std.specs.Fmt.{signed_decimal};
ghost use Rattle.cv_spec_text.specs.declared.token.Token.TheVariants as token;
ghost use Rattle.cv_simplify.specs.Text.{number_alone};
ghost use Rattle.cv_value.specs.declared.typed.Item.TheVariants as items;
ghost use Rattle.cv_value.specs.Text.{separator, item_text, further_text, list_text, typed_text};

use crate::typed::{Item, Typed};
use cv_calc::{Calc, Unit};
use cv_color::color_tokens;
use cv_frac::Frac;
use cv_simplify::calc_tokens;
use cv_spec_text::{Bracket, Name, Token};
use itoa::Buffer;
use std::alloc::{AllocError, Global};

/// A text of some ASCII characters.
fn name_of(alloc: Global, bytes: &[u8]) -> Result<Name, AllocError>
    ensures { IfOk result (λ name. name ≡ bytes.now) }
{
    let mut name = Name::new(alloc);
    for byte in bytes {
        name.push(char::from(*byte))?;
    }
    Ok(name)
}

/// A whole number.
fn whole_tokens(alloc: Global, n: i64) -> Result<Vec<Token>, AllocError>
    ensures { IfOk result (λ ts. ts.items ≡ token.Number (signed_decimal n) ∷ []) }
{
    let mut buffer = Buffer::new();
    let spelling = name_of(alloc, buffer.format(n).as_bytes())?;
    let mut tokens = Vec::new(alloc);
    tokens.push(Token::Number(spelling))?;
    Ok(tokens)
}

/// A number of a unit.
#[tactic(auto, unfolding(cv_simplify::specs::Text::calc_text))]
fn number_tokens(alloc: Global, value: Frac, unit: Unit) -> Result<Vec<Token>, AllocError>
    ensures { IfOk result (λ ts. ts.items ≡ number_alone value unit) }
{
    calc_tokens(alloc, &Calc::Num(value, unit))
}

/// A url.
fn url_tokens(alloc: Global, text: &Name) -> Result<Vec<Token>, AllocError>
    ensures { IfOk result (λ ts. ts.items ≡ item_text (items.Url text.now)) }
{
    let mut tokens = Vec::new(alloc);
    tokens.push(Token::Function(name_of(alloc, b"url")?))?;
    tokens.push(Token::Str(text.copy()?))?;
    tokens.push(Token::Close(Bracket::Round))?;
    Ok(tokens)
}

/// One token.
fn alone(alloc: Global, token: Token) -> Result<Vec<Token>, AllocError>
    ensures { IfOk result (λ ts. ts.items ≡ token ∷ []) }
{
    let mut tokens = Vec::new(alloc);
    tokens.push(token)?;
    Ok(tokens)
}

/// The text of one value.
fn item_tokens(alloc: Global, item: &Item) -> Result<Vec<Token>, AllocError>
    ensures { IfOk result (λ ts. ts.items ≡ item_text item.now) }
{
    match item {
        Item::Number(v) => number_tokens(alloc, *v, Unit::Number),
        Item::Integer(n) => whole_tokens(alloc, *n),
        Item::Percentage(v) => number_tokens(alloc, *v, Unit::Percent),
        Item::Length(v) => number_tokens(alloc, *v, Unit::Px),
        Item::Mixed(c) => calc_tokens(alloc, c),
        Item::Angle(v) => number_tokens(alloc, *v, Unit::Deg),
        Item::Time(v) => number_tokens(alloc, *v, Unit::S),
        Item::Resolution(v) => number_tokens(alloc, *v, Unit::Dppx),
        Item::Color(c) => color_tokens(alloc, c),
        Item::Url(text) => url_tokens(alloc, text),
        Item::Str(text) => alone(alloc, Token::Str(text.copy()?)),
        Item::Ident(name) => alone(alloc, Token::Ident(name.copy()?)),
    }
}

/// Appends the text of one value.
fn push_item(alloc: Global, all: &mut Vec<Token>, item: &Item) -> Result<(), AllocError>
    ensures { OnOk result (all.new.items ≡ all.old.items ++ item_text item.now) }
{
    let mut more = item_tokens(alloc, item)?;
    all.append(&mut more)
}

/// Appends what stands between values.
fn push_separator(all: &mut Vec<Token>, commas: bool) -> Result<(), AllocError>
    ensures { OnOk result (all.new.items ≡ all.old.items ++ separator commas) }
{
    if commas {
        all.push(Token::Comma)?;
    }
    all.push(Token::White)?;
    Ok(())
}

/// The text of a list.
fn list_tokens(alloc: Global, commas: bool, items: &[Item]) -> Result<Vec<Token>, AllocError>
    ensures { IfOk result (λ ts. ts.items ≡ list_text (separator commas) items.now) }
{
    match items {
        [] => Ok(Vec::new(alloc)),
        [first, rest @ ..] => {
            let first = item_tokens(alloc, first)?;
            with_further(alloc, first, commas, rest)
        }
    }
}

/// The text of some values, and that of further ones behind it.
fn with_further(
    alloc: Global,
    all: Vec<Token>,
    commas: bool,
    items: &[Item],
) -> Result<Vec<Token>, AllocError>
    ensures { IfOk result (λ ts. ts.items ≡ all.items ++ further_text (separator commas) items.now) }
{
    let mut all = all;
    for item in items {
        push_separator(&mut all, commas)?;
        push_item(alloc, &mut all, item)?;
    }
    Ok(all)
}

/// The text of a typed value, as tokens: `1px, 96px` for two lengths with commas (CSSOM, "Serializing CSS Values"; CSS Values and
/// Units 4, "Serialization"). A fraction that has no decimal is written as a quotient, as `calc(1px / 3)`.
#[tactic(auto, unfolding(crate::specs::Text::typed_text))]
pub fn typed_tokens(alloc: Global, value: &Typed) -> Result<Vec<Token>, AllocError>
    ensures { IfOk result (λ ts. ts.items ≡ typed_text value.now) }
{
    match value {
        Typed::One(item) => item_tokens(alloc, item),
        Typed::Spaces(items) => list_tokens(alloc, false, items.as_slice()),
        Typed::Commas(items) => list_tokens(alloc, true, items.as_slice()),
    }
}
