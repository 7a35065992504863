//! What is made of a declaration.

ghost use Rattle.std.specs.Prelude.{◌≡◌, map, Ok, IfOk, IfErr};
ghost use Rattle.std.specs.Char.{to_ascii_lowercase};
ghost use Rattle.std.specs.Option.{option_copied};
ghost use Rattle.cv_reify.specs.DeclaredStyle as declared;
ghost use Rattle.cv_reify.specs.Refusal.{IsRefusal};

use crate::arguments::is_wide_color;
use crate::error::ReifyErr;
use crate::numbers::{numeric, opaque};
use crate::style::Style;
use cv_calc::Unit;
use cv_component::trim;
use cv_props::{Decl, Key, Property};
use cv_spec_text::{Name, Token};
use cv_var::Declared;
use sqlite_items::Items;
use std::alloc::{AllocError, Global};
use std::slice;

fn takes_color(property: Property) -> bool
    ensures { result ≡ declared.takes_color property }
{
    matches!(property, Property::Color | Property::BackgroundColor)
}

fn takes_number(property: Property) -> bool
    ensures { result ≡ declared.takes_number property }
{
    matches!(
        property,
        Property::LineHeight
            | Property::Orphans
            | Property::Opacity
            | Property::ZIndex
            | Property::Order
            | Property::FlexGrow
            | Property::FlexShrink
    )
}

/// The unit of a bare number: where the property takes no numbers, it is a length, 0.
fn bare_unit(property: Property) -> Unit
    ensures { result ≡ declared.bare_unit property }
{
    if takes_number(property) {
        Unit::Number
    } else {
        Unit::Px
    }
}

/// A colour, with its tokens.
fn color(alloc: Global, tokens: &[Token]) -> Result<Style, ReifyErr>
    ensures ok { IfOk result (λ s. declared.color_style tokens.now ≡ Ok s) }
    ensures err { IfErr result (IsRefusal (declared.color_style tokens.now)) }
{
    if is_wide_color(alloc, tokens)? {
        return Err(ReifyErr::Range);
    }
    Ok(opaque(alloc, tokens)?)
}

fn lower_case(alloc: Global, name: &Name) -> Result<Name, AllocError>
    ensures { IfOk result (λ lower. lower ≡ map to_ascii_lowercase name.now) }
{
    let characters = name.characters()?;
    lowered(alloc, &characters)
}

fn lowered(alloc: Global, characters: &[char]) -> Result<Name, AllocError>
    ensures { IfOk result (λ lower. lower ≡ map to_ascii_lowercase characters.now) }
{
    let mut lower = Name::new(alloc);
    for character in characters {
        lower.push(character.to_ascii_lowercase())?;
    }
    Ok(lower)
}

/// A keyword, in lower case.
fn keyword(alloc: Global, name: &Name) -> Result<Style, AllocError>
    ensures { IfOk result (λ s. s ≡ declared.keyword name.now) }
{
    Ok(Style::Keyword(lower_case(alloc, name)?))
}

fn is_color_name(property: Property, name: &Name) -> bool
    ensures { result ≡ declared.is_color_name property name.now }
{
    takes_color(property) && !name.is_word("currentcolor")
}

/// A keyword, or the name of a colour.
fn ident(alloc: Global, property: Property, name: &Name, token: &Token) -> Result<Style, AllocError>
    requires { token.now ≡ Token.Ident name.now }
    ensures { IfOk result (λ s. s ≡ declared.ident_style property name.now) }
{
    if is_color_name(property, name) {
        opaque(alloc, slice::from_ref(token))
    } else {
        keyword(alloc, name)
    }
}

/// A value that is no keyword.
fn read(alloc: Global, property: Property, tokens: &[Token]) -> Result<Style, ReifyErr>
    ensures ok { IfOk result (λ s. declared.read_style property tokens.now ≡ Ok s) }
    ensures err { IfErr result (IsRefusal (declared.read_style property tokens.now)) }
{
    if takes_color(property) {
        color(alloc, tokens)
    } else {
        numeric(alloc, bare_unit(property), tokens)
    }
}

/// A value of an ordinary property that is one token.
fn single(alloc: Global, property: Property, token: &Token) -> Result<Style, ReifyErr>
    ensures ok { IfOk result (λ s. declared.token_style property token.now ≡ Ok s) }
    ensures err { IfErr result (IsRefusal (declared.token_style property token.now)) }
{
    match token {
        Token::Ident(name) => Ok(ident(alloc, property, name, token)?),
        _ => read(alloc, property, slice::from_ref(token)),
    }
}

/// A value of an ordinary property.
#[tactic(auto, unfolding(crate::specs::DeclaredStyle::ordinary_style))]
fn ordinary(alloc: Global, property: Property, tokens: &[Token]) -> Result<Style, ReifyErr>
    ensures ok { IfOk result (λ s. declared.ordinary_style property tokens.now ≡ Ok s) }
    ensures err { IfErr result (IsRefusal (declared.ordinary_style property tokens.now)) }
{
    match tokens {
        [token] => single(alloc, property, token),
        _ => read(alloc, property, tokens),
    }
}

/// Texts and references.
fn unparsed(value: &Declared) -> Result<Style, AllocError>
    ensures { IfOk result (λ s. s ≡ declared.unparsed value.now) }
{
    Ok(Style::Unparsed(Items::from_vec(value.segments()?)))
}

/// A value that is no CSS-wide keyword.
fn read_value(alloc: Global, key: &Key, value: &Declared) -> Result<Style, ReifyErr>
    ensures ok { IfOk result (λ s. declared.value_style key.now value.now ≡ Ok s) }
    ensures err { IfErr result (IsRefusal (declared.value_style key.now value.now)) }
{
    match key {
        Key::Custom(_) => Ok(unparsed(value)?),
        Key::Table(property) => {
            if value.has_var() {
                Ok(unparsed(value)?)
            } else {
                ordinary(alloc, *property, value.tokens())
            }
        }
    }
}

/// The CSS-wide keyword that a list is.
fn keyword_in(tokens: &[Token]) -> Option<&Name>
    ensures { option_copied result ≡ declared.keyword_in tokens.now }
{
    match tokens {
        [Token::Ident(name)] => {
            if name.is_css_wide_keyword() {
                Some(name)
            } else {
                None
            }
        }
        _ => None,
    }
}

/// The object of a declaration that may be kept for the key (CSS Typed OM 1, "Reification").
///
/// # Errors
///
/// `Range` where an ordinary property is declared without `var()`, and a number in its value is out of range or a divisor that is made of
/// numbers alone is; `Memory`.
#[tactic(auto, unfolding(crate::specs::DeclaredStyle::declared_style))]
pub fn reify_declared(alloc: Global, key: &Key, declaration: &Decl) -> Result<Style, ReifyErr>
    ensures ok { IfOk result (λ s. declared.declared_style key.now declaration.now ≡ Ok s) }
    ensures err { IfErr result (IsRefusal (declared.declared_style key.now declaration.now)) }
{
    match keyword_in(trim(declaration.value.tokens())) {
        Some(name) => Ok(keyword(alloc, name)?),
        None => read_value(alloc, key, &declaration.value),
    }
}
