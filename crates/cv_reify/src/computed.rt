//! What is made of an outcome.

ghost use Rattle.std.specs.Prelude.{◌≡◌, ◌∷◌, [], map, pos, if◌then◌else◌, IfOk};
ghost use Rattle.cv_frac.specs.Bounded.{of_numbers};
ghost use Rattle.cv_calc.specs.declared.calc.Calc.TheViews.{out-Calc};
ghost use Rattle.cv_calc.specs.Linear.{has_type};
ghost use Rattle.cv_calc.specs.Types.{type_of};
ghost use Rattle.cv_value.specs.Text.{item_text};
ghost use Rattle.cv_reify.specs.ComputedStyle as computed;

use crate::style::Style;
use cv_calc::{Calc, Unit};
use cv_color::Color;
use cv_frac::Frac;
use cv_om::Numeric;
use cv_props::{Key, Outcome};
use cv_spec_text::{Name, Token, copy_tokens};
use cv_value::{Item, Typed, typed_tokens};
use cv_var::Segment;
use sqlite_items::Items;
use std::alloc::{AllocError, Global};

/// The text of an item, as tokens.
#[tactic(auto, unfolding(cv_value::specs::Text::typed_text))]
fn item_tokens(alloc: Global, item: &Item) -> Result<Vec<Token>, AllocError>
    ensures { IfOk result (λ ts. ts.items ≡ item_text item.now) }
{
    let value = Typed::One(item.copy(alloc)?);
    typed_tokens(alloc, &value)
}

/// An item that has no more than its text.
fn opaque(alloc: Global, item: &Item) -> Result<Style, AllocError>
    ensures { IfOk result (λ s. s ≡ computed.opaque item.now) }
{
    Ok(Style::Opaque(Items::from_vec(item_tokens(alloc, item)?)))
}

/// A whole number.
fn whole(alloc: Global, number: i64) -> Result<Style, AllocError>
    ensures { IfOk result (λ s. s ≡ computed.whole_style number (of_numbers number (pos 1))) }
{
    match Frac::of(i128::from(number), 1) {
        Ok(value) => Ok(Style::Unit(value, Unit::Number)),
        Err(_) => opaque(alloc, &Item::Integer(number)),
    }
}

/// A calculation that is no number alone.
fn function(alloc: Global, c: &Calc) -> Result<Style, AllocError>
    ensures { IfOk result (λ s. s ≡ (if has_type (type_of c.now) then Style.Math c.now else computed.opaque (Item.Mixed c.now))) }
{
    match Numeric::of(c.copy(alloc)?) {
        Some(numeric) => Ok(Style::Math(numeric)),
        None => opaque(alloc, &Item::Mixed(c.copy(alloc)?)),
    }
}

/// A calculation.
fn mixed(alloc: Global, c: &Calc) -> Result<Style, AllocError>
    ensures { IfOk result (λ s. s ≡ computed.mixed_as c.now (out-Calc c.now)) }
{
    match c {
        Calc::Num(value, unit) => Ok(Style::Unit(*value, *unit)),
        _ => function(alloc, c),
    }
}

/// A name of these characters, which are ASCII.
fn name_of(alloc: Global, bytes: &[u8]) -> Result<Name, AllocError>
    ensures { IfOk result (λ name. name ≡ bytes.now) }
{
    let mut name = Name::new(alloc);
    for byte in bytes {
        name.push(char::from(*byte))?;
    }
    Ok(name)
}

/// A colour.
fn color(alloc: Global, color: Color) -> Result<Style, AllocError>
    ensures { IfOk result (λ s. s ≡ computed.color_style color) }
{
    match color {
        Color::Current => Ok(Style::Keyword(name_of(alloc, b"currentcolor")?)),
        other => opaque(alloc, &Item::Color(other)),
    }
}

/// An item.
fn item_style(alloc: Global, item: &Item) -> Result<Style, AllocError>
    ensures { IfOk result (λ s. s ≡ computed.item_style item.now) }
{
    match item {
        Item::Number(v) => Ok(Style::Unit(*v, Unit::Number)),
        Item::Integer(n) => whole(alloc, *n),
        Item::Percentage(v) => Ok(Style::Unit(*v, Unit::Percent)),
        Item::Length(v) => Ok(Style::Unit(*v, Unit::Px)),
        Item::Mixed(c) => mixed(alloc, c),
        Item::Angle(v) => Ok(Style::Unit(*v, Unit::Deg)),
        Item::Time(v) => Ok(Style::Unit(*v, Unit::S)),
        Item::Resolution(v) => Ok(Style::Unit(*v, Unit::Dppx)),
        Item::Color(c) => color(alloc, *c),
        Item::Url(_) => opaque(alloc, item),
        Item::Str(_) => opaque(alloc, item),
        Item::Ident(name) => Ok(Style::Keyword(name.copy()?)),
    }
}

/// The items of a list.
fn item_styles(alloc: Global, items: &[Item]) -> Result<Items<Style>, AllocError>
    ensures { IfOk result (λ all. all ≡ map computed.item_style items.now) }
{
    let mut all = Items::new(alloc);
    for item in items {
        all.push(item_style(alloc, item)?)?;
    }
    Ok(all)
}

/// A typed value.
fn typed_style(alloc: Global, value: &Typed) -> Result<Style, AllocError>
    ensures { IfOk result (λ s. s ≡ computed.typed_style value.now) }
{
    match value {
        Typed::One(item) => item_style(alloc, item),
        Typed::Spaces(items) => Ok(Style::List(item_styles(alloc, items.as_slice())?)),
        Typed::Commas(items) => Ok(Style::List(item_styles(alloc, items.as_slice())?)),
    }
}

/// One text.
fn text_of(alloc: Global, tokens: &[Token]) -> Result<Items<Segment>, AllocError>
    ensures { IfOk result (λ all. all ≡ Segment.Text tokens.now ∷ []) }
{
    let mut all = Items::new(alloc);
    all.push(Segment::Text(Items::from_vec(copy_tokens(alloc, tokens)?)))?;
    Ok(all)
}

/// One text, where it isn't empty.
fn texts_of(alloc: Global, tokens: &[Token]) -> Result<Items<Segment>, AllocError>
    ensures { IfOk result (λ all. all ≡ computed.texts_of tokens.now) }
{
    match tokens {
        [] => Ok(Items::new(alloc)),
        [_, ..] => text_of(alloc, tokens),
    }
}

/// The object of an outcome that may be kept for the key, and `None` exactly for the guaranteed-invalid value (CSS Typed OM 1,
/// "Reification"). The outcome says all of it, whatever the key is.
pub fn reify_computed(
    alloc: Global,
    _key: &Key,
    outcome: &Outcome,
) -> Result<Option<Style>, AllocError>
    ensures { IfOk result (λ found. found ≡ computed.computed_style _key.now outcome.now) }
{
    match outcome {
        Outcome::Tokens(run) => Ok(Some(Style::Unparsed(texts_of(alloc, run.tokens())?))),
        Outcome::Value(value) => Ok(Some(typed_style(alloc, value)?)),
        Outcome::Invalid => Ok(None),
    }
}
