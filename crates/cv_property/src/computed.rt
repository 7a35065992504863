//! Computed values.

ghost use Rattle.std.specs.Prelude.{◌≡◌, All, IfOk, Err, true};
ghost use Rattle.cv_spec_text.specs.Splits.{IsSpelt};
ghost use Rattle.cv_frac.specs.Bounded.{in_bounds};
ghost use Rattle.cv_color.specs.Channels.{clamped};
ghost use Rattle.cv_colorread.specs.Channels.{hundredths as hundredths_of};
ghost use Rattle.cv_numeric.specs.Matched.{mapped};
ghost use Rattle.cv_property.specs.Computed as computed;
ghost use Rattle.cv_property.specs.Grammar.{matching_property};

use crate::laws::portions_are_counted;
use crate::property::Property;
use cv_calc::Context;
use cv_color::Color;
use cv_frac::Frac;
use cv_numeric::Matched;
use cv_spec_text::Token;
use cv_value::{Item, Typed, ValueErr};
use std::alloc::{AllocError, Global};

// The computed size of a font.
fn font_size_of(item: Item) -> Typed
    ensures { result ≡ computed.font_size_of item }
{
    match item {
        Item::Ident(_) => Typed::One(Item::Length(Frac::whole(16))),
        other => Typed::One(other),
    }
}

// The computed colour of text.
fn color_of(alloc: Global, inherited: &Typed, item: Item) -> Result<Typed, AllocError>
    ensures { IfOk result (λ v. v ≡ computed.color_of inherited.now item) }
{
    match item {
        Item::Color(Color::Current) => inherited.copy(alloc),
        other => Ok(Typed::One(other)),
    }
}

// A number from 0 to 1.
fn within_one(v: Frac) -> Typed
    ensures { result ≡ computed.within_one v }
{
    Typed::One(Item::Number(v.max(Frac::whole(0)).min(Frac::whole(1))))
}

// The part of 1 that a percentage is.
fn part_of_one(v: Frac) -> Frac
    requires { in_bounds (hundredths_of 1 v) ≡ true }
    ensures { result ≡ hundredths_of 1 v }
{
    match v.times_over(Frac::whole(1), 100) {
        Ok(part) => part,
        Err(_) => unreachable!(),
    }
}

// The computed opacity.
fn opacity_of(item: Item) -> Typed
    requires { computed.HasPortion item }
    ensures { result ≡ computed.opacity_of item }
{
    match item {
        Item::Number(v) => within_one(v),
        Item::Percentage(v) => within_one(part_of_one(v)),
        other => Typed::One(other),
    }
}

// The computed value of an item.
fn computed_item(
    alloc: Global,
    property: Property,
    inherited: &Typed,
    item: Item,
) -> Result<Typed, AllocError>
    requires { computed.HasPortionOf property item }
    ensures { IfOk result (λ v. v ≡ computed.computed_item property inherited.now item) }
{
    match property {
        Property::FontSize => Ok(font_size_of(item)),
        Property::Color => color_of(alloc, inherited, item),
        Property::Opacity => Ok(opacity_of(item)),
        _ => Ok(Typed::One(item)),
    }
}

// The computed value.
#[tactic(auto, unfolding(crate::specs::Computed::computed_of))]
fn computed_value(
    alloc: Global,
    property: Property,
    inherited: &Typed,
    value: Typed,
) -> Result<Typed, AllocError>
    requires { computed.HasPortionIn property value }
    ensures { IfOk result (λ v. v ≡ computed.computed_of property inherited.now value) }
{
    match value {
        Typed::One(item) => computed_item(alloc, property, inherited, item),
        other => Ok(other),
    }
}

impl Property {
    /// The computed value of a list (CSS Cascade 4, "Computed Values"). Percentages of `font-size` and `line-height` are of the length that
    /// `em` is in the context; `medium` is 16px, `currentcolor` as `color` is the inherited value, and an opacity is a number from 0 to 1.
    ///
    /// # Errors
    ///
    /// `Mismatch` where the list is no value of the property; `Range` where it is one, but a number in it or in its calculations is out of
    /// range; `Memory`.
    pub fn compute(
        self,
        alloc: Global,
        tokens: &[Token],
        x: &Context,
        inherited: &Typed,
    ) -> Result<Typed, ValueErr>
        requires spelt { All IsSpelt tokens.now }
        ensures ok { IfOk result (λ v. mapped (computed.computed_of self inherited.now) (matching_property self x.now tokens.now) ≡ Matched.Fit v) }
        ensures mismatch { result ≡ Err ValueErr.Mismatch → matching_property self x.now tokens.now ≡ Matched.No }
        ensures range { result ≡ Err ValueErr.Range → matching_property self x.now tokens.now ≡ Matched.Out }
    {
        portions_are_counted();
        match self.read(alloc, tokens, x) {
            Ok(value) => Ok(computed_value(alloc, self, inherited, value)?),
            Err(error) => Err(error),
        }
    }
}
