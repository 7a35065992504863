//! Typed values.

ghost use Rattle.std.specs.Prelude.{◌≡◌, IfOk};

use cv_calc::Calc;
use cv_color::Color;
use cv_frac::Frac;
use cv_spec_text::Name;
use sqlite_items::Items;
use std::alloc::{AllocError, Global};

/// One value (Properties and Values API 1, "Calculation of Computed Values"). Lengths are in px, angles in deg, times in s,
/// resolutions in dppx; a percentage of 5% is 5. A `Mixed` value has a percentage beside a length.
#[derive(Drop)]
pub enum Item {
    Number(Frac),
    Integer(i64),
    Percentage(Frac),
    Length(Frac),
    Mixed(Calc),
    Angle(Frac),
    Time(Frac),
    Resolution(Frac),
    Color(Color),
    Url(Name),
    Str(Name),
    Ident(Name),
}

/// One value, or a list with spaces or commas between its values. Contracts see the values of a list as a list.
#[derive(Drop)]
pub enum Typed {
    One(Item),
    Spaces(Items<Item>),
    Commas(Items<Item>),
}

impl Item {
    /// The same value again.
    pub fn copy(&self, alloc: Global) -> Result<Item, AllocError>
        ensures { IfOk result (λ item. item ≡ self.now) }
    {
        match self {
            Item::Number(v) => Ok(Item::Number(*v)),
            Item::Integer(n) => Ok(Item::Integer(*n)),
            Item::Percentage(v) => Ok(Item::Percentage(*v)),
            Item::Length(v) => Ok(Item::Length(*v)),
            Item::Mixed(c) => Ok(Item::Mixed(c.copy(alloc)?)),
            Item::Angle(v) => Ok(Item::Angle(*v)),
            Item::Time(v) => Ok(Item::Time(*v)),
            Item::Resolution(v) => Ok(Item::Resolution(*v)),
            Item::Color(c) => Ok(Item::Color(*c)),
            Item::Url(text) => Ok(Item::Url(text.copy()?)),
            Item::Str(text) => Ok(Item::Str(text.copy()?)),
            Item::Ident(name) => Ok(Item::Ident(name.copy()?)),
        }
    }
}

/// The same values again.
fn copied(alloc: Global, items: &[Item]) -> Result<Items<Item>, AllocError>
    ensures { IfOk result (λ all. all ≡ items.now) }
{
    let mut all = Items::new(alloc);
    for item in items {
        all.push(item.copy(alloc)?)?;
    }
    Ok(all)
}

impl Typed {
    /// The same value again.
    pub fn copy(&self, alloc: Global) -> Result<Typed, AllocError>
        ensures { IfOk result (λ typed. typed ≡ self.now) }
    {
        match self {
            Typed::One(item) => Ok(Typed::One(item.copy(alloc)?)),
            Typed::Spaces(items) => Ok(Typed::Spaces(copied(alloc, items.as_slice())?)),
            Typed::Commas(items) => Ok(Typed::Commas(copied(alloc, items.as_slice())?)),
        }
    }
}
