//! The ordinary properties.

ghost use Rattle.std.specs.Prelude.{◌≡◌, IfOk, IsAscii, find, map, slice_get, Some, length, ◌<◌};
ghost use Rattle.cv_property.specs.Table.{inherits, initial_of, is_name_of, name_of, number_of, numbered, property_named, row};
ghost use Rattle.cv_property.specs.Rows.{entry_of};

use crate::grammar::{Alternative, Percentages};
use crate::initial::initial_value;
use crate::table::{ROWS, Row};
use cv_spec_text::Name;
use cv_value::Typed;
use std::alloc::{AllocError, Global};

/// An ordinary property of CSS.
#[derive(Clone, Copy, Debug, PartialEq, Eq)]
pub enum Property {
    FontSize,
    Color,
    LineHeight,
    LetterSpacing,
    TextIndent,
    Visibility,
    Orphans,
    Display,
    Width,
    Height,
    MinWidth,
    MinHeight,
    MaxWidth,
    MaxHeight,
    MarginTop,
    MarginRight,
    MarginBottom,
    MarginLeft,
    PaddingTop,
    PaddingRight,
    PaddingBottom,
    PaddingLeft,
    Top,
    Right,
    Bottom,
    Left,
    RowGap,
    ColumnGap,
    Opacity,
    ZIndex,
    Order,
    FlexGrow,
    FlexShrink,
    BackgroundColor,
    OutlineOffset,
}

impl Property {
    /// The property of this number, from 0 on, in the order of the variants. There are 35.
    #[tactic(auto, unfolding(crate::specs::Table::numbered))]
    pub fn numbered(number: u32) -> Option<Property>
        ensures { result ≡ numbered number }
    {
        property_at(&ROWS, number as usize)
    }

    /// The number of the property.
    #[tactic(auto, unfolding(crate::specs::Table::number_of))]
    pub fn number(self) -> usize
        ensures { result ≡ number_of self }
    {
        self as usize
    }

    // What the table says of the property.
    fn row(self) -> Row
        ensures { entry_of result ≡ (self, row self) }
    {
        row_at(&ROWS, self.number())
    }

    /// The name of the property, as `font-size`.
    pub fn name(self) -> &'static str
        ensures name { result.now ≡ name_of self }
        ensures ascii { IsAscii result.now }
    {
        self.row().name
    }

    /// Whether an element takes the value of its parent where it declares none.
    pub fn inherits(self) -> bool
        ensures { result ≡ inherits self }
    {
        self.row().inherits
    }

    /// The initial value, computed.
    pub fn initial(self, alloc: Global) -> Result<Typed, AllocError>
        ensures { IfOk result (λ v. v ≡ initial_of self) }
    {
        initial_value(alloc, self.row().initial)
    }

    // What the table says that a value is.
    pub(crate) fn grammar(self) -> &'static [Alternative]
        ensures { result.now ≡ (row self).grammar }
    {
        self.row().grammar
    }

    // What the table says that percentages are of.
    pub(crate) fn percentages(self) -> Percentages
        ensures { result ≡ (row self).percentages }
    {
        self.row().percentages
    }

    // Whether the text is the property's name, without ASCII case.
    fn is_named(self, text: &Name) -> bool
        ensures { result ≡ is_name_of text.now self }
    {
        text.is_word(self.name())
    }
}

// The row at this place.
fn row_at(rows: &[Row], at: usize) -> Row
    requires { at < length rows.now }
    ensures { Some (entry_of result) ≡ slice_get (map entry_of rows.now) at }
{
    rows[at]
}

fn property_at(rows: &[Row], at: usize) -> Option<Property>
    ensures { result ≡ slice_get (map (λ r. r.property) rows.now) at }
{
    match rows.get(at) {
        Some(row) => Some(row.property),
        None => None,
    }
}

// The first of some properties with this name, without ASCII case.
fn first_named(text: &Name, rows: &[Row]) -> Option<Property>
    ensures { result ≡ find (is_name_of text.now) (map (λ r. r.property) rows.now) }
{
    for row in rows {
        if row.property.is_named(text) {
            return Some(row.property);
        }
    }
    None
}

/// The property with this name, without ASCII case.
#[tactic(auto, unfolding(crate::specs::Table::property_named))]
pub fn property_named(text: &Name) -> Option<Property>
    ensures { result ≡ property_named text.now }
{
    first_named(text, &ROWS)
}
