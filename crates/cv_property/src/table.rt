//! The table of the ordinary properties.

use crate::grammar::{Alternative, Keyword, Percentages};
use crate::property::Property;
use cv_numeric::Range;

/// What the initial value of a property is.
#[derive(Clone, Copy)]
pub enum Initial {
    Keyword(Keyword),
    Px(u32),
    Number(u32),
    Integer(i64),
    /// `rgb(0, 0, 0)`.
    Black,
    /// `rgba(0, 0, 0, 0)`.
    Transparent,
}

/// What the table says of a property.
#[derive(Clone, Copy)]
pub(crate) struct Row {
    pub(crate) property: Property,
    pub(crate) name: &'static str,
    pub(crate) inherits: bool,
    pub(crate) initial: Initial,
    /// The first of these that a list matches counts.
    pub(crate) grammar: &'static [Alternative],
    pub(crate) percentages: Percentages,
}

/// The properties in order.
pub(crate) const ROWS: [Row; 35] = [
    Row {
        property: Property::FontSize,
        name: "font-size",
        inherits: true,
        initial: Initial::Px(16),
        grammar: &[
            Alternative::Keyword(Keyword::Medium),
            Alternative::LengthPercentage(Range::NotNegative),
        ],
        percentages: Percentages::OfFontSize,
    },
    Row {
        property: Property::Color,
        name: "color",
        inherits: true,
        initial: Initial::Black,
        grammar: &[Alternative::Color],
        percentages: Percentages::OfLength,
    },
    Row {
        property: Property::LineHeight,
        name: "line-height",
        inherits: true,
        initial: Initial::Keyword(Keyword::Normal),
        grammar: &[
            Alternative::Keyword(Keyword::Normal),
            Alternative::Number(Range::NotNegative),
            Alternative::LengthPercentage(Range::NotNegative),
        ],
        percentages: Percentages::OfFontSize,
    },
    Row {
        property: Property::LetterSpacing,
        name: "letter-spacing",
        inherits: true,
        initial: Initial::Keyword(Keyword::Normal),
        grammar: &[Alternative::Keyword(Keyword::Normal), Alternative::Length],
        percentages: Percentages::OfLength,
    },
    Row {
        property: Property::TextIndent,
        name: "text-indent",
        inherits: true,
        initial: Initial::Px(0),
        grammar: &[Alternative::LengthPercentage(Range::All)],
        percentages: Percentages::OfLength,
    },
    Row {
        property: Property::Visibility,
        name: "visibility",
        inherits: true,
        initial: Initial::Keyword(Keyword::Visible),
        grammar: &[
            Alternative::Keyword(Keyword::Visible),
            Alternative::Keyword(Keyword::Hidden),
            Alternative::Keyword(Keyword::Collapse),
        ],
        percentages: Percentages::OfLength,
    },
    Row {
        property: Property::Orphans,
        name: "orphans",
        inherits: true,
        initial: Initial::Integer(2),
        grammar: &[Alternative::PositiveInteger],
        percentages: Percentages::OfLength,
    },
    Row {
        property: Property::Display,
        name: "display",
        inherits: false,
        initial: Initial::Keyword(Keyword::Inline),
        grammar: &[
            Alternative::Keyword(Keyword::Inline),
            Alternative::Keyword(Keyword::Block),
            Alternative::Keyword(Keyword::InlineBlock),
            Alternative::Keyword(Keyword::Flex),
            Alternative::Keyword(Keyword::Grid),
            Alternative::Keyword(Keyword::Contents),
            Alternative::Keyword(Keyword::None),
        ],
        percentages: Percentages::OfLength,
    },
    Row {
        property: Property::Width,
        name: "width",
        inherits: false,
        initial: Initial::Keyword(Keyword::Auto),
        grammar: &[
            Alternative::Keyword(Keyword::Auto),
            Alternative::LengthPercentage(Range::NotNegative),
        ],
        percentages: Percentages::OfLength,
    },
    Row {
        property: Property::Height,
        name: "height",
        inherits: false,
        initial: Initial::Keyword(Keyword::Auto),
        grammar: &[
            Alternative::Keyword(Keyword::Auto),
            Alternative::LengthPercentage(Range::NotNegative),
        ],
        percentages: Percentages::OfLength,
    },
    Row {
        property: Property::MinWidth,
        name: "min-width",
        inherits: false,
        initial: Initial::Keyword(Keyword::Auto),
        grammar: &[
            Alternative::Keyword(Keyword::Auto),
            Alternative::LengthPercentage(Range::NotNegative),
        ],
        percentages: Percentages::OfLength,
    },
    Row {
        property: Property::MinHeight,
        name: "min-height",
        inherits: false,
        initial: Initial::Keyword(Keyword::Auto),
        grammar: &[
            Alternative::Keyword(Keyword::Auto),
            Alternative::LengthPercentage(Range::NotNegative),
        ],
        percentages: Percentages::OfLength,
    },
    Row {
        property: Property::MaxWidth,
        name: "max-width",
        inherits: false,
        initial: Initial::Keyword(Keyword::None),
        grammar: &[
            Alternative::Keyword(Keyword::None),
            Alternative::LengthPercentage(Range::NotNegative),
        ],
        percentages: Percentages::OfLength,
    },
    Row {
        property: Property::MaxHeight,
        name: "max-height",
        inherits: false,
        initial: Initial::Keyword(Keyword::None),
        grammar: &[
            Alternative::Keyword(Keyword::None),
            Alternative::LengthPercentage(Range::NotNegative),
        ],
        percentages: Percentages::OfLength,
    },
    Row {
        property: Property::MarginTop,
        name: "margin-top",
        inherits: false,
        initial: Initial::Px(0),
        grammar: &[
            Alternative::Keyword(Keyword::Auto),
            Alternative::LengthPercentage(Range::All),
        ],
        percentages: Percentages::OfLength,
    },
    Row {
        property: Property::MarginRight,
        name: "margin-right",
        inherits: false,
        initial: Initial::Px(0),
        grammar: &[
            Alternative::Keyword(Keyword::Auto),
            Alternative::LengthPercentage(Range::All),
        ],
        percentages: Percentages::OfLength,
    },
    Row {
        property: Property::MarginBottom,
        name: "margin-bottom",
        inherits: false,
        initial: Initial::Px(0),
        grammar: &[
            Alternative::Keyword(Keyword::Auto),
            Alternative::LengthPercentage(Range::All),
        ],
        percentages: Percentages::OfLength,
    },
    Row {
        property: Property::MarginLeft,
        name: "margin-left",
        inherits: false,
        initial: Initial::Px(0),
        grammar: &[
            Alternative::Keyword(Keyword::Auto),
            Alternative::LengthPercentage(Range::All),
        ],
        percentages: Percentages::OfLength,
    },
    Row {
        property: Property::PaddingTop,
        name: "padding-top",
        inherits: false,
        initial: Initial::Px(0),
        grammar: &[Alternative::LengthPercentage(Range::NotNegative)],
        percentages: Percentages::OfLength,
    },
    Row {
        property: Property::PaddingRight,
        name: "padding-right",
        inherits: false,
        initial: Initial::Px(0),
        grammar: &[Alternative::LengthPercentage(Range::NotNegative)],
        percentages: Percentages::OfLength,
    },
    Row {
        property: Property::PaddingBottom,
        name: "padding-bottom",
        inherits: false,
        initial: Initial::Px(0),
        grammar: &[Alternative::LengthPercentage(Range::NotNegative)],
        percentages: Percentages::OfLength,
    },
    Row {
        property: Property::PaddingLeft,
        name: "padding-left",
        inherits: false,
        initial: Initial::Px(0),
        grammar: &[Alternative::LengthPercentage(Range::NotNegative)],
        percentages: Percentages::OfLength,
    },
    Row {
        property: Property::Top,
        name: "top",
        inherits: false,
        initial: Initial::Keyword(Keyword::Auto),
        grammar: &[
            Alternative::Keyword(Keyword::Auto),
            Alternative::LengthPercentage(Range::All),
        ],
        percentages: Percentages::OfLength,
    },
    Row {
        property: Property::Right,
        name: "right",
        inherits: false,
        initial: Initial::Keyword(Keyword::Auto),
        grammar: &[
            Alternative::Keyword(Keyword::Auto),
            Alternative::LengthPercentage(Range::All),
        ],
        percentages: Percentages::OfLength,
    },
    Row {
        property: Property::Bottom,
        name: "bottom",
        inherits: false,
        initial: Initial::Keyword(Keyword::Auto),
        grammar: &[
            Alternative::Keyword(Keyword::Auto),
            Alternative::LengthPercentage(Range::All),
        ],
        percentages: Percentages::OfLength,
    },
    Row {
        property: Property::Left,
        name: "left",
        inherits: false,
        initial: Initial::Keyword(Keyword::Auto),
        grammar: &[
            Alternative::Keyword(Keyword::Auto),
            Alternative::LengthPercentage(Range::All),
        ],
        percentages: Percentages::OfLength,
    },
    Row {
        property: Property::RowGap,
        name: "row-gap",
        inherits: false,
        initial: Initial::Keyword(Keyword::Normal),
        grammar: &[
            Alternative::Keyword(Keyword::Normal),
            Alternative::LengthPercentage(Range::NotNegative),
        ],
        percentages: Percentages::OfLength,
    },
    Row {
        property: Property::ColumnGap,
        name: "column-gap",
        inherits: false,
        initial: Initial::Keyword(Keyword::Normal),
        grammar: &[
            Alternative::Keyword(Keyword::Normal),
            Alternative::LengthPercentage(Range::NotNegative),
        ],
        percentages: Percentages::OfLength,
    },
    Row {
        property: Property::Opacity,
        name: "opacity",
        inherits: false,
        initial: Initial::Number(1),
        grammar: &[Alternative::Number(Range::All), Alternative::Portion],
        percentages: Percentages::Themselves,
    },
    Row {
        property: Property::ZIndex,
        name: "z-index",
        inherits: false,
        initial: Initial::Keyword(Keyword::Auto),
        grammar: &[Alternative::Keyword(Keyword::Auto), Alternative::Integer],
        percentages: Percentages::OfLength,
    },
    Row {
        property: Property::Order,
        name: "order",
        inherits: false,
        initial: Initial::Integer(0),
        grammar: &[Alternative::Integer],
        percentages: Percentages::OfLength,
    },
    Row {
        property: Property::FlexGrow,
        name: "flex-grow",
        inherits: false,
        initial: Initial::Number(0),
        grammar: &[Alternative::Number(Range::NotNegative)],
        percentages: Percentages::OfLength,
    },
    Row {
        property: Property::FlexShrink,
        name: "flex-shrink",
        inherits: false,
        initial: Initial::Number(1),
        grammar: &[Alternative::Number(Range::NotNegative)],
        percentages: Percentages::OfLength,
    },
    Row {
        property: Property::BackgroundColor,
        name: "background-color",
        inherits: false,
        initial: Initial::Transparent,
        grammar: &[Alternative::Color],
        percentages: Percentages::OfLength,
    },
    Row {
        property: Property::OutlineOffset,
        name: "outline-offset",
        inherits: false,
        initial: Initial::Px(0),
        grammar: &[Alternative::Length],
        percentages: Percentages::OfLength,
    },
];
