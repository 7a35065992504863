//! What a grammar of a property is made of.

ghost use Rattle.std.specs.Prelude.{◌≡◌, IsAscii};
ghost use Rattle.cv_property.specs.Keywords.{keyword_text};

use cv_numeric::Range;

/// The keywords of the ordinary properties (CSS Values and Units 4, "Pre-defined Keywords").
#[derive(Clone, Copy, Debug, PartialEq, Eq)]
pub enum Keyword {
    Medium,
    Normal,
    Visible,
    Hidden,
    Collapse,
    Inline,
    Block,
    InlineBlock,
    Flex,
    Grid,
    Contents,
    None,
    Auto,
}

/// One of the values between the bars of a grammar (CSS Values and Units 4, "Value Definition Syntax").
#[derive(Clone, Copy, Debug, PartialEq, Eq)]
pub enum Alternative {
    Keyword(Keyword),
    Number(Range),
    /// A percentage that stands for its part of 1.
    Portion,
    Integer,
    /// A whole number of at least 1.
    PositiveInteger,
    Length,
    LengthPercentage(Range),
    Color,
}

/// What percentages are of: of the length that `em` stands for, or of a length that isn't known yet; or they stand for themselves.
#[derive(Clone, Copy, Debug, PartialEq, Eq)]
pub enum Percentages {
    OfFontSize,
    OfLength,
    Themselves,
}

impl Keyword {
    /// The keyword as it is written, as `inline-block`.
    pub fn text(self) -> &'static str
        ensures text { result.now ≡ keyword_text self }
        ensures ascii { IsAscii result.now }
    {
        match self {
            Keyword::Medium => "medium",
            Keyword::Normal => "normal",
            Keyword::Visible => "visible",
            Keyword::Hidden => "hidden",
            Keyword::Collapse => "collapse",
            Keyword::Inline => "inline",
            Keyword::Block => "block",
            Keyword::InlineBlock => "inline-block",
            Keyword::Flex => "flex",
            Keyword::Grid => "grid",
            Keyword::Contents => "contents",
            Keyword::None => "none",
            Keyword::Auto => "auto",
        }
    }
}
