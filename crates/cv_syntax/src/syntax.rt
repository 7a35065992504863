//! What a syntax string says (Properties and Values API 1, "Syntax Strings").

ghost use Rattle.std.specs.Prelude.{◌≡◌, IfOk};

use cv_spec_text::Name;
use sqlite_items::Items;
use std::alloc::{AllocError, Global};

/// What one item is.
#[derive(Debug, Drop)]
pub enum Kind {
    Length,
    Number,
    Percentage,
    LengthPercentage,
    Color,
    Url,
    Integer,
    Angle,
    Time,
    Resolution,
    Str,
    CustomIdent,
    /// The ident itself, with its case.
    Literal(Name),
}

impl Kind {
    /// The same kind again.
    pub fn copy(&self) -> Result<Self, AllocError>
        ensures { IfOk result (λ kind. kind ≡ self.now) }
    {
        match self {
            Kind::Length => Ok(Kind::Length),
            Kind::Number => Ok(Kind::Number),
            Kind::Percentage => Ok(Kind::Percentage),
            Kind::LengthPercentage => Ok(Kind::LengthPercentage),
            Kind::Color => Ok(Kind::Color),
            Kind::Url => Ok(Kind::Url),
            Kind::Integer => Ok(Kind::Integer),
            Kind::Angle => Ok(Kind::Angle),
            Kind::Time => Ok(Kind::Time),
            Kind::Resolution => Ok(Kind::Resolution),
            Kind::Str => Ok(Kind::Str),
            Kind::CustomIdent => Ok(Kind::CustomIdent),
            Kind::Literal(name) => Ok(Kind::Literal(name.copy()?)),
        }
    }
}

/// Whether a component is one item, or a list with spaces (`+`) or commas (`#`) between its items.
#[derive(Clone, Copy, Debug)]
pub enum Many {
    One,
    Spaces,
    Commas,
}

/// One component of a syntax.
#[derive(Debug, Drop)]
pub struct Component {
    pub kind: Kind,
    pub many: Many,
}

impl Component {
    /// The same component again.
    pub fn copy(&self) -> Result<Self, AllocError>
        ensures { IfOk result (λ component. component ≡ self.now) }
    {
        Ok(Component {
            kind: self.kind.copy()?,
            many: self.many,
        })
    }
}

/// What a value may be: anything, or what one of the components says. Contracts see the components as a list.
#[derive(Debug, Drop)]
pub enum Syntax {
    /// The universal syntax, `*`.
    Any,
    /// The components in their order. `parse_syntax` answers one at least.
    Of(Items<Component>),
}

impl Syntax {
    /// The same syntax again.
    pub fn copy(&self, alloc: Global) -> Result<Self, AllocError>
        ensures { IfOk result (λ syntax. syntax ≡ self.now) }
    {
        match self {
            Syntax::Any => Ok(Syntax::Any),
            Syntax::Of(components) => Ok(Syntax::Of(copied(alloc, components.as_slice())?)),
        }
    }
}

fn copied(alloc: Global, components: &[Component]) -> Result<Items<Component>, AllocError>
    ensures { IfOk result (λ all. all ≡ components.now) }
{
    let mut all = Items::new(alloc);
    for component in components {
        all.push(component.copy()?)?;
    }
    Ok(all)
}

/// Why a text is no syntax string. Places are characters of the text, counted from 0.
#[derive(Debug, Drop)]
pub enum SyntaxErr {
    /// Nothing is left after trimming.
    Empty,
    /// A component of the standard that isn't built, by its name.
    Unsupported(Name),
    /// At a `<` that begins no known name with its `>`, or at an ident that is no literal.
    BadName(usize),
    /// At a character that can't stand there, or at the end of the text where a component is missing.
    BadChar(usize),
    /// There is no memory.
    Memory,
}

impl SyntaxErr {
    /// The same refusal again.
    pub fn copy(&self) -> Result<Self, AllocError>
        ensures { IfOk result (λ error. error ≡ self.now) }
    {
        match self {
            SyntaxErr::Empty => Ok(SyntaxErr::Empty),
            SyntaxErr::Unsupported(name) => Ok(SyntaxErr::Unsupported(name.copy()?)),
            SyntaxErr::BadName(place) => Ok(SyntaxErr::BadName(*place)),
            SyntaxErr::BadChar(place) => Ok(SyntaxErr::BadChar(*place)),
            SyntaxErr::Memory => Ok(SyntaxErr::Memory),
        }
    }
}

impl From<AllocError> for SyntaxErr {
    ghost use Rattle.std.specs.Prelude.{◌≡◌};
    ghost use Rattle.cv_syntax.specs.declared.syntax.SyntaxErr.TheVariants.{Memory};

    ghost from_gives = { λ _ error. error ≡ Memory };

    fn from(_: AllocError) -> Self {
        SyntaxErr::Memory
    }
}
