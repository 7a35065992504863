//! The objects.

ghost use Rattle.std.specs.Prelude.{◌≡◌, IfOk};

use cv_calc::Unit;
use cv_frac::Frac;
use cv_om::Numeric;
use cv_spec_text::{Name, Token, copy_tokens};
use cv_var::Segment;
use sqlite_items::Items;
use std::alloc::{AllocError, Global};

/// A value as an object (CSS Typed OM 1, "CSSStyleValue objects"). Contracts see its lists as lists.
#[derive(Drop)]
pub enum Style {
    /// Texts and references of a list that isn't read ("CSSUnparsedValue objects").
    Unparsed(Items<Segment>),
    /// A keyword ("CSSKeywordValue objects").
    Keyword(Name),
    /// A number of a unit ("CSSUnitValue objects").
    Unit(Frac, Unit),
    /// A math function ("CSSMathValue objects").
    Math(Numeric),
    /// The tokens of a value that has no more than its text.
    Opaque(Items<Token>),
    /// The values of a list, in order.
    List(Items<Style>),
}

fn copied_segments(alloc: Global, segments: &[Segment]) -> Result<Items<Segment>, AllocError>
    ensures { IfOk result (λ all. all ≡ segments.now) }
{
    let mut all = Items::new(alloc);
    for segment in segments {
        all.push(segment.copy(alloc)?)?;
    }
    Ok(all)
}

impl Style {
    /// The same object again.
    #[cycle(copy)]
    pub fn copy(&self, alloc: Global) -> Result<Self, AllocError>
        ensures { IfOk result (λ style. style ≡ self.now) }
    {
        match self {
            Style::Unparsed(segments) => {
                Ok(Style::Unparsed(copied_segments(alloc, segments.as_slice())?))
            }
            Style::Keyword(name) => Ok(Style::Keyword(name.copy()?)),
            Style::Unit(value, unit) => Ok(Style::Unit(*value, *unit)),
            Style::Math(numeric) => Ok(Style::Math(numeric.copy(alloc)?)),
            Style::Opaque(tokens) => {
                let tokens = copy_tokens(alloc, tokens.as_slice())?;
                Ok(Style::Opaque(Items::from_vec(tokens)))
            }
            Style::List(styles) => Ok(Style::List(copied_styles(alloc, styles.as_slice())?)),
        }
    }
}

#[cycle(copy)]
fn copied_styles(alloc: Global, styles: &[Style]) -> Result<Items<Style>, AllocError>
    ensures { IfOk result (λ all. all ≡ styles.now) }
{
    let mut all = Items::new(alloc);
    for style in styles {
        all.push(style.copy(alloc)?)?;
    }
    Ok(all)
}
