//! What is told of a syntax by its components.

ghost use Rattle.std.specs.Prelude.{◌≡◌, not};
ghost use Rattle.std.specs.List.{list_all};
ghost use Rattle.cv_syntax.specs.Told.{is_no_length, has_no_length, is_no_keyword, has_no_keyword};

use crate::syntax::{Component, Kind, Syntax};

impl Kind {
    /// Whether an item of this kind may be a length: that of `<length>` and that of `<length-percentage>` (Properties and Values API 1,
    /// "Supported Names").
    pub fn is_length(&self) -> bool
        ensures { result ≡ not (is_no_length self.now) }
    {
        matches!(self, Kind::Length | Kind::LengthPercentage)
    }

    // Whether it is a CSS-wide keyword as a literal.
    fn is_keyword(&self) -> bool
        ensures { result ≡ not (is_no_keyword self.now) }
    {
        match self {
            Kind::Literal(word) => word.is_css_wide_keyword(),
            _ => false,
        }
    }
}

fn has_lengths(components: &[Component]) -> bool
    ensures { result ≡ not (list_all (λ c. is_no_length c.kind) components.now) }
{
    for component in components {
        if component.kind.is_length() {
            return true;
        }
    }
    false
}

fn has_keyword(components: &[Component]) -> bool
    ensures { result ≡ not (list_all (λ c. is_no_keyword c.kind) components.now) }
{
    for component in components {
        if component.kind.is_keyword() {
            return true;
        }
    }
    false
}

impl Syntax {
    /// Whether a component is `<length>` or `<length-percentage>`, as of `<length>+ | auto` (Properties and Values API 1, "Supported
    /// Names").
    pub fn has_lengths(&self) -> bool
        ensures { result ≡ not (has_no_length self.now) }
    {
        match self {
            Syntax::Any => false,
            Syntax::Of(components) => has_lengths(components.as_slice()),
        }
    }

    /// Whether a component is a CSS-wide keyword as a literal, which is so of no syntax that `parse_syntax` answers (CSS Values and Units 4,
    /// "CSS-wide keywords").
    pub fn has_keyword(&self) -> bool
        ensures { result ≡ not (has_no_keyword self.now) }
    {
        match self {
            Syntax::Any => false,
            Syntax::Of(components) => has_keyword(components.as_slice()),
        }
    }
}
