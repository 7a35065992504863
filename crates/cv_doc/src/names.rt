//! The names of the ordinary properties.

ghost use Rattle.std.specs.Prelude.{◌≡◌, IsAscii};
ghost use Rattle.std.specs.List.{All, list_any};
ghost use Rattle.cv_doc.specs.PropertyNames.{is_property, same_word};

use cv_spec_text::Name;

static PROPERTY_NAMES: [&str; 35] = [
    "font-size",
    "color",
    "line-height",
    "letter-spacing",
    "text-indent",
    "visibility",
    "orphans",
    "display",
    "width",
    "height",
    "min-width",
    "min-height",
    "max-width",
    "max-height",
    "margin-top",
    "margin-right",
    "margin-bottom",
    "margin-left",
    "padding-top",
    "padding-right",
    "padding-bottom",
    "padding-left",
    "top",
    "right",
    "bottom",
    "left",
    "row-gap",
    "column-gap",
    "opacity",
    "z-index",
    "order",
    "flex-grow",
    "flex-shrink",
    "background-color",
    "outline-offset",
];

/// Whether this is the name of an ordinary property, without ASCII case.
pub fn is_property(name: &Name) -> bool
    ensures { result ≡ is_property name.now }
{
    is_among(name, PROPERTY_NAMES.as_slice())
}

fn is_among(name: &Name, words: &[&str]) -> bool
    requires { All (λ word. IsAscii word.now) words.now }
    ensures { result ≡ list_any (λ word. same_word name.now word.now) words.now }
{
    words.iter().any(|word| is_same(name, word))
}

// Whether the two are the same, without ASCII case.
fn is_same(name: &Name, word: &str) -> bool
    requires { IsAscii word.now }
    ensures { result ≡ same_word name.now word.now }
{
    name.is_word(word)
}
