//! Syntax strings, by what is printed for debugging.

use cv_syntax::parse_syntax;
use std::alloc::Global;
use std::test::Fail;

static ROWS: [(&str, &str); 20] = [
    (
        "<length>+ | auto",
        "Of(Items { items: [Component { kind: Length, many: Spaces }, Component { kind: Literal(auto), many: One }] })",
    ),
    (
        "\t<length-percentage>#|-X-+ ",
        "Of(Items { items: [Component { kind: LengthPercentage, many: Commas }, Component { kind: Literal(-X-), many: Spaces }] })",
    ),
    (" *\n", "Any"),
    ("", "Empty"),
    ("  ", "Empty"),
    ("<image>", "Unsupported(image)"),
    ("<foo>", "BadName(0)"),
    ("<Length>", "BadName(0)"),
    ("<length", "BadName(0)"),
    ("a|<image>", "Unsupported(image)"),
    ("inherit", "BadName(0)"),
    ("a | DEFAULT", "BadName(4)"),
    ("<length>++", "BadChar(9)"),
    ("a +", "BadChar(2)"),
    ("a |", "BadChar(3)"),
    ("é | ", "BadChar(4)"),
    ("|a", "BadChar(0)"),
    ("* | a", "BadChar(0)"),
    ("\\61", "BadChar(0)"),
    ("- | <foo>", "BadChar(0)"),
];

fn printed(alloc: Global, text: &str) -> Result<String, Fail> {
    match parse_syntax(alloc, text) {
        Ok(syntax) => Ok(format!(in alloc; "{syntax:?}")?),
        Err(error) => Ok(format!(in alloc; "{error:?}")?),
    }
}

#[test]
fn texts_say_what_they_should(rt: HostRuntime) -> Result<(), Fail> {
    for (text, says) in &ROWS {
        assert_eq!(rt; printed(rt.alloc(), text)?.as_str(), *says, "of {text:?}");
    }
    Ok(())
}
