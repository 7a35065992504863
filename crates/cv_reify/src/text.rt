//! How objects are written.

ghost use Rattle.std.specs.Prelude.{◌≡◌, ◌++◌, map, codes, OnOk, OnErr, IfOk};
ghost use Rattle.cv_reify.specs.Text as texts;

use crate::quoted::push_string;
use crate::style::Style;
use cv_calc::{Calc, Unit, unit_name};
use cv_frac::Frac;
use cv_spec_text::{Name, Token};
use cv_tokser::print_identifier;
use cv_var::Segment;
use std::alloc::{AllocError, Global};

// Adds a name and the bracket behind it.
fn push_call(text: &mut Vec<u8>, name: &[u8]) -> Result<(), AllocError>
    ensures { OnOk result (text.new.items ≡ text.old.items ++ (name.now ++ codes "(")) }
{
    text.extend_from_slice(name)?;
    text.extend_from_slice(b"(")
}

// Adds a number of a unit.
fn push_unit(alloc: Global, text: &mut Vec<u8>, value: Frac, unit: Unit) -> Result<(), AllocError>
    ensures { OnOk result (text.new.items ≡ text.old.items ++ texts.unit_call value unit) }
{
    push_call(text, b"unit")?;
    value.write(alloc, text)?;
    text.extend_from_slice(b", ")?;
    text.extend_from_slice(unit_name(unit).as_bytes())?;
    text.extend_from_slice(b")")
}

// Adds a keyword.
fn push_keyword(alloc: Global, text: &mut Vec<u8>, name: &Name) -> Result<(), AllocError>
    ensures { OnOk result (text.new.items ≡ text.old.items ++ texts.call (codes "keyword") (texts.name_text name.now)) }
{
    push_call(text, b"keyword")?;
    print_identifier(alloc, name, text)?;
    text.extend_from_slice(b")")
}

// Adds the text of tokens.
fn push_opaque(alloc: Global, text: &mut Vec<u8>, tokens: &[Token]) -> Result<(), AllocError>
    ensures { OnOk result (text.new.items ≡ text.old.items ++ texts.call (codes "opaque") (texts.string_text tokens.now)) }
{
    push_call(text, b"opaque")?;
    push_string(alloc, text, tokens)?;
    text.extend_from_slice(b")")
}

// Adds a reference up to what stands behind its name.
fn push_reference(alloc: Global, text: &mut Vec<u8>, name: &Name) -> Result<(), AllocError>
    ensures { OnOk result (text.new.items ≡ text.old.items ++ (codes "var(" ++ texts.name_text name.now)) }
{
    push_call(text, b"var")?;
    print_identifier(alloc, name, text)
}

// Adds a text or a reference. A call for a fallback is as deep as the segments are.
#[cycle(segments)]
#[tactic(auto, using(crate::proofs::Texts::segment_equations))]
fn push_segment(alloc: Global, text: &mut Vec<u8>, segment: &Segment) -> Result<(), AllocError>
    ensures { OnOk result (text.new.items ≡ text.old.items ++ texts.segment_text segment.now) }
{
    match segment {
        Segment::Text(tokens) => push_string(alloc, text, tokens.as_slice()),
        Segment::Ref { name, fallback } => match fallback {
            None => {
                push_reference(alloc, text, name)?;
                text.push(b')')?;
                Ok(())
            }
            Some(segments) => {
                push_reference(alloc, text, name)?;
                text.extend_from_slice(b", ")?;
                push_unparsed(alloc, text, segments.as_slice())?;
                text.push(b')')?;
                Ok(())
            }
        },
    }
}

// Adds a list that isn't read.
#[cycle(segments)]
fn push_unparsed(alloc: Global, text: &mut Vec<u8>, segments: &[Segment]) -> Result<(), AllocError>
    ensures { OnOk result (text.new.items ≡ text.old.items ++ texts.unparsed (map texts.segment_text segments.now)) }
{
    text.extend_from_slice(b"unparsed[")?;
    push_segments(alloc, text, segments)?;
    text.extend_from_slice(b"]")
}

#[cycle(segments)]
fn push_segments(alloc: Global, text: &mut Vec<u8>, segments: &[Segment]) -> Result<(), AllocError>
    ensures { OnOk result (text.new.items ≡ text.old.items ++ texts.joined (map texts.segment_text segments.now)) }
{
    let mut separator: &[u8] = b"";
    for segment in segments {
        text.extend_from_slice(separator)?;
        push_segment(alloc, text, segment)?;
        separator = b", ";
    }
    Ok(())
}

// Adds a calculation. A call for a child is as deep as the calculation is.
#[cycle(trees)]
#[tactic(auto, using(crate::proofs::Texts::tree_equations))]
fn push_tree(alloc: Global, text: &mut Vec<u8>, c: &Calc) -> Result<(), AllocError>
    ensures { OnOk result (text.new.items ≡ text.old.items ++ texts.tree_text c.now) }
{
    match c {
        Calc::Num(value, unit) => push_unit(alloc, text, *value, *unit),
        Calc::Sum(children) => push_node(alloc, text, b"sum", children.as_slice()),
        Calc::Product(children) => push_node(alloc, text, b"product", children.as_slice()),
        Calc::Negate(child) => push_turned(alloc, text, b"negate", child.get()),
        Calc::Invert(child) => push_turned(alloc, text, b"invert", child.get()),
        Calc::Min(children) => push_node(alloc, text, b"min", children.as_slice()),
        Calc::Max(children) => push_node(alloc, text, b"max", children.as_slice()),
        Calc::Clamp(low, middle, high) => {
            push_behind(alloc, text, b"clamp(", low.get())?;
            push_behind(alloc, text, b", ", middle.get())?;
            push_behind(alloc, text, b", ", high.get())?;
            text.push(b')')?;
            Ok(())
        }
    }
}

#[cycle(trees)]
fn push_turned(
    alloc: Global,
    text: &mut Vec<u8>,
    name: &[u8],
    child: &Calc,
) -> Result<(), AllocError>
    ensures { OnOk result (text.new.items ≡ text.old.items ++ texts.call name.now (texts.tree_text child.now)) }
{
    push_call(text, name)?;
    push_tree(alloc, text, child)?;
    text.extend_from_slice(b")")
}

// Adds a text and a calculation.
#[cycle(trees)]
fn push_behind(
    alloc: Global,
    text: &mut Vec<u8>,
    front: &[u8],
    child: &Calc,
) -> Result<(), AllocError>
    ensures { OnOk result (text.new.items ≡ text.old.items ++ (front.now ++ texts.tree_text child.now)) }
{
    text.extend_from_slice(front)?;
    push_tree(alloc, text, child)
}

#[cycle(trees)]
fn push_node(
    alloc: Global,
    text: &mut Vec<u8>,
    name: &[u8],
    children: &[Calc],
) -> Result<(), AllocError>
    ensures { OnOk result (text.new.items ≡ text.old.items ++ texts.call name.now (texts.joined (map texts.tree_text children.now))) }
{
    push_call(text, name)?;
    push_trees(alloc, text, children)?;
    text.extend_from_slice(b")")
}

#[cycle(trees)]
fn push_trees(alloc: Global, text: &mut Vec<u8>, children: &[Calc]) -> Result<(), AllocError>
    ensures { OnOk result (text.new.items ≡ text.old.items ++ texts.joined (map texts.tree_text children.now)) }
{
    let mut separator: &[u8] = b"";
    for child in children {
        text.extend_from_slice(separator)?;
        push_tree(alloc, text, child)?;
        separator = b", ";
    }
    Ok(())
}

// Adds an object. A call for an object in a list is as deep as the lists are.
#[cycle(styles)]
#[tactic(auto, using(crate::proofs::Texts::style_equations))]
fn push_style(alloc: Global, text: &mut Vec<u8>, style: &Style) -> Result<(), AllocError>
    ensures { OnOk result (text.new.items ≡ text.old.items ++ texts.style_text style.now) }
{
    match style {
        Style::Unparsed(segments) => push_unparsed(alloc, text, segments.as_slice()),
        Style::Keyword(name) => push_keyword(alloc, text, name),
        Style::Unit(value, unit) => push_unit(alloc, text, *value, *unit),
        Style::Math(numeric) => push_tree(alloc, text, numeric.tree()),
        Style::Opaque(tokens) => push_opaque(alloc, text, tokens.as_slice()),
        Style::List(styles) => push_list(alloc, text, styles.as_slice()),
    }
}

#[cycle(styles)]
fn push_list(alloc: Global, text: &mut Vec<u8>, styles: &[Style]) -> Result<(), AllocError>
    ensures { OnOk result (text.new.items ≡ text.old.items ++ (codes "list[" ++ texts.joined (map texts.style_text styles.now) ++ codes "]")) }
{
    text.extend_from_slice(b"list[")?;
    push_styles(alloc, text, styles)?;
    text.extend_from_slice(b"]")
}

#[cycle(styles)]
fn push_styles(alloc: Global, text: &mut Vec<u8>, styles: &[Style]) -> Result<(), AllocError>
    ensures { OnOk result (text.new.items ≡ text.old.items ++ texts.joined (map texts.style_text styles.now)) }
{
    let mut separator: &[u8] = b"";
    for style in styles {
        text.extend_from_slice(separator)?;
        push_style(alloc, text, style)?;
        separator = b", ";
    }
    Ok(())
}

fn text_of(alloc: Global, style: &Style) -> Result<Vec<u8>, AllocError>
    ensures { IfOk result (λ text. text.items ≡ texts.style_text style.now) }
{
    let mut text = Vec::new(alloc);
    push_style(alloc, &mut text, style)?;
    Ok(text)
}

/// Appends the text of an object, as `unit(1, px)` or `unparsed["1px ", var(--a)]`. Where memory runs out `out` is as it was.
pub fn style_text(alloc: Global, style: &Style, out: &mut Vec<u8>) -> Result<(), AllocError>
    ensures ok { OnOk result (out.new.items ≡ out.old.items ++ texts.style_text style.now) }
    ensures err { OnErr result (out.new.items ≡ out.old.items) }
{
    let text = text_of(alloc, style)?;
    out.extend_from_slice(&text)
}
