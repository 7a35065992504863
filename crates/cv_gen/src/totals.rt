//! The summary of computed elements.

ghost use Rattle.std.specs.Prelude.{◌≡◌, ◌≤◌, ◌++◌, IfErr, IfOk, OnErr, OnOk, length};
ghost use Rattle.cv_property.specs.declared.property.Property.TheVariants.{PaddingLeft, Width};
ghost use Rattle.cv_gen.specs.Summary.{IsRefusal, IsSummed, IsWithin, length_at, length_of, length_text, line, summary_text, sum_of, text_with, values_of};

use cv_frac::Frac;
use cv_tokser::print;
use cv_valuation::{Computed, Key, Outcome, Property};
use cv_value::{Item, Typed, typed_tokens};
use itoa::Buffer;
use std::alloc::{AllocError, Global};

/// Why there is no summary.
#[derive(Clone, Copy, Debug, PartialEq, Eq)]
pub enum SummaryErr {
    /// The sum of this property up to this element, the first such, is out of bounds.
    Range { element: u32, property: Property },
    /// There is no memory.
    Memory,
}

impl From<AllocError> for SummaryErr {
    ghost use Rattle.std.specs.Prelude.{◌≡◌};
    ghost use Rattle.cv_gen.specs.declared.totals.SummaryErr.TheVariants.{Memory};

    ghost from_gives = { λ _ error. error ≡ Memory };

    fn from(_: AllocError) -> SummaryErr {
        SummaryErr::Memory
    }
}

/// Adds three lines: how many elements there are, the sum of their widths and the sum of their left paddings, as `widths 15px`. A value
/// that is no length counts as 0px.
///
/// # Errors
///
/// `Range` where a sum is out of bounds, and `Memory`.
pub fn summary(alloc: Global, all: &[Computed], out: &mut Vec<u8>) -> Result<(), SummaryErr>
    requires { length all.now ≤ 4294967287 }
    ensures text { OnOk result (out.new.items ≡ out.old.items ++ summary_text (values_of all.now)) }
    ensures widths { OnOk result (IsWithin Width (values_of all.now)) }
    ensures padding { OnOk result (IsWithin PaddingLeft (values_of all.now)) }
    ensures range { IfErr result (IsRefusal (values_of all.now)) }
    ensures err { OnErr result (out.new.items ≡ out.old.items) }
{
    let widths = total(Property::Width, all)?;
    let padding = total(Property::PaddingLeft, all)?;
    let text = text_of(alloc, all.len(), widths, padding)?;
    out.extend_from_slice(&text)?;
    Ok(())
}

// The sum of the computed lengths of a property.
fn total(property: Property, all: &[Computed]) -> Result<Frac, SummaryErr>
    requires summed { IsSummed property }
    requires room { length all.now ≤ 4294967287 }
    ensures sum { IfOk result (λ sum. sum ≡ sum_of property (values_of all.now)) }
    ensures within { OnOk result (IsWithin property (values_of all.now)) }
    ensures range { IfErr result (IsRefusal (values_of all.now)) }
{
    let mut sum = Frac::whole(0);
    for (element, computed) in all.iter().enumerate() {
        match sum.add(length_at(property, computed)) {
            Ok(more) => sum = more,
            Err(_) => {
                return Err(SummaryErr::Range {
                    element: element as u32,
                    property,
                });
            }
        }
    }
    Ok(sum)
}

// The length that the property has.
fn length_at(property: Property, computed: &Computed) -> Frac
    ensures { result ≡ length_at property computed.now.values }
{
    length_of(computed.values.get(&Key::Table(property)))
}

// A length, and 0px for a value that is none.
fn length_of(outcome: &Outcome) -> Frac
    ensures { result ≡ length_of outcome.now }
{
    match outcome {
        Outcome::Value(Typed::One(Item::Length(px))) => *px,
        _ => Frac::whole(0),
    }
}

#[tactic(auto, unfolding(crate::specs::Summary::text_with))]
fn text_of(alloc: Global, count: usize, widths: Frac, padding: Frac) -> Result<Vec<u8>, AllocError>
    ensures { IfOk result (λ text. text.items ≡ text_with count widths padding) }
{
    let mut text = Vec::new(alloc);
    let mut buffer = Buffer::new();
    push_line(&mut text, "elements", buffer.format(count).as_bytes())?;
    push_line(&mut text, "widths", &length_text(alloc, widths)?)?;
    push_line(&mut text, "padding", &length_text(alloc, padding)?)?;
    Ok(text)
}

// The text of a length of this many px.
fn length_text(alloc: Global, px: Frac) -> Result<Vec<u8>, AllocError>
    ensures { IfOk result (λ text. text.items ≡ length_text px) }
{
    let mut text = Vec::new(alloc);
    let tokens = typed_tokens(alloc, &Typed::One(Item::Length(px)))?;
    print(alloc, &tokens, &mut text)?;
    Ok(text)
}

// Adds a line of a word and a text.
#[tactic(auto, unfolding(crate::specs::Summary::line))]
fn push_line(all: &mut Vec<u8>, word: &str, text: &[u8]) -> Result<(), AllocError>
    ensures { OnOk result (all.new.items ≡ all.old.items ++ line word.now text.now) }
{
    all.extend_from_slice(word.as_bytes())?;
    all.push(b' ')?;
    all.extend_from_slice(text)?;
    all.push(b'\n')?;
    Ok(())
}
