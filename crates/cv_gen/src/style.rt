//! The styles of the elements.

ghost use Rattle.std.specs.Prelude.{◌≡◌, ◌<◌, IfOk, IsAscii, map, string_bytes};
ghost use Rattle.std.specs.List.{range_with_len};
ghost use Rattle.cv_gen.specs.Generated.{chain, element_of, link, style_end, style_of};

use cv_doc::Elem;
use cv_spec_text::Name;
use std::alloc::{AllocError, Global};

// How many custom properties the chain has behind its first.
const LINKS: u32 = 40;

// After so many elements the styles begin again.
const PERIOD: u32 = 41;

/// An ASCII text.
pub fn ascii_name(alloc: Global, text: &str) -> Result<Name, AllocError>
    requires { IsAscii text.now }
    ensures { IfOk result (λ name. name ≡ text.now) }
{
    Name::of(alloc, text)
}

/// The style of the element with this index, behind those with lower ones, with which it shares its text where they have it.
pub fn style(alloc: Global, index: u32, earlier: &[Elem]) -> Result<Name, AllocError>
    requires { earlier.now ≡ map element_of (range_with_len 0 index) }
    ensures { IfOk result (λ text. text ≡ style_of index) }
{
    if index == 0 {
        first_style(alloc)
    } else if index <= PERIOD {
        later_style(alloc, index)
    } else {
        earlier[(index - PERIOD) as usize].style.copy()
    }
}

#[tactic(auto, using(crate::proofs::Texts::first_is_ascii))]
fn first_style(alloc: Global) -> Result<Name, AllocError>
    ensures { IfOk result (λ text. text ≡ style_of 0) }
{
    let mut text = chain(alloc)?;
    text.push_str(style_end(alloc, 0)?.as_str())?;
    ascii_name(alloc, text.as_str())
}

// The style of an element that isn't the first.
#[tactic(auto, using(crate::proofs::Texts::style_end_is_ascii))]
fn later_style(alloc: Global, index: u32) -> Result<Name, AllocError>
    ensures { IfOk result (λ text. text ≡ style_end index) }
{
    ascii_name(alloc, style_end(alloc, index)?.as_str())
}

// What the style of this element ends with.
#[tactic(auto, unfolding(crate::specs::Generated::style_end))]
fn style_end(alloc: Global, index: u32) -> Result<String, AllocError>
    ensures { IfOk result (λ text. string_bytes text ≡ style_end index) }
{
    let number = index % PERIOD;
    format!(in alloc; "width: var(--s{number}); padding-left: 1em; font-size: calc(100% + 1px)")
}

// The declarations of the chain.
#[tactic(auto, unfolding(crate::specs::Generated::chain))]
fn chain(alloc: Global) -> Result<String, AllocError>
    ensures { IfOk result (λ text. string_bytes text ≡ chain 40) }
{
    let mut text = String::from_str(alloc, "--s0: var(--base); ")?;
    for number in 0..LINKS {
        text.push_str(link(alloc, number)?.as_str())?;
    }
    Ok(text)
}

// The declaration of the property behind the one with this number.
#[tactic(auto, unfolding(crate::specs::Generated::link))]
fn link(alloc: Global, number: u32) -> Result<String, AllocError>
    requires { number < 40 }
    ensures { IfOk result (λ text. string_bytes text ≡ link number) }
{
    let next = number + 1;
    format!(in alloc; "--s{next}: calc(var(--s{number}) + 1px); ")
}
