//! What is found in a list, as places in it.

ghost use Rattle.std.specs.Prelude.{◌≡◌, ◌≤◌, ◌-◌, ◌^◌, length, drop};
ghost use Rattle.cv_var.specs.Places.{IsWithin, moved, stretch};
ghost use Rattle.cv_component.specs.TopLevel.{trim_front, trim_end};

use cv_component::{trim_end, trim_front};
use cv_spec_text::Token;

/// The tokens from one place up to another.
#[derive(Clone, Copy, Debug)]
pub struct Extent {
    pub start: usize,
    pub end: usize,
}

/// A reference: the place of its name, and the extent of its fallback, if it has one.
#[derive(Clone, Copy, Debug)]
pub struct Found {
    pub name: usize,
    pub fallback: Option<Extent>,
}

/// The place of a token, or that of the name of a reference, with the number of its fallback's parts, which come next.
#[derive(Clone, Copy, Debug)]
pub enum Place {
    Token(usize),
    Reference {
        name: usize,
        fallback: Option<usize>,
    },
}

/// The same tokens in a list that has so many more in front.
pub fn moved(fallback: Option<Extent>, by: usize) -> Option<Extent>
    requires { IsWithin (2 ^ 64 - 1 - by) fallback }
    ensures { result ≡ moved by fallback }
{
    match fallback {
        None => None,
        Some(extent) => Some(Extent {
            start: extent.start + by,
            end: extent.end + by,
        }),
    }
}

/// The tokens from a place on, without the whitespace at their ends.
pub fn trimmed(tokens: &[Token], from: usize) -> Extent
    requires { from ≤ length tokens.now }
    ensures tokens { stretch tokens.now result.start result.end ≡ trim_end (trim_front (drop from tokens.now)) }
    ensures ordered { result.start ≤ result.end }
    ensures within { result.end ≤ length tokens.now }
{
    let front = trim_front(&tokens[from..]);
    let start = tokens.len() - front.len();
    let end = start + trim_end(front).len();
    Extent { start, end }
}
