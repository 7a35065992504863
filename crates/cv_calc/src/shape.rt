//! The type of a calculation, and whether it is linear, in one pass over its tree.

ghost use Rattle.std.specs.Prelude.{◌≡◌, ◌&&◌, map, fold};
ghost use Rattle.cv_calc.specs.Types as types;
ghost use Rattle.cv_calc.specs.Linear as linear;

use crate::calc::Calc;
use crate::product::Factors;
use crate::types::{added_next, is_plain, negated_next, unit_type};
use crate::unit::{NumType, Unit};

/// What one pass finds of a calculation.
#[derive(Clone, Copy)]
pub(crate) struct Shape {
    /// Its type.
    pub(crate) kind: Option<NumType>,
    /// Whether its products and divisors are as they are in a linear calculation.
    pub(crate) fits: bool,
    /// Whether it holds numbers alone.
    pub(crate) numbers: bool,
}

/// What is found where there is no child.
const NO_CHILD: Shape = Shape {
    kind: None,
    fits: true,
    numbers: true,
};

fn unit_shape(unit: Unit) -> Shape
    ensures { result ≡ linear.unit_shape unit }
{
    Shape {
        kind: Some(unit_type(unit)),
        fits: true,
        numbers: unit == Unit::Number,
    }
}

/// Two children that are added, or of which one is chosen.
fn added_shape(s: Shape, t: Shape) -> Shape
    ensures { result ≡ linear.added_shape s t }
{
    Shape {
        kind: added_next(s.kind, t.kind),
        fits: s.fits && t.fits,
        numbers: s.numbers && t.numbers,
    }
}

/// A divisor.
fn inverted_shape(s: Shape) -> Shape
    ensures { result ≡ linear.inverted_shape s }
{
    Shape {
        kind: negated_next(s.kind),
        fits: s.fits && is_plain(s.kind) && s.numbers,
        numbers: s.numbers,
    }
}

/// What is found of a calculation.
#[cycle(shape)]
#[tactic(auto, using(crate::proofs::Shapes::shape_equations))]
fn shape_of(c: &Calc) -> Shape
    ensures { result ≡ linear.shape c.now }
{
    match c {
        Calc::Num(_, unit) => unit_shape(*unit),
        Calc::Sum(children) => sum_shape(children.as_slice()),
        Calc::Product(children) => product_shape(children.as_slice()),
        Calc::Negate(child) => shape_of(child.get()),
        Calc::Invert(child) => inverted_shape(shape_of(child.get())),
        Calc::Min(children) => sum_shape(children.as_slice()),
        Calc::Max(children) => sum_shape(children.as_slice()),
        Calc::Clamp(low, middle, high) => added_shape(
            added_shape(shape_of(low.get()), shape_of(middle.get())),
            shape_of(high.get()),
        ),
    }
}

/// The children so far, and one more.
fn further_shape(found: Option<Shape>, s: Shape) -> Option<Shape>
    ensures { result ≡ linear.further_shape found s }
{
    match found {
        None => Some(s),
        Some(first) => Some(added_shape(first, s)),
    }
}

/// What is found of children that are added, or of which one is chosen.
#[cycle(shape)]
fn sum_shape(children: &[Calc]) -> Shape
    ensures { result ≡ linear.sum_shape (map linear.shape children.now) }
{
    let mut found = None;
    for child in children {
        found = further_shape(found, shape_of(child));
    }
    match found {
        None => NO_CHILD,
        Some(sum) => sum,
    }
}

/// What is found of children that are multiplied.
#[cycle(shape)]
fn product_shape(children: &[Calc]) -> Shape
    ensures { result ≡ linear.product_shape (map linear.shape children.now) }
{
    let mut factors = Factors::none();
    for child in children {
        factors = factors.with_child(shape_of(child));
    }
    if children.is_empty() {
        NO_CHILD
    } else {
        factors.shape()
    }
}

/// The type of a calculation, or `None` where the types of its parts don't fit (CSS Typed OM 1, "Numeric Value Typing").
#[tactic(auto, using(crate::proofs::FoundTypes::kind_is_type))]
pub fn type_of(c: &Calc) -> Option<NumType>
    ensures { result ≡ types.type_of c.now }
{
    shape_of(c).kind
}

/// Whether a calculation has a type, multiplies by plain numbers alone, and divides by plain numbers alone that are made of numbers.
#[tactic(auto, unfolding(crate::specs::Linear::is_linear))]
pub fn is_linear(c: &Calc) -> bool
    ensures { result ≡ linear.is_linear c.now }
{
    let found = shape_of(c);
    found.kind.is_some() && found.fits
}
