//! What is found of a product in one pass over its children.

ghost use Rattle.std.specs.Prelude.{◌≡◌, Some};
ghost use Rattle.cv_calc.specs.Types as types;
ghost use Rattle.cv_calc.specs.Products as products;

use crate::power::NO_POWERS;
use crate::shape::Shape;
use crate::types::{is_plain, multiplied_next, shared_next};
use crate::unit::{Base, NumType};

/// The type of a product without a hint, and with each base as the hint of all its children.
#[derive(Clone, Copy)]
struct Hinted {
    plain: Option<NumType>,
    length: Option<NumType>,
    angle: Option<NumType>,
    time: Option<NumType>,
    frequency: Option<NumType>,
    resolution: Option<NumType>,
    flex: Option<NumType>,
}

/// What is found of the children of a product so far.
#[derive(Clone, Copy)]
pub(crate) struct Factors {
    kinds: Hinted,
    /// The hint that they have, or `None` where two have different ones or one has no type.
    hint: Option<Option<Base>>,
    /// Whether they are as they are in a linear product.
    fits: bool,
    /// Whether they hold numbers alone.
    numbers: bool,
    /// Whether one of them isn't a plain number.
    measured: bool,
}

/// The type of no factor, with a hint.
fn no_powers(base: Base) -> Option<NumType>
    ensures { result ≡ Some (types.no_powers (Some base)) }
{
    Some(NumType {
        hint: Some(base),
        ..NO_POWERS
    })
}

fn no_factor() -> Hinted
    ensures { result ≡ products.no_factor }
{
    Hinted {
        plain: Some(NO_POWERS),
        length: no_powers(Base::Length),
        angle: no_powers(Base::Angle),
        time: no_powers(Base::Time),
        frequency: no_powers(Base::Frequency),
        resolution: no_powers(Base::Resolution),
        flex: no_powers(Base::Flex),
    }
}

fn with_factor(p: Hinted, t: Option<NumType>) -> Hinted
    ensures { result ≡ products.with_factor p t }
{
    Hinted {
        plain: multiplied_next(None, p.plain, t),
        length: multiplied_next(Some(Base::Length), p.length, t),
        angle: multiplied_next(Some(Base::Angle), p.angle, t),
        time: multiplied_next(Some(Base::Time), p.time, t),
        frequency: multiplied_next(Some(Base::Frequency), p.frequency, t),
        resolution: multiplied_next(Some(Base::Resolution), p.resolution, t),
        flex: multiplied_next(Some(Base::Flex), p.flex, t),
    }
}

fn chosen(p: Hinted, hint: Option<Option<Base>>) -> Option<NumType>
    ensures { result ≡ products.chosen p hint }
{
    match hint? {
        None => p.plain,
        Some(Base::Length) => p.length,
        Some(Base::Angle) => p.angle,
        Some(Base::Time) => p.time,
        Some(Base::Frequency) => p.frequency,
        Some(Base::Resolution) => p.resolution,
        Some(Base::Flex) => p.flex,
    }
}

impl Factors {
    /// Of no child.
    pub(crate) fn none() -> Factors
        ensures { result ≡ products.no_factors }
    {
        Factors {
            kinds: no_factor(),
            hint: Some(None),
            fits: true,
            numbers: true,
            measured: false,
        }
    }

    /// Of one child more.
    pub(crate) fn with_child(self, s: Shape) -> Factors
        ensures { result ≡ products.with_child self s }
    {
        let is_measured = !is_plain(s.kind);
        Factors {
            kinds: with_factor(self.kinds, s.kind),
            hint: shared_next(self.hint, s.kind),
            fits: self.fits && s.fits && !(self.measured && is_measured),
            numbers: self.numbers && s.numbers,
            measured: self.measured || is_measured,
        }
    }

    /// What is found of the product.
    pub(crate) fn shape(self) -> Shape
        ensures { result ≡ products.factors_shape self }
    {
        Shape {
            kind: chosen(self.kinds, self.hint),
            fits: self.fits,
            numbers: self.numbers,
        }
    }
}
