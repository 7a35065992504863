//! What relative units and percentages stand for.

ghost use Rattle.std.specs.Prelude.{◌≡◌, ◌<◌, pos};
ghost use Rattle.cv_spec_ratio.specs.Ratio.{ratio, mul};
ghost use Rattle.cv_calc.specs.Factor.{canonical as canonical_unit, factor, sizes_of, canonical_of};

use crate::unit::Unit;
use cv_frac::{Frac, FracErr};

/// What a percentage stands for: itself, a length that is not known yet, or a part of a length in px.
#[derive(Clone, Copy)]
pub enum Basis {
    Plain,
    Length,
    Of(Frac),
}

/// The lengths in px that `em` and `rem` stand for, the size of the viewport in px, and the basis of percentages.
#[derive(Clone, Copy)]
pub struct Context {
    pub em: Frac,
    pub rem: Frac,
    pub width: u32,
    pub height: u32,
    pub basis: Basis,
}

/// The unit to which a unit is converted.
fn canonical(unit: Unit) -> Unit
    ensures { result ≡ canonical_unit unit }
{
    match unit {
        Unit::Number => Unit::Number,
        Unit::Percent => Unit::Percent,
        Unit::Deg | Unit::Grad | Unit::Turn => Unit::Deg,
        Unit::S | Unit::Ms => Unit::S,
        Unit::Hz | Unit::Khz => Unit::Hz,
        Unit::Dppx | Unit::X | Unit::Dpi | Unit::Dpcm => Unit::Dppx,
        Unit::Fr => Unit::Fr,
        Unit::Px
        | Unit::Cm
        | Unit::Mm
        | Unit::Q
        | Unit::Inch
        | Unit::Pt
        | Unit::Pc
        | Unit::Em
        | Unit::Rem
        | Unit::Ex
        | Unit::Ch
        | Unit::Ic
        | Unit::Vw
        | Unit::Vh
        | Unit::Vmin
        | Unit::Vmax => Unit::Px,
    }
}

/// What one of a unit is in its canonical unit, as a fraction and a divisor of it.
#[tactic(auto, using(crate::proofs::Factors::parts), unfolding(cv_spec_ratio::specs::Ratio::one_ratio))]
fn factor_parts(unit: Unit, x: &Context) -> (Frac, u32)
    ensures value { mul result.0 (ratio (pos 1) result.1) ≡ factor (sizes_of x.now) unit }
    ensures divisor { 0 < result.1 }
{
    match unit {
        Unit::Cm => (Frac::whole(4800), 127),
        Unit::Mm => (Frac::whole(480), 127),
        Unit::Q => (Frac::whole(120), 127),
        Unit::Inch => (Frac::whole(96), 1),
        Unit::Pt => (Frac::whole(4), 3),
        Unit::Pc => (Frac::whole(16), 1),
        Unit::Em | Unit::Ic => (x.em, 1),
        Unit::Rem => (x.rem, 1),
        Unit::Ex | Unit::Ch => (x.em, 2),
        Unit::Vw => (Frac::whole(x.width), 100),
        Unit::Vh => (Frac::whole(x.height), 100),
        Unit::Vmin => (Frac::whole(x.width.min(x.height)), 100),
        Unit::Vmax => (Frac::whole(x.width.max(x.height)), 100),
        Unit::Grad => (Frac::whole(9), 10),
        Unit::Turn => (Frac::whole(360), 1),
        Unit::Ms => (Frac::whole(1), 1000),
        Unit::Khz => (Frac::whole(1000), 1),
        Unit::Dpi => (Frac::whole(1), 96),
        Unit::Dpcm => (Frac::whole(127), 4800),
        Unit::Number
        | Unit::Percent
        | Unit::Px
        | Unit::Deg
        | Unit::S
        | Unit::Hz
        | Unit::Dppx
        | Unit::X
        | Unit::Fr => (Frac::whole(1), 1),
    }
}

/// A number of a unit in its canonical unit.
pub fn to_canonical(v: Frac, unit: Unit, x: &Context) -> Result<(Frac, Unit), FracErr>
    ensures { result ≡ canonical_of x.now v unit }
{
    let (part, divisor) = factor_parts(unit, x);
    match v.times_over(part, divisor) {
        Ok(converted) => Ok((converted, canonical(unit))),
        Err(error) => Err(error),
    }
}
