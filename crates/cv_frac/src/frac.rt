//! The fraction.

ghost use Rattle.std.specs.Prelude.{◌≡◌, ◌<◌, ◌^◌, ◌*◌, ◌*ℤ◌, pos, unsigned_abs, Ok};
ghost use Rattle.cv_spec_ratio.specs.Ratio.{ratio, signed, add, mul, neg, reciprocal};
ghost use Rattle.cv_frac.specs.Bounded.{bounded, of_numbers, difference_of, quotient_of};

use crate::divisor::gcd;
use crate::error::FracErr;
use std::marker::Model;

/// The first number that is out of bounds.
pub(crate) const LIMIT: u128 = 0x8000_0000_0000_0000;

/// A fraction in lowest terms.
#[derive(Clone, Copy)]
pub struct Frac {
    top: i64,
    bottom: u64,
}

impl Model for Frac {
    ghost use Rattle.cv_spec_ratio.specs.Ratio.{Ratio};
    ghost use Rattle.cv_spec_ratio.specs.Code.{ratio_code};

    ghost Value = { Ratio };

    ghost coded = { ratio_code };

    ghost use Rattle.cv_frac.specs.Frac.{frac_view, IsFrac, frac_inverse, frac_inverse_ok};

    ghost view = { frac_view };

    ghost invariant = { IsFrac };

    ghost inverse = { frac_inverse };

    ghost inverse_ok = { frac_inverse_ok };
}

/// A size with a sign.
fn with_sign(negative: bool, size: u64) -> i64
    requires { size < 2 ^ 63 }
    ensures { result ≡ signed negative size }
{
    if negative {
        -(size as i64)
    } else {
        size as i64
    }
}

/// The fraction of two sizes, the second of which is not 0, with a sign.
pub(crate) fn lowest(negative: bool, top: u128, bottom: u128) -> Result<Frac, FracErr>
    requires { 0 < bottom }
    ensures { result ≡ bounded (ratio (signed negative top) bottom) }
{
    let divisor = gcd(top, bottom);
    let low_top = top / divisor;
    let low_bottom = bottom / divisor;
    if low_top < LIMIT && low_bottom < LIMIT {
        Ok(Frac {
            top: with_sign(negative, low_top as u64),
            bottom: low_bottom as u64,
        })
    } else {
        Err(FracErr::Range)
    }
}

/// The fraction of a number and a size that is not 0.
fn over(top: i128, bottom: u128) -> Result<Frac, FracErr>
    requires { 0 < bottom }
    ensures { result ≡ bounded (ratio top bottom) }
{
    lowest(top < 0, top.unsigned_abs(), bottom)
}

/// The product of two numbers of a fraction, which fits twice.
pub(crate) fn product(a: i64, b: i64) -> i128
    requires a { unsigned_abs a < 2 ^ 63 }
    requires b { unsigned_abs b < 2 ^ 63 }
    ensures value { result ≡ a *ℤ b }
    ensures small { unsigned_abs result < 2 ^ 126 }
{
    i128::from(a) * i128::from(b)
}

/// The fraction of two sizes and a further divisor, neither of the last two 0, with a sign. Common divisors are cancelled before
/// the last two are multiplied.
pub(crate) fn part(negative: bool, top: u128, bottom: u128, divisor: u128) -> Result<Frac, FracErr>
    requires bottom { 0 < bottom }
    requires divisor { 0 < divisor }
    requires small { divisor < 2 ^ 64 }
    ensures { result ≡ bounded (ratio (signed negative top) (bottom * divisor)) }
{
    let shared = gcd(top, divisor);
    let rest = divisor / shared;
    let size = top / shared;
    let common = gcd(size, bottom);
    let low_bottom = bottom / common;
    if low_bottom < LIMIT {
        lowest(negative, size / common, low_bottom * rest)
    } else {
        Err(FracErr::Range)
    }
}

impl Frac {
    /// The fraction of two numbers.
    pub fn of(p: i128, q: i128) -> Result<Frac, FracErr>
        ensures { result ≡ of_numbers p q }
    {
        if q == 0 {
            return Err(FracErr::ZeroDivisor);
        }
        lowest((p < 0) != (q < 0), p.unsigned_abs(), q.unsigned_abs())
    }

    /// The number over the bottom.
    pub fn top(self) -> i64
        ensures value { result ≡ self.top }
        ensures small { unsigned_abs self.top < 2 ^ 63 }
    {
        self.top
    }

    /// The number under the top, which is positive. The two numbers give the fraction back.
    pub fn bottom(self) -> i64
        ensures value { result ≡ pos self.bottom }
        ensures small { self.bottom < 2 ^ 63 }
        ensures back { of_numbers self.top (pos self.bottom) ≡ Ok self }
    {
        self.bottom as i64
    }

    /// The sum.
    pub fn add(self, other: Frac) -> Result<Frac, FracErr>
        ensures { result ≡ bounded (add self other) }
    {
        let left = product(self.top(), other.bottom());
        let right = product(other.top(), self.bottom());
        let bottom = product(self.bottom(), other.bottom());
        over(left + right, bottom.unsigned_abs())
    }

    /// The product.
    pub fn mul(self, other: Frac) -> Result<Frac, FracErr>
        ensures { result ≡ bounded (mul self other) }
    {
        let top = product(self.top(), other.top());
        let bottom = product(self.bottom(), other.bottom());
        over(top, bottom.unsigned_abs())
    }

    /// The negative.
    pub fn neg(self) -> Frac
        ensures { result ≡ neg self }
    {
        Frac {
            top: -self.top,
            bottom: self.bottom,
        }
    }

    /// The difference.
    pub fn sub(self, other: Frac) -> Result<Frac, FracErr>
        ensures { result ≡ bounded (difference_of self other) }
    {
        self.add(other.neg())
    }

    /// 1 over the fraction, where it is not 0.
    pub fn reciprocal(self) -> Option<Frac>
        ensures { result ≡ reciprocal self }
    {
        let bottom = self.top.unsigned_abs();
        if bottom == 0 {
            None
        } else {
            Some(Frac {
                top: with_sign(self.top < 0, self.bottom),
                bottom,
            })
        }
    }

    /// The quotient.
    pub fn div(self, other: Frac) -> Result<Frac, FracErr>
        ensures { result ≡ quotient_of self other }
    {
        match other.reciprocal() {
            None => Err(FracErr::ZeroDivisor),
            Some(inverse) => self.mul(inverse),
        }
    }

    /// A whole number.
    pub fn whole(n: u32) -> Frac
        ensures { result ≡ ratio (pos n) 1 }
    {
        Frac {
            top: i64::from(n),
            bottom: 1,
        }
    }

    /// The product with a fraction, over a divisor that is not 0. Only the result has to be in bounds.
    pub fn times_over(self, other: Frac, divisor: u32) -> Result<Frac, FracErr>
        requires { 0 < divisor }
        ensures { result ≡ bounded (mul self (mul other (ratio (pos 1) divisor))) }
    {
        let top = product(self.top(), other.top());
        let bottom = product(self.bottom(), other.bottom());
        part(
            top < 0,
            top.unsigned_abs(),
            bottom.unsigned_abs(),
            u128::from(divisor),
        )
    }
}
