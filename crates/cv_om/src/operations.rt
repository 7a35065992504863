//! The arithmetic of numeric values.

ghost use Rattle.std.specs.Prelude.{◌≡◌, Ok, IfOk, IfErr};
ghost use Rattle.cv_om.specs.Refusal.{IsRefusal};
ghost use Rattle.cv_om.specs.Arithmetic.{sum_of, difference_of, product_of, quotient_of, least_of, greatest_of, negated, inverse_of};

use crate::arithmetic::joined;
use crate::error::OmErr;
use crate::joining::Joining;
use crate::numeric::Numeric;
use crate::turned::{inverse, negative};
use std::alloc::Global;

impl Numeric {
    /// The sum (CSS Typed OM 1, "Common Numeric Operations, and the CSSNumericValue Superclass", as all operations here). `BadType` where the
    /// types don't add, and `Range` where a sum of numbers of one unit is out of bounds.
    pub fn add(&self, alloc: Global, other: &Numeric) -> Result<Numeric, OmErr>
        ensures ok { IfOk result (λ n. sum_of self.now other.now ≡ Ok n) }
        ensures err { IfErr result (IsRefusal (sum_of self.now other.now)) }
    {
        match joined(alloc, Joining::Sum, self.tree(), other.tree()) {
            Ok(tree) => Ok(Numeric::typed(tree)),
            Err(error) => Err(error),
        }
    }

    /// The sum with the negative of the other. It is refused as `add` is.
    pub fn sub(&self, alloc: Global, other: &Numeric) -> Result<Numeric, OmErr>
        ensures ok { IfOk result (λ n. difference_of self.now other.now ≡ Ok n) }
        ensures err { IfErr result (IsRefusal (difference_of self.now other.now)) }
    {
        let negative = negative(alloc, other.tree())?;
        match joined(alloc, Joining::Sum, self.tree(), &negative) {
            Ok(tree) => Ok(Numeric::typed(tree)),
            Err(error) => Err(error),
        }
    }

    /// The product. `BadType` where the types don't multiply, and `Range` where a product of numbers is out of bounds.
    pub fn mul(&self, alloc: Global, other: &Numeric) -> Result<Numeric, OmErr>
        ensures ok { IfOk result (λ n. product_of self.now other.now ≡ Ok n) }
        ensures err { IfErr result (IsRefusal (product_of self.now other.now)) }
    {
        match joined(alloc, Joining::Product, self.tree(), other.tree()) {
            Ok(tree) => Ok(Numeric::typed(tree)),
            Err(error) => Err(error),
        }
    }

    /// The product with the reciprocal of the other. `RangeError` where that is the number 0, else it is refused as `mul` is.
    pub fn div(&self, alloc: Global, other: &Numeric) -> Result<Numeric, OmErr>
        ensures ok { IfOk result (λ n. quotient_of self.now other.now ≡ Ok n) }
        ensures err { IfErr result (IsRefusal (quotient_of self.now other.now)) }
    {
        let inverse = match inverse(alloc, other.tree()) {
            Ok(inverse) => inverse,
            Err(error) => return Err(error),
        };
        match joined(alloc, Joining::Product, self.tree(), &inverse) {
            Ok(tree) => Ok(Numeric::typed(tree)),
            Err(error) => Err(error),
        }
    }

    /// The least of both. `BadType` where the types don't add.
    pub fn min(&self, alloc: Global, other: &Numeric) -> Result<Numeric, OmErr>
        ensures ok { IfOk result (λ n. least_of self.now other.now ≡ Ok n) }
        ensures err { IfErr result (IsRefusal (least_of self.now other.now)) }
    {
        match joined(alloc, Joining::Least, self.tree(), other.tree()) {
            Ok(tree) => Ok(Numeric::typed(tree)),
            Err(error) => Err(error),
        }
    }

    /// The greatest of both. `BadType` where the types don't add.
    pub fn max(&self, alloc: Global, other: &Numeric) -> Result<Numeric, OmErr>
        ensures ok { IfOk result (λ n. greatest_of self.now other.now ≡ Ok n) }
        ensures err { IfErr result (IsRefusal (greatest_of self.now other.now)) }
    {
        match joined(alloc, Joining::Greatest, self.tree(), other.tree()) {
            Ok(tree) => Ok(Numeric::typed(tree)),
            Err(error) => Err(error),
        }
    }

    /// The negative. The one refusal is `Memory`.
    pub fn negate(&self, alloc: Global) -> Result<Numeric, OmErr>
        ensures ok { IfOk result (λ n. n ≡ negated self.now) }
        ensures err { IfErr result (λ e. e ≡ OmErr.Memory) }
    {
        let tree = negative(alloc, self.tree())?;
        Ok(Numeric::typed(tree))
    }

    /// The reciprocal. `RangeError` where this is the number 0.
    pub fn invert(&self, alloc: Global) -> Result<Numeric, OmErr>
        ensures ok { IfOk result (λ n. inverse_of self.now ≡ Ok n) }
        ensures err { IfErr result (IsRefusal (inverse_of self.now)) }
    {
        match inverse(alloc, self.tree()) {
            Ok(tree) => Ok(Numeric::typed(tree)),
            Err(error) => Err(error),
        }
    }
}
