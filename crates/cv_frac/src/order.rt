//! The order of fractions, by their cross products.

ghost use Rattle.std.specs.Prelude.{◌≡◌};
ghost use Rattle.cv_spec_ratio.specs.Order.{ratio_cmp};

use crate::frac::{Frac, product};
use std::cmp::Ordering;

impl Frac {
    /// Which of two fractions is the greater.
    fn compare(self, other: Frac) -> Ordering
        ensures { result ≡ ratio_cmp self other }
    {
        let left = product(self.top(), other.bottom());
        let right = product(other.top(), self.bottom());
        left.cmp(&right)
    }
}

impl PartialEq for Frac {
    ghost use Rattle.std.specs.Ordering.{eq_by_cmp};
    ghost use Rattle.std.specs.Cmp.{eq_by_cmp_equiv, partial_equiv_from_equiv};
    ghost use Rattle.cv_spec_ratio.specs.Order.{ratio_cmp};
    ghost use Rattle.cv_spec_ratio.proofs.Order.{ratio_cmp_total};

    ghost eq = { eq_by_cmp ratio_cmp };

    ghost laws = { partial_equiv_from_equiv (eq_by_cmp_equiv ratio_cmp_total) };

    fn eq(&self, other: &Frac) -> bool {
        self.compare(*other).is_eq()
    }
}

impl Eq for Frac {
    ghost use Rattle.std.specs.Cmp.{eq_by_cmp_equiv};
    ghost use Rattle.cv_spec_ratio.proofs.Order.{ratio_cmp_total};

    ghost laws = { eq_by_cmp_equiv ratio_cmp_total };
}

impl PartialOrd for Frac {
    ghost use Rattle.std.specs.Prelude.{Some, refl};
    ghost use Rattle.std.specs.Cmp.{partial_order_from_agreeing_total};
    ghost use Rattle.cv_spec_ratio.specs.Order.{ratio_cmp};
    ghost use Rattle.cv_spec_ratio.proofs.Order.{ratio_cmp_total};

    ghost partial_cmp = { λ r s. Some (ratio_cmp r s) };

    ghost laws = { partial_order_from_agreeing_total ratio_cmp ratio_cmp_total (λ r s. refl) (λ r s. refl) };

    fn partial_cmp(&self, other: &Frac) -> Option<Ordering> {
        Some(self.cmp(other))
    }
}

impl Ord for Frac {
    ghost use Rattle.std.specs.Prelude.{refl};
    ghost use Rattle.cv_spec_ratio.specs.Order.{ratio_cmp};
    ghost use Rattle.cv_spec_ratio.proofs.Order.{ratio_cmp_total};

    ghost cmp = { ratio_cmp };

    ghost total = { ratio_cmp_total };

    ghost matches_partial_cmp = { λ r s. refl };

    ghost matches_eq = { λ r s. refl };

    fn cmp(&self, other: &Frac) -> Ordering {
        self.compare(*other)
    }
}
