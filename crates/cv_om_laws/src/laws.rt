//! The laws.

ghost use Rattle.cv_om_laws.specs.Powers.{ConversionsAreKept, SumValuesAreKept, SumsAreKept};
ghost use Rattle.cv_om_laws.specs.Tables.{TablesAreWhole};
ghost use Rattle.cv_om_laws.specs.Valued.{ValuesAreKept};

/// Whatever units mean, the answers of the operations have as value the sum, the difference, the product, the quotient, the negative and the
/// reciprocal of the values, and, where each unit means something positive, the least and the greatest of them (CSS Typed OM 1, "Common
/// Numeric Operations, and the CSSNumericValue Superclass").
pub fn values_are_kept()
    ensures { ValuesAreKept }
{}

/// The tables of units in which sum values are ordered hold each unit once, one in the order of the variants, the other in the byte order of
/// their names.
pub fn tables_are_whole()
    ensures { TablesAreWhole }
{}

/// Where each unit means something positive, the sum of the items of a sum value, each times its units, is the value of the calculation.
pub fn sum_values_are_kept()
    ensures { SumValuesAreKept }
{}

/// There a conversion to a unit keeps the value.
pub fn conversions_are_kept()
    ensures { ConversionsAreKept }
{}

/// And so does a conversion to a sum of units, with units given and with none: `to_sum` of `1in` keeps it as the sum of `1in` alone, and
/// with `px` given as that of `96px`.
pub fn sums_are_kept()
    ensures { SumsAreKept }
{}
