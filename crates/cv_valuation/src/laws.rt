//! What keys and valuations keep.

ghost use Rattle.cv_valuation.specs.TableLaws.{PropertiesAreFound};
ghost use Rattle.cv_valuation.specs.ValuationLaws.{OutcomesAreByKey};

use cv_property::table_is_found;

/// Each property has a number of its own and a name of its own, and is found by them.
pub fn properties_are_found()
    ensures { PropertiesAreFound }
{
    table_is_found();
}

/// The outcome of one key changes, and values with the same outcomes are the same.
pub fn outcomes_are_by_key()
    ensures { OutcomesAreByKey }
{}
