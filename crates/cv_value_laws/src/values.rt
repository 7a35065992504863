//! What texts of matched values don't hold.

ghost use Rattle.cv_value_laws.specs.Keeping.{ValuesMayBeKept};
ghost use Rattle.cv_value_laws.specs.Values.{ValuesAreFree, ItemsAreFree};

use crate::texts::texts_are_spelt;

/// The text of a value that matches a syntax holds no font unit, `rem` included, since its lengths are absolute. Where no literal of the
/// syntax is a CSS-wide keyword, it isn't such a keyword alone (CSS Values and Units 4, "CSS-wide keywords").
pub fn values_are_free()
    ensures { ValuesAreFree }
{}

/// That is so by the items alone, whatever gave the value: where what is a calculation is in canonical units, and no ident is a CSS-wide
/// keyword. The items of a matched value are such items.
pub fn items_are_free()
    ensures { ItemsAreFree }
{}

/// What may be kept of a typed value is said by its items alone, with no syntax named: calculations in canonical units, no ident that is a
/// CSS-wide keyword, and strings and idents of texts. A match of a list of tokens of texts is such a value, where no literal of the syntax
/// is a CSS-wide keyword; and the text of such a value holds no font unit, is no CSS-wide keyword, and is read again as it was printed.
pub fn values_may_be_kept()
    ensures { ValuesMayBeKept }
{
    items_are_free();
    texts_are_spelt();
}
