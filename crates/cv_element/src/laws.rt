//! What holds of every element.

ghost use Rattle.std.specs.Prelude.{ℕ, Option};
ghost use Rattle.cv_valuation.specs.Valuations.{Values};
ghost use Rattle.cv_props.specs.Registered.{Registered, AreEntries};
ghost use Rattle.cv_props.specs.Winners.{Declarations};
ghost use Rattle.cv_spec_element.specs.Premises.{IsLawful};
ghost use Rattle.cv_spec_valuation.specs.declared.place.Place.{Place};
ghost use Rattle.cv_spec_valuation.specs.Computed.{ParentStandsUnder};
ghost use Rattle.cv_spec_valuation.specs.Element.{the_element};

use cv_calc_laws::font_units_are_told;
use cv_property_laws::properties_may_be_kept;
use cv_props::properties_are_found;
use cv_value_laws::{items_are_free, matches_alike, matches_ignore_contexts, texts_are_split};

/// Each element meets the premises of the equations, where its parent's values stand under the registry.
pub fn elements_are_lawful()
    ensures { (registered : Registered) (decls : Declarations) (parent : Option Values) (place : Place) (most : ℕ) → AreEntries registered → ParentStandsUnder registered parent → IsLawful (the_element registered decls parent place most) }
{
    properties_are_found();
    properties_may_be_kept();
    items_are_free();
    matches_alike();
    matches_ignore_contexts();
    texts_are_split();
    font_units_are_told();
}
