//! Of each element that is in range something is computed, and nothing else is.

ghost use Rattle.std.specs.Prelude.{ℕ, All, List, Option};
ghost use Rattle.cv_spec_text.specs.Splits.{IsSpelt};
ghost use Rattle.cv_spec_text.specs.declared.token.Token.{Token};
ghost use Rattle.cv_component.specs.Items.{items};
ghost use Rattle.cv_valuation.specs.declared.computed.Computed.{Computed};
ghost use Rattle.cv_valuation.specs.Valuations.{Values};
ghost use Rattle.cv_props.specs.Registered.{Registered, AreEntries};
ghost use Rattle.cv_props.specs.Kept.{kept_declarations};
ghost use Rattle.cv_props.specs.Winners.{Declarations, winners};
ghost use Rattle.cv_spec_valuation.specs.declared.place.Place.{Place};
ghost use Rattle.cv_spec_valuation.specs.Computed.{IsComputed, StandUnder, ParentStandsUnder};
ghost use Rattle.cv_spec_valuation.specs.Single.{HasOneResult};
ghost use Rattle.cv_element_laws.specs.Declared.{AreDeclared};

use cv_calc::Unit;
use cv_element::elements_are_lawful;
use cv_frac::Frac;
use cv_property_laws::properties_may_be_kept;
use cv_props::{Key, outcomes_are_by_key, properties_are_found, winners_are_by_key};
use cv_spec_element::{has_one_cause, has_one_valuation};
use cv_spec_text::Token;
use cv_value::Typed;
use cv_value_laws::{values_are_taken, values_may_be_kept};
use cv_var::checked_lists_hold_no_var;

/// Something is computed of each element that is in range, where its parent's values stand under the registry, and nothing else is. Where
/// its declarations are such as may be declared, its values stand under the registry too, so that the same may be said of its children.
pub fn elements_have_one_result()
    ensures one_result { (registered : Registered) (decls : Declarations) (parent : Option Values) (place : Place) (most : ℕ) → AreEntries registered → ParentStandsUnder registered parent → HasOneResult registered decls parent place most }
    ensures stands { (registered : Registered) (decls : Declarations) (parent : Option Values) (place : Place) (most : ℕ) → AreEntries registered → AreDeclared decls → ParentStandsUnder registered parent → (computed : Computed) → IsComputed registered decls parent place most computed → StandUnder registered computed.values }
{
    elements_are_lawful();
    has_one_valuation::<Key, Token, Typed, Unit, Frac>();
    has_one_cause::<Key, Token, Typed, Unit, Frac>();
    outcomes_are_by_key();
    properties_are_found();
    properties_may_be_kept();
    values_are_taken();
    values_may_be_kept();
    checked_lists_hold_no_var();
}

/// The winning declarations of a style are such as may be declared, where the style's tokens are those of a text.
pub fn styles_are_declared()
    ensures { (style : List Token) → All IsSpelt style → AreDeclared (winners (kept_declarations (items style))) }
{
    properties_are_found();
    winners_are_by_key();
}
