//! What is computed of a tree is single, and the names that a document shows are those of properties.

ghost use Rattle.std.specs.Prelude.{◌≡◌, ℕ, All, List, is_some, length, true};
ghost use Rattle.cv_valuation.specs.declared.computed.Computed.{Computed};
ghost use Rattle.cv_valuation.specs.declared.key.Key as keys;
ghost use Rattle.cv_doc.specs.Members.{is_name};
ghost use Rattle.cv_valuation.specs.Keys.{key_named};
ghost use Rattle.cv_tree.specs.Names.{named_keys};
ghost use Rattle.cv_tree.specs.Single.{HaveOneResult};
ghost use Rattle.cv_tree.specs.Tree.{AllStand, AreComputed, IsOutOfRange, IsTree, Tree};

use cv_calc::Unit;
use cv_element::elements_are_lawful;
use cv_frac::Frac;
use cv_props::{Key, outcomes_are_by_key};
use cv_spec_element::has_one_valuation;
use cv_spec_text::Token;
use cv_value::Typed;

/// What is computed of a tree is its only valuation: no other values solve the equations on each element, given its parent's, and
/// the causes for which properties are invalid are single too. Where a property is out of range, the least element on which one is,
/// is single.
pub fn trees_have_one_result()
    ensures computed { (tree : Tree) (limit : ℕ) → IsTree tree → (all : List Computed) → AreComputed tree limit (length tree.parents) all → AllStand tree.registered all → HaveOneResult tree limit }
    ensures least { (tree : Tree) (limit : ℕ) → IsTree tree → (one other : ℕ) (property more : keys.Key) → IsOutOfRange tree limit one property → IsOutOfRange tree limit other more → other ≡ one }
{
    elements_are_lawful();
    has_one_valuation::<Key, Token, Typed, Unit, Frac>();
    outcomes_are_by_key();
}

/// The names that a document may show are those of keys, and so no name to show is dropped.
pub fn shown_names_are_keys()
    ensures named { (name : List ℕ) → is_name name ≡ is_some (key_named name) }
    ensures all { (names : List (List ℕ)) → All (λ name. is_name name ≡ true) names → length (named_keys names) ≡ length names }
{}
