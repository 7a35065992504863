//! In a document that is computed each declaration has an object.
#![tactic(auto)]

ghost use Rattle.std.specs.Prelude.{ℕ, map};
ghost use Rattle.cv_doc.specs.Reading.{Shape};
ghost use Rattle.cv_tree.specs.Single.{HaveOneResult};
ghost use Rattle.cv_tree.specs.Styles.{declarations_of};
ghost use Rattle.cv_tree.specs.Tree.{tree_of};
ghost use Rattle.cv_reify_report.specs.Report.{AreInRange};

use cv_props::{properties_are_found, winners_are_by_key};
use cv_reify_laws::ranges_are_out;
use cv_var::pieces_are_read;

/// Where the tree of a document has a result, no declaration of its elements is out of range as it stands: so each that is shown has the
/// line of its object.
pub fn declarations_have_objects()
    ensures { (document : Shape) (limit : ℕ) → HaveOneResult (tree_of document) limit → AreInRange (map declarations_of document.elements) }
{
    ranges_are_out();
    properties_are_found();
    winners_are_by_key();
    pieces_are_read();
}
