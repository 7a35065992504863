//! Each document on which no property is out of range has exactly one valuation.

ghost use Rattle.std.specs.Prelude.{ℕ, All, List};
ghost use Rattle.cv_spec_text.specs.Splits.{IsSpelt};
ghost use Rattle.cv_spec_text.specs.declared.token.Token.{Token};
ghost use Rattle.cv_component.specs.Rules.{rules};
ghost use Rattle.cv_calc.specs.declared.context.Context.{Context};
ghost use Rattle.cv_doc.specs.Kept.{IsSound};
ghost use Rattle.cv_doc.specs.Reading.{Shape};
ghost use Rattle.cv_props.specs.Registered.{AreEntries};
ghost use Rattle.cv_props.specs.Sheets.{registry_of};
ghost use Rattle.cv_element_laws.specs.Declared.{AreDeclared};
ghost use Rattle.cv_tree.specs.Single.{HaveOneResult};
ghost use Rattle.cv_tree.specs.Tree.{AreInRange, IsTree, Tree, tree_of};
ghost use Rattle.cv_tree_laws.specs.Texts.{AreTexts};

use cv_element_laws::{elements_have_one_result, styles_are_declared};
use cv_syntax::syntaxes_have_no_keyword;
use cv_tree::trees_have_one_result;
use cv_value_laws::values_may_be_kept;

/// A tree has values that solve the equations on each element, given its parent's, and no others, where no property is out of
/// range on any element and each declaration is one that may stand.
pub fn trees_in_range_have_one_result()
    ensures { (tree : Tree) (limit : ℕ) → IsTree tree → All AreDeclared tree.declarations → AreInRange tree limit → HaveOneResult tree limit }
{
    elements_have_one_result();
    trees_have_one_result();
}

/// The rules of a sheet register entries that may stand, where the sheet's tokens are those of texts.
pub fn sheets_register_entries()
    ensures { (x : Context) (sheet : List Token) → All IsSpelt sheet → AreEntries (registry_of x (rules sheet)) }
{
    syntaxes_have_no_keyword();
    values_may_be_kept();
}

/// A document of texts has values that solve the equations on each element, given its parent's, and no others, where no property is out
/// of range on any element.
pub fn documents_in_range_have_one_result()
    ensures { (document : Shape) (limit : ℕ) → IsSound document → AreTexts document → AreInRange (tree_of document) limit → HaveOneResult (tree_of document) limit }
{
    trees_in_range_have_one_result();
    sheets_register_entries();
    styles_are_declared();
}
