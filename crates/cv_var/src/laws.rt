//! What the pieces of a list are.

ghost use Rattle.std.specs.Prelude.{List};
ghost use Rattle.cv_spec_text.specs.declared.token.Token.{Token};
ghost use Rattle.cv_var.specs.Checked.{IsChecked};
ghost use Rattle.cv_var.specs.Mentions.{ReferencesAreFound};
ghost use Rattle.cv_var.specs.References.{PiecesAreRead, HoldNoVar, pieces_of};

use cv_component::blocks_are_balanced;

/// The pieces of a list are read from its front, and those of a list without `var()` are its tokens.
pub fn pieces_are_read()
    ensures { PiecesAreRead }
{}

/// No token of the pieces of a checked list is a `var(`, in a fallback neither: each `var()` is a reference.
pub fn checked_lists_hold_no_var()
    ensures { (tokens : List Token) → IsChecked tokens → HoldNoVar (pieces_of tokens) }
{
    blocks_are_balanced();
}

/// A checked list refers to a name exactly where the name stands behind a `var(` in it, at any depth (Cascading Variables 1,
/// "Using Cascading Variables: the var() notation").
pub fn references_are_found()
    ensures { (tokens : List Token) → IsChecked tokens → ReferencesAreFound tokens }
{
    blocks_are_balanced();
}
