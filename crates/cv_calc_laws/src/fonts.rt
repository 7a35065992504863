//! Calculations without units that are relative to a font.

ghost use Rattle.cv_calc_laws.specs.Fonts.{FontUnitsAreTold, UnitsAreRead, SimplifiesAlike, TextsAreFree};

/// Whether a list holds a font unit is told by a test of each token: `2em` has one, `2px` none, and `2rem` has one on the root alone
/// (CSS Values and Units 4, "Font-relative Lengths").
pub fn font_units_are_told()
    ensures { FontUnitsAreTold }
{}

/// What is read of a list without font units has none.
pub fn units_are_read()
    ensures { UnitsAreRead }
{}

/// Where two contexts differ in what font units stand for alone, a calculation without font units simplifies to the same, and is in range
/// in both or in none.
pub fn contexts_differ_in_fonts()
    ensures { SimplifiesAlike }
{}

/// The text of a calculation in canonical units, as a simplified one is, holds no font unit, `rem` included. No text of a calculation
/// holds an ident.
pub fn texts_are_free()
    ensures { TextsAreFree }
{}
