//! Calculations of the type of a unit.

ghost use Rattle.cv_calc_laws.specs.OfType.{UnitsAreOfType, ContextsAreIgnored};

/// A linear calculation that has the type of a unit holds units of this type and plain numbers alone: one of angles, as `calc(2 * 1turn)`,
/// no length (CSS Typed OM 1, "Numeric Value Typing").
pub fn units_are_of_type()
    ensures { UnitsAreOfType }
{}

/// So where it is no length, it simplifies to the same in every two contexts in which percentages stand for the same, and is in range in
/// both or in none.
pub fn contexts_are_ignored()
    ensures { ContextsAreIgnored }
{}
