//! The numbers of a numeric value are in bounds, so its text is read back.

ghost use Rattle.std.specs.Prelude.{◌≡◌, true};
ghost use Rattle.cv_spec_text.specs.Printing.{bytes};
ghost use Rattle.cv_frac.specs.Bounded.{in_bounds};
ghost use Rattle.cv_simplify.specs.Counted.{inside, all_inside};
ghost use Rattle.cv_om.specs.Parsed.{parsed};
ghost use Rattle.cv_om.specs.Text.{numeric_text};
ghost use Rattle.cv_om_roundtrip.specs.Read.{divisors, IsReadAs};

use cv_calc::Calc;
use cv_frac::Frac;
use cv_om::Numeric;

/// A fraction is in bounds: its two numbers are read for the prover alone, which then knows the bounds of their type.
#[tactic(auto, using(crate::proofs::InBounds::both_small))]
fn fraction(v: Frac)
    ensures { in_bounds v ≡ true }
{
    let _top = v.top();
    let _bottom = v.bottom();
}

/// The numbers of a calculation are in bounds.
#[cycle(walk)]
#[tactic(auto, using(crate::proofs::InBounds::inside_equations))]
fn calculation(c: &Calc)
    ensures { inside c.now ≡ true }
{
    match c {
        Calc::Num(value, _) => fraction(*value),
        Calc::Sum(children) => calculations(children.as_slice()),
        Calc::Product(children) => calculations(children.as_slice()),
        Calc::Negate(child) => calculation(child.get()),
        Calc::Invert(child) => calculation(child.get()),
        Calc::Min(children) => calculations(children.as_slice()),
        Calc::Max(children) => calculations(children.as_slice()),
        Calc::Clamp(low, middle, high) => {
            calculation(low.get());
            calculation(middle.get());
            calculation(high.get());
        }
    }
}

/// The numbers of some calculations are in bounds.
#[cycle(walk)]
fn calculations(children: &[Calc])
    ensures { all_inside children.now ≡ true }
{
    for child in children {
        calculation(child);
    }
}

/// Each number of a numeric value is in bounds.
pub fn numbers_are_in_bounds(value: &Numeric)
    ensures { inside value.now ≡ true }
{
    calculation(value.tree());
}

/// So the text of each numeric value is read back as the law says.
pub fn value_is_read(value: &Numeric)
    ensures { IsReadAs (divisors value.now) value.now (parsed (bytes (numeric_text value.now))) }
{
    numbers_are_in_bounds(value);
    let _tree = value.tree();
}
