//! Numbers.

ghost use Rattle.std.specs.Prelude.{◌≡◌};
ghost use Rattle.cv_calcread.specs.Literals as literals;

use cv_frac::Frac;
use cv_spec_text::Name;

/// The fraction of a number, or zero where it is out of range.
#[tactic(auto, unfolding(crate::specs::Literals::kept, cv_spec_ratio::specs::Ratio::zero_ratio))]
pub fn kept(spelling: &Name) -> Frac
    ensures { result ≡ literals.kept spelling.now }
{
    match Frac::read_spelling(spelling) {
        Ok(value) => value,
        Err(_) => Frac::whole(0),
    }
}

/// Whether a number is in range.
#[tactic(auto, unfolding(crate::specs::Literals::is_in_range))]
pub fn is_in_range(spelling: &Name) -> bool
    ensures { result ≡ literals.is_in_range spelling.now }
{
    Frac::read_spelling(spelling).is_ok()
}
