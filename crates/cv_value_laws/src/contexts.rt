//! What of matching doesn't depend on a context.

ghost use Rattle.cv_value_laws.specs.Contexts.{NumbersReadAlike, MatchesAlike, NumbersIgnoreContexts, MatchesIgnoreContexts};

/// A numeric item without font units, as `calc(1px + 2vw)`, is read alike in contexts that differ in what font units stand for alone:
/// in their `em`, and on the root, which the first argument of the law tells, in their `rem` too.
pub fn numbers_read_alike()
    ensures { NumbersReadAlike }
{}

/// Against a syntax, a list without font units matches alike in contexts that differ in what font units stand for alone: it is no match
/// in both, out of range in both, or has the same value in both.
pub fn matches_alike()
    ensures { MatchesAlike }
{}

/// A numeric item that is no length is read alike in every two contexts, font units or not: `calc(1em / 2)` is no number in any, and
/// `calc(1turn / 3)` the same angle in each.
pub fn numbers_ignore_contexts()
    ensures { NumbersIgnoreContexts }
{}

/// Against a syntax without lengths, each list matches alike in every two contexts: `1em` is no `<number>` and no `<color>` in any.
pub fn matches_ignore_contexts()
    ensures { MatchesIgnoreContexts }
{}
