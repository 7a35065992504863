//! What of an appended list doesn't depend on a context.

ghost use Rattle.cv_map.specs.Lists.{ListsMatchAlike};

use cv_value::mismatch_is_alike;

/// Whether a list may be a value of a syntax doesn't depend on the context.
pub fn lists_match_alike()
    ensures { ListsMatchAlike }
{
    mismatch_is_alike();
}
