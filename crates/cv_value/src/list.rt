//! What a list is as several items.

ghost use Rattle.std.specs.Prelude.{◌≡◌, ◌∷◌, ◌++◌, [], map, IfOk};
ghost use Rattle.cv_numeric.specs.Matched.{both};
ghost use Rattle.cv_value.specs.Matching as matching;

use crate::single::item;
use crate::typed::Item;
use cv_calc::Context;
use cv_numeric::Matched;
use cv_spec_text::Token;
use cv_syntax::Kind;
use sqlite_items::Items;
use std::alloc::{AllocError, Global};

/// The items so far, and one more.
fn with_item(
    all: Matched<Items<Item>>,
    next: Matched<Item>,
) -> Result<Matched<Items<Item>>, AllocError>
    ensures { IfOk result (λ o. o ≡ both (λ is i. is ++ i ∷ []) all next) }
{
    match (all, next) {
        (Matched::No, _) => Ok(Matched::No),
        (_, Matched::No) => Ok(Matched::No),
        (Matched::Out, _) => Ok(Matched::Out),
        (_, Matched::Out) => Ok(Matched::Out),
        (Matched::Fit(items), Matched::Fit(next)) => {
            let mut items = items;
            items.push(next)?;
            Ok(Matched::Fit(items))
        }
    }
}

/// Parts, each of which is an item of a kind.
pub(crate) fn each(
    alloc: Global,
    kind: &Kind,
    parts: &[&[Token]],
    x: &Context,
) -> Result<Matched<Items<Item>>, AllocError>
    ensures { IfOk result (λ o. o ≡ matching.each kind.now x.now (map (λ p. p.now) parts.now)) }
{
    if parts.is_empty() {
        return Ok(Matched::No);
    }
    let mut all = Matched::Fit(Items::new(alloc));
    for part in parts {
        all = with_item(all, item(alloc, kind, part, x)?)?;
    }
    Ok(all)
}
