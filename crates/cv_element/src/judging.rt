//! What a declaration comes to.

ghost use Rattle.std.specs.Prelude.{◌≡◌, true, false, IfOk};
ghost use Rattle.std.specs.Option.{option_copied};
ghost use Rattle.cv_var.specs.References.{has_var};
ghost use Rattle.cv_spec_valuation.specs.Registered.{is_loose};
ghost use Rattle.cv_spec_valuation.specs.Contexts.{reads_at};
ghost use Rattle.cv_spec_valuation.specs.Computed.{ParentStandsUnder};
ghost use Rattle.cv_valuation.specs.Keys.{is_key};
ghost use Rattle.cv_element.specs.Judging.{em_for, verdict_of, verdict_on, verdict_after, MayCome};

use crate::keywords::alone;
use crate::reading::{read, size_above, size_of};
use crate::values::{is_loose, keyword_value};
use cv_component::trim_run;
use cv_frac::Frac;
use cv_numeric::Matched;
use cv_props::{Cause, Key, Outcome, Property, Registry, Valuation};
use cv_spec_text::{OutOfMemory, Run};
use cv_spec_valuation::Place;
use std::alloc::Global;

/// What a declaration comes to: a value, a cause for which it is invalid at computed-value time, or a value out of range.
#[derive(Drop)]
pub enum Verdict {
    Used(Outcome),
    Refused(Cause),
    OutOfRange,
}

// The size that `em` is where the property is read.
fn em_for(parent: Option<&Valuation>, values: &Valuation, key: &Key) -> Frac
    ensures { result ≡ em_for (option_copied parent.entry) values.now key.now }
{
    let font_size = Key::Table(Property::FontSize);
    if *key == font_size {
        size_above(parent)
    } else {
        size_of(values.get(&font_size))
    }
}

// What the trimmed list of a property with a syntax or a grammar comes to.
fn judge_typed(
    alloc: Global,
    registry: &Registry,
    parent: Option<&Valuation>,
    at: &Place,
    key: &Key,
    trimmed: &Run,
    values: &Valuation,
) -> Result<Verdict, OutOfMemory>
    requires key { is_key key.now ≡ true }
    requires firm { is_loose registry.now key.now ≡ false }
    ensures verdict { IfOk result (λ verdict. verdict ≡ verdict_of (reads_at registry.now (option_copied parent.entry) at.now key.now (em_for (option_copied parent.entry) values.now key.now) trimmed.now)) }
    ensures kept { IfOk result (MayCome registry.now key.now) }
{
    let em = em_for(parent, values, key);
    match read(alloc, registry, parent, at, key, trimmed, em)? {
        Matched::Fit(value) => Ok(Verdict::Used(Outcome::Value(value))),
        Matched::Out => Ok(Verdict::OutOfRange),
        Matched::No => Ok(Verdict::Refused(Cause::Mismatch)),
    }
}

/// What the list comes to that a declaration is after substitution.
pub fn judge(
    alloc: Global,
    registry: &Registry,
    parent: Option<&Valuation>,
    at: &Place,
    key: &Key,
    list: Run,
    values: &Valuation,
) -> Result<Verdict, OutOfMemory>
    requires parent { ParentStandsUnder registry.now (option_copied parent) }
    requires key { is_key key.now ≡ true }
    requires plain { has_var list ≡ false }
    ensures verdict { IfOk result (λ verdict. verdict ≡ verdict_on registry.now (option_copied parent.entry) at.now values.now key.now list) }
    ensures kept { IfOk result (MayCome registry.now key.now) }
{
    let trimmed = trim_run(list);
    if let Some(keyword) = alone(trimmed.tokens()) {
        return Ok(Verdict::Used(keyword_value(alloc, registry, parent, key, keyword)?));
    }
    if is_loose(registry, key) {
        return Ok(Verdict::Used(Outcome::Tokens(trimmed)));
    }
    judge_typed(alloc, registry, parent, at, key, &trimmed, values)
}
