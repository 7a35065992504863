//! The values of an element while they are settled, one property after another.

ghost use Rattle.std.specs.Prelude.{◌≡◌, ◌≢◌, ◌⊎◌, ◌≤◌, ◌++◌, ◌∷◌, [], ℕ, List, Contains, Option, Some, None, true, false, IfOk, OnOk};
ghost use Rattle.std.specs.Option.{option_copied};
ghost use Rattle.cv_spec_element.specs.Pieces.{RefersTo, sub};
ghost use Rattle.cv_var.specs.References.{pieces_of, has_var};
ghost use Rattle.cv_subst.specs.Values.{value_in};
ghost use Rattle.cv_valuation.specs.Keys.{is_key};
ghost use Rattle.cv_valuation.specs.Valuations.{with_outcome};
ghost use Rattle.cv_spec_valuation.specs.Computed.{MayStand, StandUnder, ParentStandsUnder};
ghost use Rattle.cv_element.specs.Answers.{IsAnswer, is_counted};
ghost use Rattle.cv_element.specs.Judging.{verdict_after, MayCome};
ghost use Rattle.cv_element.specs.Settling.{IsLoaded, value_at, value_for, faults_after, first_of, range_after, Settles};

use crate::answers::answer;
use crate::judging::{Verdict, judge};
use crate::keywords::Keyword;
use crate::values::{invalid_value, keyword_value};
use cv_props::{
    Cause, Key, Outcome, Registry, Valuation, outcomes_are_by_key, properties_are_found,
};
use cv_spec_text::{Name, OutOfMemory, Run};
use cv_spec_valuation::Place;
use cv_subst::Runs;
use cv_value::typed_tokens;
use cv_value_laws::{values_are_taken, values_may_be_kept};
use cv_var::Declared;
use sqlite_items::Items;
use std::alloc::Global;

/// What is known of an element's values.
#[derive(Drop)]
pub struct Settling {
    /// The values: those of the settled properties, and for every other key what it has undeclared.
    pub values: Valuation,
    /// The tokens of settled names, and of those that aren't declared, as far as they were referred to.
    pub runs: Runs,
    /// The settled properties that are invalid, with the cause.
    pub faults: Items<(Key, Cause)>,
    /// The first settled property that is out of range.
    pub range: Option<Key>,
}

// What a reference to the name stands for, where it isn't there yet.
fn load_one(
    alloc: Global,
    name: &Name,
    values: &Valuation,
    runs: &mut Runs,
) -> Result<(), OutOfMemory>
    requires loaded { IsLoaded runs.old values.now }
    ensures here { OnOk result (value_in runs.new name.now ≡ value_at values.now name.now) }
    ensures others { OnOk result ((other : List ℕ) → other ≢ name.now → value_in runs.new other ≡ value_in runs.old other) }
{
    values_may_be_kept();
    if runs.get(name).is_some() {
        return Ok(());
    }
    match values.get(&Key::Custom(name.copy()?)) {
        Outcome::Tokens(run) => runs.put(name.copy()?, run.share()?),
        Outcome::Value(value) => {
            let run = Run::of(alloc, typed_tokens(alloc, value)?)?;
            runs.put(name.copy()?, run)
        }
        Outcome::Invalid => Ok(()),
    }
}

// What references to these names stand for.
fn load(
    alloc: Global,
    names: &[Name],
    values: &Valuation,
    runs: &mut Runs,
) -> Result<(), OutOfMemory>
    requires loaded { IsLoaded runs.old values.now }
    ensures loaded { OnOk result (IsLoaded runs.new values.now) }
    ensures here { OnOk result ((name : List ℕ) → Contains names.now name → value_in runs.new name ≡ value_at values.now name) }
    ensures more { OnOk result ((name : List ℕ) → (value_in runs.new name ≡ value_in runs.old name) ⊎ Contains names.now name) }
{
    for place in 0..names.len() {
        load_one(alloc, &names[place], values, runs)?;
    }
    Ok(())
}

// What the references of the declaration stand for.
fn load_references(
    alloc: Global,
    declared: &Declared,
    values: &Valuation,
    runs: &mut Runs,
) -> Result<(), OutOfMemory>
    requires loaded { IsLoaded runs.old values.now }
    ensures loaded { OnOk result (IsLoaded runs.new values.now) }
    ensures here { OnOk result ((name : List ℕ) → RefersTo (pieces_of declared.now) name → value_in runs.new name ≡ value_at values.now name) }
    ensures more { OnOk result ((name : List ℕ) → (value_in runs.new name ≡ value_in runs.old name) ⊎ RefersTo (pieces_of declared.now) name) }
{
    let names = declared.references()?;
    load(alloc, &names, values, runs)
}

// What the declaration gives, once what its references stand for is there.
fn answer_loaded(
    alloc: Global,
    key: &Key,
    declared: &Declared,
    limit: u32,
    values: &Valuation,
    runs: &mut Runs,
) -> Result<Result<Run, Cause>, OutOfMemory>
    requires some { 1 ≤ limit }
    requires most { limit ≤ 32768 }
    requires loaded { IsLoaded runs.old values.now }
    ensures answer { IfOk result (IsAnswer (is_counted key.now declared.now) false (sub (value_at values.now) (pieces_of declared.now)) limit) }
    ensures loaded { OnOk result (IsLoaded runs.new values.now) }
    ensures more { OnOk result ((name : List ℕ) → (value_in runs.new name ≡ value_in runs.old name) ⊎ RefersTo (pieces_of declared.now) name) }
{
    load_references(alloc, declared, values, runs)?;
    answer(alloc, key, declared, runs, limit)
}

// What the declaration gives; on a cycle nothing is looked up.
fn answer_for(
    alloc: Global,
    key: &Key,
    declared: &Declared,
    is_cyclic: bool,
    limit: u32,
    values: &Valuation,
    runs: &mut Runs,
) -> Result<Result<Run, Cause>, OutOfMemory>
    requires some { 1 ≤ limit }
    requires most { limit ≤ 32768 }
    requires loaded { IsLoaded runs.old values.now }
    ensures answer { IfOk result (IsAnswer (is_counted key.now declared.now) is_cyclic (sub (value_at values.now) (pieces_of declared.now)) limit) }
    ensures loaded { OnOk result (IsLoaded runs.new values.now) }
    ensures more { OnOk result ((name : List ℕ) → (value_in runs.new name ≡ value_in runs.old name) ⊎ ((is_cyclic ≡ false) × RefersTo (pieces_of declared.now) name)) }
{
    if is_cyclic {
        return Ok(Err(Cause::Cycle));
    }
    answer_loaded(alloc, key, declared, limit, values, runs)
}

// The property has this outcome.
fn put(
    registry: &Registry,
    key: Key,
    outcome: Outcome,
    settling: &mut Settling,
) -> Result<(), OutOfMemory>
    requires comes { MayStand registry.now key outcome }
    requires stand { StandUnder registry.now settling.old.values }
    ensures values { OnOk result (settling.new.values ≡ with_outcome settling.old.values key outcome) }
    ensures stand { OnOk result (StandUnder registry.now settling.new.values) }
    ensures runs { settling.new.runs ≡ settling.old.runs }
    ensures faults { settling.new.faults ≡ settling.old.faults }
    ensures range { settling.new.range ≡ settling.old.range }
{
    outcomes_are_by_key();
    properties_are_found();
    settling.values.put(key, outcome)
}

// The property is invalid with this cause.
fn blame(key: Key, cause: Cause, settling: &mut Settling) -> Result<(), OutOfMemory>
    ensures faults { OnOk result (settling.new.faults ≡ settling.old.faults ++ (key, cause) ∷ []) }
    ensures values { settling.new.values ≡ settling.old.values }
    ensures runs { settling.new.runs ≡ settling.old.runs }
    ensures range { settling.new.range ≡ settling.old.range }
{
    settling.faults.push((key, cause))
}

// The property is out of range.
fn remember(key: Key, settling: &mut Settling)
    ensures range { settling.new.range ≡ first_of settling.old.range key }
    ensures faults { settling.new.faults ≡ settling.old.faults }
    ensures values { settling.new.values ≡ settling.old.values }
    ensures runs { settling.new.runs ≡ settling.old.runs }
{
    if settling.range.is_none() {
        settling.range = Some(key);
    }
}

// The property has what the verdict says.
fn keep(
    alloc: Global,
    registry: &Registry,
    parent: Option<&Valuation>,
    key: &Key,
    verdict: Verdict,
    settling: &mut Settling,
) -> Result<(), OutOfMemory>
    requires parent { ParentStandsUnder registry.now (option_copied parent) }
    requires key { is_key key.now ≡ true }
    requires comes { MayCome registry.now key.now verdict }
    requires stand { StandUnder registry.now settling.old.values }
    ensures values { OnOk result (settling.new.values ≡ with_outcome settling.old.values key.now (value_for registry.now (option_copied parent.entry) key.now verdict)) }
    ensures faults { OnOk result (settling.new.faults ≡ faults_after settling.old.faults key.now verdict) }
    ensures range { OnOk result (settling.new.range ≡ range_after settling.old.range key.now verdict) }
    ensures runs { OnOk result (settling.new.runs ≡ settling.old.runs) }
    ensures stand { OnOk result (StandUnder registry.now settling.new.values) }
{
    match verdict {
        Verdict::Used(outcome) => put(registry, key.copy()?, outcome, settling),
        Verdict::Refused(cause) => {
            let value = invalid_value(alloc, registry, parent, key)?;
            put(registry, key.copy()?, value, settling)?;
            blame(key.copy()?, cause, settling)
        }
        Verdict::OutOfRange => {
            let value = keyword_value(alloc, registry, parent, key, Keyword::Unset)?;
            put(registry, key.copy()?, value, settling)?;
            remember(key.copy()?, settling);
            Ok(())
        }
    }
}

// What the answer of substitution comes to.
fn judge_answer(
    alloc: Global,
    registry: &Registry,
    parent: Option<&Valuation>,
    at: &Place,
    key: &Key,
    answer: Result<Run, Cause>,
    values: &Valuation,
) -> Result<Verdict, OutOfMemory>
    requires parent { ParentStandsUnder registry.now (option_copied parent) }
    requires key { is_key key.now ≡ true }
    requires plain { IfOk answer (λ list. has_var list ≡ false) }
    ensures verdict { IfOk result (λ verdict. verdict ≡ verdict_after registry.now (option_copied parent.entry) at.now values.now key.now answer) }
    ensures kept { IfOk result (MayCome registry.now key.now) }
{
    match answer {
        Ok(list) => judge(alloc, registry, parent, at, key, list, values),
        Err(cause) => Ok(Verdict::Refused(cause)),
    }
}

/// Settles a declared property.
pub fn settle(
    alloc: Global,
    registry: &Registry,
    parent: Option<&Valuation>,
    at: &Place,
    key: &Key,
    declared: &Declared,
    is_cyclic: bool,
    limit: u32,
    settling: &mut Settling,
) -> Result<(), OutOfMemory>
    requires some { 1 ≤ limit }
    requires most { limit ≤ 32768 }
    requires parent { ParentStandsUnder registry.now (option_copied parent) }
    requires key { is_key key.now ≡ true }
    requires loaded { IsLoaded settling.old.runs settling.old.values }
    requires stand { StandUnder registry.now settling.old.values }
    ensures settles { OnOk result (Settles registry.now (option_copied parent.entry) at.now key.now declared.now is_cyclic limit settling.old settling.new) }
    ensures stand { OnOk result (StandUnder registry.now settling.new.values) }
{
    // no token of its pieces is a `var(`, nor of the text of a typed value
    declared.tokens();
    values_are_taken();
    let answer = answer_for(
        alloc,
        key,
        declared,
        is_cyclic,
        limit,
        &settling.values,
        &mut settling.runs,
    )?;
    let verdict = judge_answer(alloc, registry, parent, at, key, answer, &settling.values)?;
    keep(alloc, registry, parent, key, verdict, settling)?;
    Ok(())
}
