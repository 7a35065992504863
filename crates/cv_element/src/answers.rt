//! What substitution makes of a declaration.

ghost use Rattle.std.specs.Prelude.{◌≡◌, ◌≤◌, false, IfOk};
ghost use Rattle.cv_spec_element.specs.Pieces.{sub};
ghost use Rattle.cv_subst.specs.Values.{value_in};
ghost use Rattle.cv_var.specs.References.{pieces_of, has_var};
ghost use Rattle.cv_element.specs.Answers.{IsAnswer, is_counted};

use cv_props::{Cause, Key};
use cv_spec_text::{OutOfMemory, Run};
use cv_subst::{Runs, SubstErr, substitute};
use cv_var::{Declared, pieces_are_read};
use std::alloc::Global;

// Whether the limit is asked of the list.
fn is_counted(key: &Key, declared: &Declared) -> bool
    ensures { result ≡ is_counted key.now declared.now }
{
    match key {
        Key::Custom(_) => true,
        Key::Table(_) => declared.has_var(),
    }
}

/// The declared list with its references replaced, or why the property is invalid at computed-value time, where it is on no cycle. The
/// list of an ordinary property without references is no longer than it was written, and isn't counted.
pub fn answer(
    alloc: Global,
    key: &Key,
    declared: &Declared,
    values: &Runs,
    limit: u32,
) -> Result<Result<Run, Cause>, OutOfMemory>
    requires some { 1 ≤ limit }
    requires most { limit ≤ 32768 }
    ensures { IfOk result (IsAnswer (is_counted key.now declared.now) false (sub (value_in values.now) (pieces_of declared.now)) limit) }
{
    pieces_are_read();
    if !is_counted(key, declared) {
        return Ok(Ok(declared.run().share()?));
    }
    match substitute(alloc, declared, values, limit) {
        Ok(bounded) => Ok(Ok(bounded.into_run())),
        Err(SubstErr::Missing(name)) => Ok(Err(Cause::Missing(name))),
        Err(SubstErr::OverLimit(count)) => Ok(Err(Cause::Limit(count))),
        Err(SubstErr::Memory) => Err(OutOfMemory),
    }
}
