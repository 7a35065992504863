//! The invalid properties by their names.

ghost use Rattle.std.specs.Prelude.{◌≡◌, IfOk, map};
ghost use Rattle.std.specs.List.Sorted.{IsPermutation};
ghost use Rattle.cv_valuation.specs.Keys.{key_text};
ghost use Rattle.cv_spec_valuation.specs.Computed.{IsByName};
ghost use Rattle.cv_element.specs.FaultNames.{named, fault_of};

use cv_props::{Cause, Key, key_text};
use cv_spec_text::OutOfMemory;
use sqlite_items::Items;
use std::alloc::Global;

/// An invalid property, with its name as the report writes it.
#[derive(Drop)]
pub struct Named {
    pub text: Items<u8>,
    pub key: Key,
    pub cause: Cause,
}

// The fault with its name.
fn with_name(alloc: Global, key: &Key, cause: &Cause) -> Result<Named, OutOfMemory>
    ensures { IfOk result (λ fault. fault ≡ named (key.now, cause.now)) }
{
    let mut text = Vec::new(alloc);
    key_text(alloc, key, &mut text)?;
    Ok(Named {
        text: Items::from_vec(text),
        key: key.copy()?,
        cause: cause.copy()?,
    })
}

// The faults with their names.
fn with_names(alloc: Global, faults: &[(Key, Cause)]) -> Result<Vec<Named>, OutOfMemory>
    ensures { IfOk result (λ all. all.items ≡ map named faults.now) }
{
    let mut all = Vec::new(alloc);
    for (key, cause) in faults {
        all.push(with_name(alloc, key, cause)?)?;
    }
    Ok(all)
}

// The faults without the names.
fn without_names(alloc: Global, faults: &[Named]) -> Result<Items<(Key, Cause)>, OutOfMemory>
    ensures { IfOk result (λ all. all ≡ map fault_of faults.now) }
{
    let mut all = Items::new(alloc);
    for fault in faults {
        all.push((fault.key.copy()?, fault.cause.copy()?))?;
    }
    Ok(all)
}

/// The same faults, in byte order of their names as the report writes them.
pub fn by_name(alloc: Global, faults: &[(Key, Cause)]) -> Result<Items<(Key, Cause)>, OutOfMemory>
    ensures same { IfOk result (IsPermutation faults.now) }
    ensures ordered { IfOk result IsByName }
{
    let mut all = with_names(alloc, faults)?;
    all.sort_by(|a, b| a.text.as_slice().cmp(b.text.as_slice()))?;
    without_names(alloc, &all)
}
