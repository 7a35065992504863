//! A walk over the elements.

ghost use Rattle.std.specs.Prelude.{◌≤◌, ℕ, Option, Result, ⊤, vec_len};
ghost use Rattle.cv_doc.specs.Walks.{AreReady, Reaches};

use crate::Elem;

/// What is done at each element of a walk.
pub trait Step {
    /// Why a walk ends before its last element.
    type Stop;

    /// A test of the state before a step, and the index and the parent of its element.
    ghost ready: { Self → ℕ → Option ℕ → Type 0 };

    /// What a step does: the state before it, the index and the parent of its element, its answer and the state after it.
    ghost gives: { Self → ℕ → Option ℕ → Result ⊤ Self.Stop → Self → Type 0 };

    /// One step, at the element with this index and this parent.
    fn step(&mut self, index: u32, parent: Option<u32>) -> Result<(), Self::Stop>
        requires { ready self.old index parent }
        ensures { gives self.old index parent result self.new };
}

/// Steps each element once, by index, each with its parent, and ends at the first that says to stop.
pub fn walk<S: Step>(elements: &Vec<Elem>, step: &mut S) -> Result<(), S::Stop>
    requires ready { AreReady S.ready S.gives 0 elements.now.items step.old }
    requires room { vec_len elements.now ≤ 4294967287 }
    ensures { Reaches S.gives 0 elements.now.items step.old result step.new }
{
    let mut rest = elements.as_slice();
    let mut index = 0u32;
    while let Some((element, after)) = rest.split_first() {
        step.step(index, element.parent)?;
        index += 1;
        rest = after;
    }
    Ok(())
}
