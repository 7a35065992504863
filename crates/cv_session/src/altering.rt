//! Other declarations of an element.

ghost use Rattle.std.specs.Prelude.{◌≡◌, ◌<◌, ℕ, IfErr, IfOk, Ok, Result, length};
ghost use Rattle.cv_map.specs.Calls.{IsRefused};
ghost use Rattle.cv_map.specs.declared.error.MapErr as refusals;
ghost use Rattle.cv_props.specs.Winners.{Declarations};
ghost use Rattle.cv_tree.specs.Contents.{AreFew};
ghost use Rattle.cv_session.specs.Asking.{declare, declare_or_refuse};
ghost use Rattle.cv_session.specs.declared.scene.Scene as scenes;
ghost use Rattle.cv_session.specs.Scenes.{AreAmong, IsAnswer, IsSound, keys_in};

use crate::answer::{Altered, Answer};
use crate::replies::{bytes_of, range_text, refusal_text};
use crate::scene::Scene;
use cv_map::{MapErr, PropertyMap};
use cv_tree::Stop;
use cv_update::{Renewal, renew};
use std::alloc::{AllocError, Global};

// The answer to a call of a property map that is refused.
#[tactic(auto, using(crate::proofs::Refusals::refused_answer))]
fn refused(alloc: Global, error: MapErr) -> Result<Answer, AllocError>
    ensures { (scene : scenes.Scene) (at : ℕ) (call : Result Declarations refusals.MapErr) → IsRefused call error → IfOk result (IsAnswer scene (declare_or_refuse at call)) }
{
    match error {
        MapErr::Memory => Err(AllocError),
        error => Ok(Answer::Text(bytes_of(alloc, refusal_text(error))?)),
    }
}

impl Scene {
    /// The answer where a property map makes these declarations of the element, or is refused.
    pub(crate) fn answer_made(
        &self,
        alloc: Global,
        at: u32,
        made: Result<PropertyMap, MapErr>,
    ) -> Result<Answer, AllocError>
        requires sound { IsSound self.now }
        requires there { at < length self.now.maps.items }
        requires among { IfOk made (AreAmong (keys_in self.now)) }
        ensures { (call : Result Declarations refusals.MapErr) → IfOk made (λ map. call ≡ Ok map) → IfErr made (IsRefused call) → IfOk result (IsAnswer self.now (declare_or_refuse at call)) }
    {
        match made {
            Ok(map) => self.answer_declared(alloc, at, map),
            Err(error) => refused(alloc, error),
        }
    }

    /// The answer where the element is to have these declarations.
    pub(crate) fn answer_declared(
        &self,
        alloc: Global,
        at: u32,
        map: PropertyMap,
    ) -> Result<Answer, AllocError>
        requires sound { IsSound self.now }
        requires there { at < length self.now.maps.items }
        requires among { AreAmong (keys_in self.now) map }
        ensures { IfOk result (IsAnswer self.now (declare at map)) }
    {
        self.count_declared(&map);
        let renewal = Renewal {
            registry: &self.registry,
            elements: &self.elements,
            extents: &self.extents,
            maps: &self.maps,
            all: &self.all,
            width: self.width,
            height: self.height,
            limit: self.limit,
            at,
            declared: &map,
        };
        match renew(alloc, &renewal, &self.names) {
            Ok(renewed) => Ok(Answer::Changed(Altered {
                at,
                map,
                fresh: renewed.fresh,
                changes: renewed.changes,
            })),
            Err(Stop::Range { element, property }) => {
                Ok(Answer::Text(range_text(alloc, element, &property)?))
            }
            Err(Stop::Memory) => Err(AllocError),
        }
    }

    // How many properties are declared, which are no more than are told of.
    #[tactic(auto, using(crate::proofs::Making::few_among))]
    fn count_declared(&self, map: &PropertyMap) -> usize
        requires sound { IsSound self.now }
        requires among { AreAmong (keys_in self.now) map.now }
        ensures count { result ≡ length map.now }
        ensures few { AreFew map.now }
    {
        map.decls().len()
    }
}
