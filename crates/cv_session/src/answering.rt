//! How commands are answered.

ghost use Rattle.std.specs.Prelude.{[], IfOk, IfSome, IsNone, decimal, length};
ghost use Rattle.std.specs.Map.{remove_entry};
ghost use Rattle.cv_valuation.specs.Keys.{key_named, same_key};
ghost use Rattle.cv_map.specs.Calls.{of_key};
ghost use Rattle.cv_map.specs.Lists.{append_key};
ghost use Rattle.cv_map.specs.Values.{set_key, value_in};
ghost use Rattle.cv_valuation.specs.declared.computed.Computed as computed;
ghost use Rattle.cv_props.specs.Winners.{Declarations};
ghost use Rattle.cv_session.specs.Asking.{Asked, asked_by, declare, declare_or_refuse, on_element, text};
ghost use Rattle.cv_session.specs.Scenes.{HasNone, IsAmong, IsAnswer, IsFound, IsOfThese, IsSound, keys_in};
ghost use Rattle.cv_session.specs.Texts.{computed_text, entries_text, get_all_text, get_text, has_text, reify_text};

use crate::answer::Answer;
use crate::declaring::{append, clear, delete, set};
use crate::reading::{computed_text, entries_text, get_all_text, get_text, has_text, reify_text};
use crate::replies::{bytes_of, number_text};
use crate::scene::Scene;
use cv_doc::Command;
use cv_map::PropertyMap;
use cv_props::Computed;
use cv_spec_text::Name;
use std::alloc::{AllocError, Global};

impl Scene {
    /// The answer to a command, by what is computed of the declarations as they stand.
    pub fn answer(&self, alloc: Global, command: &Command) -> Result<Answer, AllocError>
        requires sound { IsSound self.now }
        requires these { IsOfThese (keys_in self.now) command.now }
        ensures { IfOk result (IsAnswer self.now (asked_by self.now.registry self.now.maps.items self.now.all.items command.now)) }
    {
        match command {
            Command::Get { element, name } => self.get(alloc, *element, name),
            Command::GetAll { element, name } => self.get_all(alloc, *element, name),
            Command::Has { element, name } => self.has(alloc, *element, name),
            Command::Set {
                element,
                name,
                value,
            } => self.set(alloc, *element, name, value),
            Command::Append {
                element,
                name,
                value,
            } => self.append(alloc, *element, name, value),
            Command::Delete { element, name } => self.delete(alloc, *element, name),
            Command::Clear { element } => self.clear(alloc, *element),
            Command::Size { element } => self.size(alloc, *element),
            Command::Entries { element } => self.entries(alloc, *element),
            Command::Computed { element, name } => self.computed(alloc, *element, name),
            Command::Reify { element, name } => self.reify(alloc, *element, name),
            Command::Unwatch { watcher } => Ok(Answer::Unwatch(*watcher)),
        }
    }

    // The declarations of an element and what is computed of it, if it is there.
    fn element(&self, at: u32) -> Option<(&PropertyMap, &Computed)>
        ensures found { IfSome result (λ found. IsFound self.now at found.0.now found.1.now) }
        ensures none { IsNone result → HasNone self.now at }
    {
        let map = self.maps.get(at as usize)?;
        let computed = self.all.get(at as usize)?;
        Some((map, computed))
    }

    // The answer where the element isn't there.
    fn no_element(&self, alloc: Global, at: u32) -> Result<Answer, AllocError>
        requires { HasNone self.now at }
        ensures { (asked : Declarations → computed.Computed → Asked) → IfOk result (IsAnswer self.now (on_element self.now.maps.items self.now.all.items at asked)) }
    {
        Ok(Answer::Text(bytes_of(alloc, "refused NoElement")?))
    }

    // ---- what changes nothing

    fn get(&self, alloc: Global, at: u32, name: &Name) -> Result<Answer, AllocError>
        ensures { IfOk result (IsAnswer self.now (on_element self.now.maps.items self.now.all.items at (λ declared computed. text (get_text declared name.now)))) }
    {
        match self.element(at) {
            Some((map, _)) => Ok(Answer::Text(get_text(alloc, map, name)?)),
            None => self.no_element(alloc, at),
        }
    }

    fn get_all(&self, alloc: Global, at: u32, name: &Name) -> Result<Answer, AllocError>
        ensures { IfOk result (IsAnswer self.now (on_element self.now.maps.items self.now.all.items at (λ declared computed. text (get_all_text declared name.now)))) }
    {
        match self.element(at) {
            Some((map, _)) => Ok(Answer::Text(get_all_text(alloc, map, name)?)),
            None => self.no_element(alloc, at),
        }
    }

    fn has(&self, alloc: Global, at: u32, name: &Name) -> Result<Answer, AllocError>
        ensures { IfOk result (IsAnswer self.now (on_element self.now.maps.items self.now.all.items at (λ declared computed. text (has_text declared name.now)))) }
    {
        match self.element(at) {
            Some((map, _)) => Ok(Answer::Text(has_text(alloc, map, name)?)),
            None => self.no_element(alloc, at),
        }
    }

    fn size(&self, alloc: Global, at: u32) -> Result<Answer, AllocError>
        ensures { IfOk result (IsAnswer self.now (on_element self.now.maps.items self.now.all.items at (λ declared computed. text (decimal (length declared))))) }
    {
        match self.element(at) {
            Some((map, _)) => Ok(Answer::Text(number_text(alloc, map.size())?)),
            None => self.no_element(alloc, at),
        }
    }

    fn entries(&self, alloc: Global, at: u32) -> Result<Answer, AllocError>
        ensures { IfOk result (IsAnswer self.now (on_element self.now.maps.items self.now.all.items at (λ declared computed. text (entries_text declared)))) }
    {
        match self.element(at) {
            Some((map, _)) => Ok(Answer::Text(entries_text(alloc, map)?)),
            None => self.no_element(alloc, at),
        }
    }

    fn computed(&self, alloc: Global, at: u32, name: &Name) -> Result<Answer, AllocError>
        ensures { IfOk result (IsAnswer self.now (on_element self.now.maps.items self.now.all.items at (λ declared computed. text (computed_text computed name.now)))) }
    {
        match self.element(at) {
            Some((_, computed)) => Ok(Answer::Text(computed_text(alloc, computed, name)?)),
            None => self.no_element(alloc, at),
        }
    }

    fn reify(&self, alloc: Global, at: u32, name: &Name) -> Result<Answer, AllocError>
        ensures { IfOk result (IsAnswer self.now (on_element self.now.maps.items self.now.all.items at (λ declared computed. text (reify_text computed name.now)))) }
    {
        match self.element(at) {
            Some((_, computed)) => Ok(Answer::Text(reify_text(alloc, computed, name)?)),
            None => self.no_element(alloc, at),
        }
    }

    // ---- what changes declarations

    fn set(&self, alloc: Global, at: u32, name: &Name, value: &Name) -> Result<Answer, AllocError>
        requires sound { IsSound self.now }
        requires these { IfSome (key_named name.now) (IsAmong (keys_in self.now)) }
        ensures { IfOk result (IsAnswer self.now (on_element self.now.maps.items self.now.all.items at (λ declared computed. declare_or_refuse at (set_key declared (value_in value.now) (key_named name.now))))) }
    {
        match self.element(at) {
            Some((map, _)) => self.answer_made(alloc, at, set(map, name, value)),
            None => self.no_element(alloc, at),
        }
    }

    fn append(
        &self,
        alloc: Global,
        at: u32,
        name: &Name,
        value: &Name,
    ) -> Result<Answer, AllocError>
        requires sound { IsSound self.now }
        requires these { IfSome (key_named name.now) (IsAmong (keys_in self.now)) }
        ensures { IfOk result (IsAnswer self.now (on_element self.now.maps.items self.now.all.items at (λ declared computed. declare_or_refuse at (append_key self.now.registry declared (value_in value.now) (key_named name.now))))) }
    {
        match self.element(at) {
            Some((map, _)) => {
                self.answer_made(alloc, at, append(&self.registry, map, name, value))
            }
            None => self.no_element(alloc, at),
        }
    }

    fn delete(&self, alloc: Global, at: u32, name: &Name) -> Result<Answer, AllocError>
        requires sound { IsSound self.now }
        ensures { IfOk result (IsAnswer self.now (on_element self.now.maps.items self.now.all.items at (λ declared computed. declare_or_refuse at (of_key (λ key. remove_entry (same_key key) declared) (key_named name.now))))) }
    {
        match self.element(at) {
            Some((map, _)) => self.answer_made(alloc, at, delete(map, name)),
            None => self.no_element(alloc, at),
        }
    }

    fn clear(&self, alloc: Global, at: u32) -> Result<Answer, AllocError>
        requires sound { IsSound self.now }
        ensures { IfOk result (IsAnswer self.now (on_element self.now.maps.items self.now.all.items at (λ declared computed. declare at []))) }
    {
        match self.element(at) {
            Some((map, _)) => self.answer_declared(alloc, at, clear(map)?),
            None => self.no_element(alloc, at),
        }
    }
}
