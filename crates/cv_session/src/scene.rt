//! What a session keeps beside its watchers.

ghost use Rattle.std.specs.Prelude.{◌≡◌, slice_set};
ghost use Rattle.cv_update.specs.Renewed.{with_fresh};
ghost use Rattle.cv_session.specs.Scenes.{IsAltered, IsSound, KeepsRest};

use crate::answer::Altered;
use cv_doc::Elem;
use cv_map::PropertyMap;
use cv_props::{Computed, Note, Registry};
use cv_update::{Named, put_fresh};
use cv_walk::Extents;

/// The elements of a document with their extents, their declarations as they stand and what is computed of each, by index; what the sheet
/// registers; the notes on the document; and the properties whose changes are told, by their names in byte order.
#[derive(Drop)]
pub struct Scene {
    pub registry: Registry,
    pub elements: Vec<Elem>,
    pub extents: Extents,
    pub notes: Vec<Note>,
    pub names: Vec<Named>,
    pub maps: Vec<PropertyMap>,
    pub all: Vec<Computed>,
    pub width: u32,
    pub height: u32,
    /// The most tokens that a list may have after substitution.
    pub limit: u32,
}

impl Scene {
    /// Puts other declarations of an element in place, and what is computed by them.
    pub fn put(&mut self, altered: Altered)
        requires sound { IsSound self.old }
        requires altered { IsAltered self.old altered.at altered.map altered }
        ensures sound { IsSound self.new }
        ensures keeps { KeepsRest self.old self.new }
        ensures declared { self.new.maps.items ≡ slice_set self.old.maps.items altered.at altered.map }
        ensures all { self.new.all.items ≡ with_fresh self.old.all.items altered.fresh }
    {
        self.maps[altered.at as usize] = altered.map;
        put_fresh(&mut self.all, altered.fresh);
    }
}
