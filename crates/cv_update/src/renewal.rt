//! A tree with what was computed of it, and other declarations for one of its elements.

ghost use Rattle.std.specs.Prelude.{◌≡◌, ◌<◌, All, Some, length, slice_get};
ghost use Rattle.cv_tree.specs.Contents.{AreFew};
ghost use Rattle.cv_update.specs.Renewed.{declared_after};

use cv_doc::Elem;
use cv_map::PropertyMap;
use cv_props::{Computed, Decls, Registry};
use cv_walk::Extents;

/// The elements of a tree, under a registry and in a viewport of this size; the declarations of each, and what was computed of it; and the
/// declarations that the element with this index has from now on.
#[derive(Drop)]
pub struct Renewal<'a> {
    pub registry: &'a Registry,
    pub elements: &'a Vec<Elem>,
    /// Where the elements end.
    pub extents: &'a Extents,
    pub maps: &'a [PropertyMap],
    pub all: &'a [Computed],
    pub width: u32,
    pub height: u32,
    /// The most tokens that a list may have after substitution.
    pub limit: u32,
    pub at: u32,
    pub declared: &'a PropertyMap,
}

impl Renewal<'_> {
    /// The declarations of an element from now on.
    pub(crate) fn declarations(&self, index: u32) -> &Decls
        requires there { index < length self.now.maps.now }
        requires few { All AreFew self.now.maps.now }
        requires few_declared { AreFew self.now.declared.now }
        ensures declares { slice_get (declared_after self.now) index ≡ Some result.now }
        ensures few { AreFew result.now }
    {
        if index == self.at {
            self.declared.decls()
        } else {
            self.maps[index as usize].decls()
        }
    }
}
