//! Where the elements of a tree end.

ghost use Rattle.std.specs.Prelude.{◌≡◌, ◌<◌, length, slice_index};

/// Of each element of a tree, the index behind its last descendant, or behind itself where it has none.
#[derive(Drop)]
pub struct Extents {
    pub(crate) ends: Vec<usize>,
}

impl Extents {
    /// The end of the element with this index.
    pub(crate) fn end(&self, index: usize) -> usize
        requires { index < length self.now.ends.items }
        ensures { result ≡ slice_index self.now.ends.items index }
    {
        self.ends[index]
    }
}
