//! How a command is answered, and what it changes.

use cv_map::PropertyMap;
use cv_update::Fresh;
use cv_watch::Change;

/// Other declarations of an element: what is computed anew by them, and what changes.
#[derive(Drop)]
pub struct Altered {
    pub at: u32,
    pub map: PropertyMap,
    pub fresh: Fresh,
    pub changes: Vec<Change>,
}

/// How a command is answered.
#[derive(Drop)]
pub enum Answer {
    /// By a text, and nothing changes.
    Text(Vec<u8>),
    /// By `ok`, and an element has other declarations.
    Changed(Altered),
    /// A watcher is to be dropped.
    Unwatch(u32),
}
