//! One level of a storage.

ghost use Rattle.std.specs.Prelude.{◌≡◌, ◌<◌, [], length, Some, slice_get, slice_index_or};
ghost use Rattle.levels.specs.Shown.{level_count, level_children};

use crate::compressed::Compressed;
use crate::dense::Dense;

#[derive(Debug, Drop)]
pub enum Level {
    Dense(Dense),
    Compressed(Compressed),
}

impl Level {
    /// How many prefixes that end at this level are stored.
    pub fn count(&self) -> u64
        ensures { result ≡ level_count self.now }
    {
        match self {
            Level::Dense(level) => level.count(),
            Level::Compressed(level) => level.count(),
        }
    }

    /// How many children parent r has.
    pub fn fiber_len(&self, r: u64) -> u64
        requires { r < length (level_children self.now) }
        ensures { result ≡ length (slice_index_or (level_children self.now) r []) }
    {
        match self {
            Level::Dense(level) => level.fiber_len(r),
            Level::Compressed(level) => level.fiber_len(r),
        }
    }

    /// The coordinate and the rank of the n-th child of parent r.
    pub fn child(&self, r: u64, n: u64) -> (u64, u64)
        requires parent { r < length (level_children self.now) }
        requires child { n < length (slice_index_or (level_children self.now) r []) }
        ensures { slice_get (slice_index_or (level_children self.now) r []) n ≡ Some result }
    {
        match self {
            Level::Dense(level) => level.child(r, n),
            Level::Compressed(level) => level.child(r, n),
        }
    }
}
