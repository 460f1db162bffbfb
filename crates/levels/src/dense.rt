//! A dense level.

ghost use Rattle.std.specs.Prelude.{◌≡◌, ◌*◌, ◌^◌, ◌<◌, ◌≤◌, [], length, Some, slice_get, slice_index_or};
ghost use Rattle.levels.specs.Arrays.{dense_children};

/// Under each parent every coordinate below the size is stored, and these are numbered through.
#[derive(Debug, Drop)]
pub struct Dense {
    pub size: u64,
    pub parents: u64,
    ghost small: { parents * size ≤ 2 ^ 24 },
}

impl Dense {
    pub fn count(&self) -> u64
        ensures { result ≡ self.now.parents * self.now.size }
    {
        self.parents * self.size
    }

    pub fn fiber_len(&self, r: u64) -> u64
        requires { r < length (dense_children self.now.size self.now.parents) }
        ensures { result ≡ length (slice_index_or (dense_children self.now.size self.now.parents) r []) }
    {
        let _ = r;
        self.size
    }

    pub fn child(&self, r: u64, n: u64) -> (u64, u64)
        requires parent { r < length (dense_children self.now.size self.now.parents) }
        requires child { n < length (slice_index_or (dense_children self.now.size self.now.parents) r []) }
        ensures { slice_get (slice_index_or (dense_children self.now.size self.now.parents) r []) n ≡ Some result }
    {
        (n, r * self.size + n)
    }
}
