//! The stored prefixes of one length.

ghost use Rattle.std.specs.Prelude.{◌^◌, ◌≤◌};

/// The stored prefixes of one length by their ranks: how many there are, and the rank of each row's prefix.
#[derive(Drop)]
pub struct Positions {
    pub count: u64,
    pub ranks: Vec<u32>,
    ghost small: { count ≤ 2 ^ 24 },
}
