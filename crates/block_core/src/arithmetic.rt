//! Sums of values, where a value may be absent.

ghost use Rattle.std.specs.Prelude.{◌≡◌};
ghost use Rattle.block_core.specs.Arithmetic.{combined_leaf, Plus};

/// The sum of two values modulo 2^64; where one is absent, it is the other.
#[inline]
pub fn plus(a: Option<u64>, b: Option<u64>) -> Option<u64>
    ensures { result ≡ combined_leaf Plus a b }
{
    match (a, b) {
        (Some(a), Some(b)) => Some(a.wrapping_add(b)),
        (Some(a), None) => Some(a),
        (None, b) => b,
    }
}
