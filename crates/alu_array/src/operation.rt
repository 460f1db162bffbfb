//! Arithmetic on values modulo 2^64, where a value may be absent.

ghost use Rattle.std.specs.Prelude.{◌≡◌};
ghost use Rattle.block_core.specs.Arithmetic.{combined_leaf};
ghost use Rattle.alu_array.specs.Operations.{operation_of};

/// What an arithmetic unit does with two values.
#[derive(Clone, Copy, Debug, PartialEq, Eq)]
pub enum Op {
    Mul,
    Add,
    Sub,
}

/// The value of two, modulo 2^64; None is no entry. A product with no entry is no entry. A sum with one is the other
/// value, and so is a difference, where the second value alone is taken from 0.
#[inline]
pub fn combine(op: Op, a: Option<u64>, b: Option<u64>) -> Option<u64>
    ensures { result ≡ combined_leaf (operation_of op) a b }
{
    match (op, a, b) {
        (Op::Mul, Some(a), Some(b)) => Some(a.wrapping_mul(b)),
        (Op::Mul, _, _) => None,
        (Op::Add, Some(a), Some(b)) => Some(a.wrapping_add(b)),
        (Op::Sub, Some(a), Some(b)) => Some(a.wrapping_sub(b)),
        (Op::Sub, None, Some(b)) => Some(b.wrapping_neg()),
        (Op::Add, None, b) => b,
        (_, a, None) => a,
    }
}
