//! The vector reducer and its states.

ghost use Rattle.std.specs.Prelude.{◌≡◌, true, OnOk, OnErr};
ghost use Rattle.block_core.specs.Kind.{SumVectorKind, moves};
ghost use Rattle.block_core.specs.Stands.{Stands, StandsAtStart};
ghost use Rattle.block_core.specs.Runs.{Runs};
ghost use Rattle.block_core.proofs.Unique.{same-wish};
ghost use Rattle.space_reducer.specs.VectorSteps.{vector_steps, vector_wants, vector_coordinate_took, vector_next_put, vector_flush};

use crate::sums::Sums;
use block_core::{BlockStep, Wish};
use std::alloc::{AllocError, Global};
use std::collections::btree_map::IntoIter;
use std::marker::Model;
use std::mem;
use stream_tokens::Token;

/// How far a vector reducer has come.
#[derive(Clone, Copy, Drop)]
enum VectorPhase {
    /// The next token of the coordinates is wanted.
    Coordinate,
    /// The value of this coordinate is wanted.
    Value(u64),
    /// The fiber ended with this stop, and the one of the values is wanted.
    Stopping(u8),
    /// The coordinates ended, and the end of the values is wanted.
    Ending,
    /// This coordinate is put, then its sum, then what is left, then this stop.
    PutCoordinate(u64, Option<u64>, u8),
    PutSum(Option<u64>, u8),
    /// This token is put on both outputs, first on that of the coordinates.
    PutFirst(Token),
    PutSecond(Token),
    Ended,
}

impl VectorPhase {
    #[inline]
    fn wants(self) -> Wish
        ensures { result ≡ vector_wants self }
    {
        match self {
            VectorPhase::Coordinate => Wish::Take(0),
            VectorPhase::Value(_) | VectorPhase::Stopping(_) | VectorPhase::Ending => Wish::Take(1),
            VectorPhase::PutCoordinate(coordinate, _, _) => Wish::Put(0, Token::Item(coordinate)),
            VectorPhase::PutSum(sum, _) => Wish::Put(1, Token::from(sum)),
            VectorPhase::PutFirst(t) => Wish::Put(0, t),
            VectorPhase::PutSecond(t) => Wish::Put(1, t),
            VectorPhase::Ended => Wish::Finished,
        }
    }
}

/// Where a token of the coordinates leads.
#[inline]
fn after_coordinate(t: Token) -> VectorPhase
    ensures { result ≡ vector_coordinate_took t }
{
    match t {
        Token::Item(coordinate) => VectorPhase::Value(coordinate),
        Token::Empty => VectorPhase::Coordinate,
        Token::Stop(n) => VectorPhase::Stopping(n),
        Token::Done => VectorPhase::Ending,
    }
}

/// The block that puts, for all fibers between two stops above 0, one fiber of their distinct coordinates with the sums
/// of their values.
///
/// It has coordinates at input 0 and values at input 1, of one depth d of at least 2, and the same at outputs 0 and 1, of
/// depth d - 1. Sums are modulo 2^64, and one over absent values alone is absent. It keeps the coordinates of a piece in
/// an ordered map, which a take may find no memory to grow. This is the vector reducer of the Sparse Abstract Machine.
#[derive(Drop)]
pub struct VectorReducer {
    phase: VectorPhase,
    kept: Sums,
    /// What is still to be put of the piece that ended.
    left: IntoIter<u64, Option<u64>>,
    alloc: Global,
}

impl Model for VectorReducer {
    ghost use Rattle.space_reducer.specs.VectorSteps.{VectorState};

    ghost Value = { VectorState };

    ghost view = { λ b. record { phase = b.phase; kept = b.kept; left = b.left } };
}

impl VectorReducer {
    /// A vector reducer before its first move; it takes no memory before a value comes.
    pub fn new(alloc: Global) -> VectorReducer
        ensures same_kind { ⟦<VectorReducer as BlockStep>⟧.kind result ≡ SumVectorKind }
        ensures may_refuse { ⟦<VectorReducer as BlockStep>⟧.may_refuse result ≡ true }
        ensures starts { StandsAtStart (⟦<VectorReducer as BlockStep>⟧.stands result) SumVectorKind }
    {
        VectorReducer {
            phase: VectorPhase::Coordinate,
            kept: Sums::new(alloc),
            left: Sums::new(alloc).into_pairs(),
            alloc,
        }
    }

    /// Goes on to the next of the pairs that are left, or to the stop behind them.
    #[inline]
    fn put_next(&mut self, stop: u8)
        ensures { self.new ≡ vector_next_put self.old.kept stop self.old.left }
    {
        self.phase = match self.left.next() {
            Some((coordinate, sum)) => VectorPhase::PutCoordinate(coordinate, sum, stop),
            None => VectorPhase::PutFirst(Token::Stop(stop)),
        };
    }

    /// All that was kept is put, and then a stop; nothing is kept any more. The map gives its memory back as it is put:
    /// one of std keeps none for later.
    fn flush(&mut self, stop: u8)
        ensures { self.new ≡ vector_flush self.old stop }
    {
        self.left = mem::replace(&mut self.kept, Sums::new(self.alloc)).into_pairs();
        self.put_next(stop);
    }

    #[inline]
    fn took(&mut self, t: Token) -> Result<(), AllocError>
        ensures ok { OnOk result (self.new ≡ vector_steps.took self.old t) }
        ensures err { OnErr result (self.new ≡ self.old) }
    {
        match self.phase {
            VectorPhase::Coordinate => self.phase = after_coordinate(t),
            VectorPhase::Value(coordinate) => {
                self.kept.add(coordinate, t.value())?;
                self.phase = VectorPhase::Coordinate;
            }
            VectorPhase::Stopping(0) => self.phase = VectorPhase::Coordinate,
            VectorPhase::Stopping(n) => self.flush(n - 1),
            VectorPhase::Ending => self.phase = VectorPhase::PutFirst(Token::Done),
            _ => {}
        }
        Ok(())
    }

    #[inline]
    fn put(&mut self)
        ensures { self.new ≡ vector_steps.put self.old }
    {
        match self.phase {
            VectorPhase::PutCoordinate(_, sum, stop) => self.phase = VectorPhase::PutSum(sum, stop),
            VectorPhase::PutSum(_, stop) => self.put_next(stop),
            VectorPhase::PutFirst(t) => self.phase = VectorPhase::PutSecond(t),
            VectorPhase::PutSecond(Token::Done) => self.phase = VectorPhase::Ended,
            VectorPhase::PutSecond(_) => self.phase = VectorPhase::Coordinate,
            _ => {}
        }
    }
}

impl BlockStep for VectorReducer {
    ghost kind = { λ _. SumVectorKind };

    ghost may_refuse = { λ _. true };

    ghost stands = { λ b. Stands (Runs vector_steps b) SumVectorKind };

    fn ins(&self) -> u32 {
        2
    }

    fn outs(&self) -> u32 {
        2
    }

    #[inline]
    fn wish(&self) -> Wish {
        self.phase.wants()
    }

    #[inline]
    fn take(&mut self, _port: u32, t: Token) -> Result<(), AllocError> {
        self.took(t)
    }

    #[inline]
    fn did_put(&mut self) {
        self.put();
    }

    ghost stands_fits = { λ b s n h. h.fits };

    ghost stands_within = { λ b s n h. h.within };

    ghost agrees = { λ b s r n h k a. same-wish _ _ n (moves SumVectorKind s) (moves SumVectorKind r) h.rest k.rest a };
}
