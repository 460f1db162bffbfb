//! The matrix reducer and its states.

ghost use Rattle.std.specs.Prelude.{◌≡◌, true, OnOk, OnErr};
ghost use Rattle.block_core.specs.Kind.{SumMatrixKind, moves};
ghost use Rattle.block_core.specs.Stands.{Stands, StandsAtStart};
ghost use Rattle.block_core.specs.Runs.{Runs};
ghost use Rattle.block_core.proofs.Unique.{same-wish};
ghost use Rattle.space_reducer.specs.MatrixSteps.{matrix_steps, matrix_wants, beneath_took, behind_row, matrix_last_put, row_resumed, row_kept, next_outer, row_opened, matrix_flush, matrix_next_put, matrix_ended};

use crate::sums::Sums;
use block_core::{BlockStep, Wish};
use std::alloc::{AllocError, Global};
use std::collections::BTreeMap;
use std::collections::btree_map::IntoIter;
use std::marker::Model;
use std::mem;
use stream_tokens::Token;

/// The stops behind what is put: one of the outer coordinates, and the one above it of what lies beneath.
#[derive(Clone, Copy, Drop)]
struct Stops {
    outer: u8,
    inner: u8,
}

/// How far a matrix reducer has come.
#[derive(Clone, Copy, Drop)]
enum MatrixPhase {
    /// The next token of the outer coordinates is wanted.
    Outer,
    /// The next inner coordinate under this outer one is wanted, or the stop that ends its row.
    Inner(u64),
    /// The value of this inner coordinate is wanted.
    Value(u64, u64),
    /// The row of this outer coordinate ended with this stop, and the one of the values is wanted.
    RowEnding(u64, u8),
    /// The outer fiber ends too, and its stop is wanted.
    Closing,
    /// The outer stream has no coordinate here but this token, and those beside it are wanted.
    BesideInner(Token),
    BesideValue(Token),
    /// This outer coordinate is put, and then its row.
    PutOuter(u64, Stops),
    PutInner(u64, Option<u64>, Stops),
    PutSum(Option<u64>, Stops),
    /// A row ended, and a stop is put beneath before this outer coordinate.
    BetweenInner(u64, Stops),
    BetweenSums(u64, Stops),
    /// This token is put on the outer coordinates, and the other beneath.
    PutFirst(Token, Token),
    PutSecond(Token),
    PutThird(Token),
    Ended,
}

impl MatrixPhase {
    #[inline]
    fn wants(self) -> Wish
        ensures { result ≡ matrix_wants self }
    {
        match self {
            MatrixPhase::Outer | MatrixPhase::Closing => Wish::Take(0),
            MatrixPhase::Inner(_) | MatrixPhase::BesideInner(_) => Wish::Take(1),
            MatrixPhase::Value(_, _) | MatrixPhase::RowEnding(_, _) => Wish::Take(2),
            MatrixPhase::BesideValue(_) => Wish::Take(2),
            MatrixPhase::PutOuter(outer, _) => Wish::Put(0, Token::Item(outer)),
            MatrixPhase::PutInner(inner, _, _) => Wish::Put(1, Token::Item(inner)),
            MatrixPhase::PutSum(sum, _) => Wish::Put(2, Token::from(sum)),
            MatrixPhase::BetweenInner(_, _) => Wish::Put(1, Token::Stop(0)),
            MatrixPhase::BetweenSums(_, _) => Wish::Put(2, Token::Stop(0)),
            MatrixPhase::PutFirst(t, _) => Wish::Put(0, t),
            MatrixPhase::PutSecond(t) => Wish::Put(1, t),
            MatrixPhase::PutThird(t) => Wish::Put(2, t),
            MatrixPhase::Ended => Wish::Finished,
        }
    }

    /// Where a token leads that was taken beneath this outer coordinate.
    #[inline]
    fn beneath(outer: u64, t: Token) -> MatrixPhase
        ensures { result ≡ beneath_took outer t }
    {
        match t {
            Token::Item(inner) => MatrixPhase::Value(outer, inner),
            Token::Stop(n) => MatrixPhase::RowEnding(outer, n),
            Token::Empty | Token::Done => MatrixPhase::Inner(outer),
        }
    }

    /// What comes behind a row that ended with this stop.
    #[inline]
    fn behind_row(n: u8) -> MatrixPhase
        ensures { result ≡ behind_row n }
    {
        if n == 0 {
            MatrixPhase::Outer
        } else {
            MatrixPhase::Closing
        }
    }

    /// The stops behind what is put.
    #[inline]
    fn last(stops: Stops) -> MatrixPhase
        ensures { result ≡ matrix_last_put stops }
    {
        MatrixPhase::PutFirst(Token::Stop(stops.outer), Token::Stop(stops.inner))
    }
}

/// The block that puts, for all outer fibers between two stops above 0, one fiber of their distinct outer coordinates,
/// and beneath each the distinct inner coordinates of all its fibers with the sums of their values.
///
/// It has outer coordinates at input 0, of depth d - 1, inner coordinates at input 1 and values at input 2, both of a
/// depth d of at least 3, and the same at outputs 0, 1 and 2, each of one depth less. Sums are modulo 2^64, and one over
/// absent values alone is absent. It keeps the rows of a piece in an ordered map, which a take may find no memory to
/// grow. This is the matrix reducer of the Sparse Abstract Machine.
#[derive(Drop)]
pub struct MatrixReducer {
    phase: MatrixPhase,
    /// The rows kept, by outer coordinate, but for the one that comes in.
    rows: BTreeMap<u64, Sums>,
    row: Sums,
    /// What is still to be put of the piece that ended: whole rows, and pairs of the row that is put.
    left_rows: IntoIter<u64, Sums>,
    left: IntoIter<u64, Option<u64>>,
    alloc: Global,
}

impl Model for MatrixReducer {
    ghost use Rattle.space_reducer.specs.MatrixSteps.{MatrixState};

    ghost Value = { MatrixState };

    ghost view = { λ b. record { phase = b.phase; rows = b.rows.entries; row = b.row; left_rows = b.left_rows; left = b.left } };
}

impl MatrixReducer {
    /// A matrix reducer before its first move; it takes no memory before a coordinate comes.
    pub fn new(alloc: Global) -> MatrixReducer
        ensures same_kind { ⟦<MatrixReducer as BlockStep>⟧.kind result ≡ SumMatrixKind }
        ensures may_refuse { ⟦<MatrixReducer as BlockStep>⟧.may_refuse result ≡ true }
        ensures starts { StandsAtStart (⟦<MatrixReducer as BlockStep>⟧.stands result) SumMatrixKind }
    {
        let no_rows: BTreeMap<u64, Sums> = BTreeMap::new(alloc);
        MatrixReducer {
            phase: MatrixPhase::Outer,
            rows: BTreeMap::new(alloc),
            row: Sums::new(alloc),
            left_rows: no_rows.into_iter(),
            left: Sums::new(alloc).into_pairs(),
            alloc,
        }
    }

    /// Takes out the row that was kept of this outer coordinate, or an empty one, to go on with it.
    #[inline]
    fn resume_row(&mut self, outer: u64)
        ensures { self.new ≡ row_resumed outer self.old }
    {
        self.row = match self.rows.remove(&outer) {
            Some(row) => row,
            None => Sums::new(self.alloc),
        };
        self.phase = MatrixPhase::Inner(outer);
    }

    /// Keeps the row that came in; without memory it stays as it was.
    #[inline]
    fn keep_row(&mut self, outer: u64) -> Result<(), AllocError>
        ensures ok { OnOk result (self.new ≡ row_kept outer self.old) }
        ensures err { OnErr result (self.new ≡ self.old) }
    {
        let row = mem::replace(&mut self.row, Sums::new(self.alloc));
        match self.rows.insert(outer, row) {
            Ok(_) => Ok(()),
            Err(refused) => {
                self.row = refused.value.1;
                Err(AllocError)
            }
        }
    }

    /// Brings the next row to the front, and gives its outer coordinate.
    #[inline]
    fn open_row(&mut self) -> Option<u64>
        ensures outer { result ≡ next_outer self.old.left_rows }
        ensures opened { self.new ≡ row_opened self.old }
    {
        let (outer, row) = self.left_rows.next()?;
        self.left = row.into_pairs();
        Some(outer)
    }

    /// All that was kept is put, and then the stops; nothing is kept any more.
    fn flush(&mut self, stops: Stops)
        ensures { self.new ≡ matrix_flush stops self.old }
    {
        self.left_rows = mem::replace(&mut self.rows, BTreeMap::new(self.alloc)).into_iter();
        self.phase = match self.open_row() {
            Some(outer) => MatrixPhase::PutOuter(outer, stops),
            None => MatrixPhase::last(stops),
        };
    }

    /// Goes on to the next pair of the row, or the next row, or the stops behind them.
    #[inline]
    fn put_next(&mut self, stops: Stops)
        ensures { self.new ≡ matrix_next_put stops self.old }
    {
        self.phase = match self.left.next() {
            Some((inner, sum)) => MatrixPhase::PutInner(inner, sum, stops),
            None => match self.open_row() {
                Some(outer) => MatrixPhase::BetweenInner(outer, stops),
                None => MatrixPhase::last(stops),
            },
        };
    }

    /// Goes on behind the token that ended an outer fiber, or the outer stream.
    #[inline]
    fn go_on(&mut self, t: Token)
        ensures { self.new ≡ matrix_ended t self.old }
    {
        match t {
            Token::Item(_) | Token::Empty | Token::Stop(0) => self.phase = MatrixPhase::Outer,
            Token::Stop(n) => self.flush(Stops {
                outer: n - 1,
                inner: n,
            }),
            Token::Done => self.phase = MatrixPhase::PutFirst(t, t),
        }
    }

    #[inline]
    fn took(&mut self, t: Token) -> Result<(), AllocError>
        ensures ok { OnOk result (self.new ≡ matrix_steps.took self.old t) }
        ensures err { OnErr result (self.new ≡ self.old) }
    {
        match self.phase {
            MatrixPhase::Outer => match t {
                Token::Item(outer) => self.resume_row(outer),
                Token::Empty => {}
                Token::Stop(_) | Token::Done => self.phase = MatrixPhase::BesideInner(t),
            },
            MatrixPhase::Inner(outer) => self.phase = MatrixPhase::beneath(outer, t),
            MatrixPhase::Value(outer, inner) => {
                self.row.add(inner, t.value())?;
                self.phase = MatrixPhase::Inner(outer);
            }
            MatrixPhase::RowEnding(outer, n) => {
                self.keep_row(outer)?;
                self.phase = MatrixPhase::behind_row(n);
            }
            MatrixPhase::Closing => self.go_on(t),
            MatrixPhase::BesideInner(held) => self.phase = MatrixPhase::BesideValue(held),
            MatrixPhase::BesideValue(held) => self.go_on(held),
            _ => {}
        }
        Ok(())
    }

    #[inline]
    fn put(&mut self)
        ensures { self.new ≡ matrix_steps.put self.old }
    {
        match self.phase {
            MatrixPhase::PutOuter(_, stops) => self.put_next(stops),
            MatrixPhase::PutInner(_, sum, stops) => self.phase = MatrixPhase::PutSum(sum, stops),
            MatrixPhase::PutSum(_, stops) => self.put_next(stops),
            MatrixPhase::BetweenInner(outer, stops) => self.phase = MatrixPhase::BetweenSums(
                outer, stops,
            ),
            MatrixPhase::BetweenSums(outer, stops) => self.phase = MatrixPhase::PutOuter(
                outer, stops,
            ),
            MatrixPhase::PutFirst(_, beneath) => self.phase = MatrixPhase::PutSecond(beneath),
            MatrixPhase::PutSecond(t) => self.phase = MatrixPhase::PutThird(t),
            MatrixPhase::PutThird(Token::Done) => self.phase = MatrixPhase::Ended,
            MatrixPhase::PutThird(_) => self.phase = MatrixPhase::Outer,
            _ => {}
        }
    }
}

impl BlockStep for MatrixReducer {
    ghost kind = { λ _. SumMatrixKind };

    ghost may_refuse = { λ _. true };

    ghost stands = { λ b. Stands (Runs matrix_steps b) SumMatrixKind };

    fn ins(&self) -> u32 {
        3
    }

    fn outs(&self) -> u32 {
        3
    }

    #[inline]
    fn wish(&self) -> Wish {
        self.phase.wants()
    }

    #[inline]
    fn take(&mut self, _port: u32, t: Token) -> Result<(), AllocError> {
        self.took(t)
    }

    #[inline]
    fn did_put(&mut self) {
        self.put();
    }

    ghost stands_fits = { λ b s n h. h.fits };

    ghost stands_within = { λ b s n h. h.within };

    ghost agrees = { λ b s r n h k a. same-wish _ _ n (moves SumMatrixKind s) (moves SumMatrixKind r) h.rest k.rest a };
}
