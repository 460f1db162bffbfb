//! The level scanner.

ghost use Rattle.std.specs.Prelude.{◌≡◌, ◌<◌, ◌+◌, [], length, get_or, false, IsTrue, IfOk, IfErr};
ghost use Rattle.block_core.specs.Bursts.{MayPour, Poured};
ghost use Rattle.block_core.specs.Kind.{ScanKind, moves};
ghost use Rattle.block_core.specs.Stands.{Stands, StandsAtStart};
ghost use Rattle.block_core.specs.Runs.{Runs};
ghost use Rattle.block_core.proofs.Unique.{same-wish};
ghost use Rattle.levels.specs.Reads.{children_at};
ghost use Rattle.scanner.specs.ScanSteps.{scan_steps, scan_wants, scan_took, scan_put, child_number, child_from, scan_called_for, is_scanned, is_scan_state};
ghost use Rattle.scanner.specs.declared.scan_state.ScanState.TheVariants.{Child};
ghost use Rattle.scanner.specs.declared.scan_state.Output.TheVariants.{Coordinates as OnCoordinates, References as OnReferences};

use crate::scan_state::Output::{self, Coordinates, References};
use crate::scan_state::ScanState;
use block_core::{BlockStep, Ports, Wish};
use levels::Storage;
use std::alloc::AllocError;
use stream_tokens::Token;

/// The level scanner of the Sparse Abstract Machine: beneath each reference of its input, of a stored prefix, lie the
/// coordinates of the prefix's children, ascending, on one output and their references on the other. The outputs are
/// one deeper than the input, so each stop is raised by one.
#[derive(Clone, Copy)]
pub struct Scanner<'a> {
    storage: &'a Storage,
    level: u8,
    state: ScanState,
    ghost counted: { 0 < level },
    ghost within: { IsTrue (is_scan_state (children_at storage.now level) state) },
}

impl<'a> Scanner<'a> {
    /// The scanner of a level of a stored tensor; levels count from 1.
    pub fn new(storage: &'a Storage, level: u8) -> Scanner<'a>
        requires { 0 < level }
        ensures same_kind { ⟦<Scanner<'a> as BlockStep>⟧.kind result ≡ ScanKind (children_at storage.now level) }
        ensures sure { ⟦<Scanner<'a> as BlockStep>⟧.may_refuse result ≡ false }
        ensures starts { StandsAtStart (⟦<Scanner<'a> as BlockStep>⟧.stands result) (ScanKind (children_at storage.now level)) }
    {
        Scanner {
            storage,
            level,
            state: ScanState::Wanting(false),
        }
    }

    /// A child's coordinate and its reference.
    #[inline]
    fn child(&self, r: u64, n: u64) -> (u64, u64)
        requires parent { r < length (children_at self.now.storage.now self.now.level) }
        requires child { n < length (get_or (children_at self.now.storage.now self.now.level) r []) }
        ensures coordinate { result.0 ≡ child_number (children_at self.now.storage.now self.now.level) OnCoordinates r n }
        ensures reference { result.1 ≡ child_number (children_at self.now.storage.now self.now.level) OnReferences r n }
    {
        self.storage.child(self.level, r, n)
    }

    /// A child's coordinate is put, and then its reference, as far as there is room. The answer says whether one was put.
    #[inline]
    fn put_child<P: Ports>(&mut self, ports: &mut P, r: u64, n: u64) -> Result<bool, AllocError>
        requires at { self.old.state ≡ Child OnCoordinates r n }
        requires may { MayPour ⟦<Scanner<'a> as BlockStep>⟧.kind ⟦<Scanner<'a> as BlockStep>⟧.stands P.fed self.old ports.old }
        ensures same_kind { ⟦<Scanner<'a> as BlockStep>⟧.kind self.new ≡ ⟦<Scanner<'a> as BlockStep>⟧.kind self.old }
        ensures same_ends { P.same ports.old ports.new }
        ensures poured { IfOk result (λ went. Poured ⟦<Scanner<'a> as BlockStep>⟧.kind ⟦<Scanner<'a> as BlockStep>⟧.stands P.fed P.did self.old ports.old self.new ports.new went) }
        ensures refused { IfErr result (λ _. Poured ⟦<Scanner<'a> as BlockStep>⟧.kind ⟦<Scanner<'a> as BlockStep>⟧.stands P.fed P.did self.old ports.old self.new ports.new false) }
    {
        let (coordinate, reference) = self.child(r, n);
        if !ports.put(0, Token::Item(coordinate))? {
            return Ok(false);
        }
        self.state = ScanState::Child(References, r, n);
        if ports.put(1, Token::Item(reference))? {
            self.state = self.child_after(r, n);
        }
        Ok(true)
    }

    /// What is put of a child on an output.
    #[inline]
    fn number(&self, output: Output, r: u64, n: u64) -> u64
        requires parent { r < length (children_at self.now.storage.now self.now.level) }
        requires child { n < length (get_or (children_at self.now.storage.now self.now.level) r []) }
        ensures { result ≡ child_number (children_at self.now.storage.now self.now.level) output r n }
    {
        let (coordinate, reference) = self.storage.child(self.level, r, n);
        match output {
            Coordinates => coordinate,
            References => reference,
        }
    }

    /// The first child of a parent, if there is one.
    #[inline]
    fn first_child(&self, r: u64) -> ScanState
        requires { r < length (children_at self.now.storage.now self.now.level) }
        ensures { result ≡ child_from (children_at self.now.storage.now self.now.level) r 0 }
    {
        if self.storage.fiber_len(self.level, r) > 0 {
            ScanState::Child(Coordinates, r, 0)
        } else {
            ScanState::Wanting(true)
        }
    }

    /// The child after this one, if there is one.
    #[inline]
    fn child_after(&self, r: u64, n: u64) -> ScanState
        requires parent { r < length (children_at self.now.storage.now self.now.level) }
        requires child { n < length (get_or (children_at self.now.storage.now self.now.level) r []) }
        ensures { result ≡ child_from (children_at self.now.storage.now self.now.level) r (n + 1) }
    {
        if self.storage.fiber_len(self.level, r) - n > 1 {
            ScanState::Child(Coordinates, r, n + 1)
        } else {
            ScanState::Wanting(true)
        }
    }

    /// What a token calls for, once no fiber before it is left to be ended.
    #[inline]
    fn called_for(&self, t: Token) -> ScanState
        requires { IsTrue (is_scanned (children_at self.now.storage.now self.now.level) t) }
        ensures { result ≡ scan_called_for (children_at self.now.storage.now self.now.level) t }
    {
        match t {
            Token::Item(r) => self.first_child(r),
            Token::Empty => ScanState::Wanting(true),
            Token::Stop(n) => ScanState::Closing(Coordinates, Token::Stop(n + 1)),
            Token::Done => ScanState::Closing(Coordinates, Token::Done),
        }
    }

    #[inline]
    fn wants(&self) -> Wish
        ensures { result ≡ scan_wants (children_at self.now.storage.now self.now.level) self.now.state }
    {
        match self.state {
            ScanState::Wanting(_) => Wish::Take(0),
            ScanState::Parting(output, _) => Wish::Put(output.port(), Token::Stop(0)),
            ScanState::Child(output, r, n) => {
                let number = self.number(output, r, n);
                Wish::Put(output.port(), Token::Item(number))
            }
            ScanState::Closing(output, t) => Wish::Put(output.port(), t),
            ScanState::Ended => Wish::Finished,
        }
    }

    #[inline]
    fn took(&self, t: Token) -> ScanState
        requires { IsTrue (is_scanned (children_at self.now.storage.now self.now.level) t) }
        ensures steps { result ≡ scan_took (children_at self.now.storage.now self.now.level) self.now.state t }
        ensures within { IsTrue (is_scan_state (children_at self.now.storage.now self.now.level) result) }
    {
        let ScanState::Wanting(more) = self.state else {
            return self.state;
        };
        match t {
            Token::Stop(_) => self.called_for(t),
            _ if more => ScanState::Parting(Coordinates, t),
            _ => self.called_for(t),
        }
    }

    #[inline]
    fn put(&self) -> ScanState
        ensures { result ≡ scan_put (children_at self.now.storage.now self.now.level) self.now.state }
    {
        match self.state {
            ScanState::Parting(Coordinates, t) => ScanState::Parting(References, t),
            ScanState::Parting(References, t) => self.called_for(t),
            ScanState::Child(Coordinates, r, n) => ScanState::Child(References, r, n),
            ScanState::Child(References, r, n) => self.child_after(r, n),
            ScanState::Closing(Coordinates, t) => ScanState::Closing(References, t),
            ScanState::Closing(References, Token::Done) => ScanState::Ended,
            ScanState::Closing(References, _) => ScanState::Wanting(false),
            other => other,
        }
    }
}

impl<'a> BlockStep for Scanner<'a> {
    ghost kind = { λ b. ScanKind (children_at b.storage.now b.level) };

    ghost may_refuse = { λ _. false };

    ghost stands = { λ b. Stands (Runs (scan_steps (children_at b.storage.now b.level)) b.state) (ScanKind (children_at b.storage.now b.level)) };

    fn ins(&self) -> u32 {
        1
    }

    fn outs(&self) -> u32 {
        2
    }

    #[inline]
    fn wish(&self) -> Wish {
        self.wants()
    }

    #[inline]
    fn take(&mut self, port: u32, t: Token) -> Result<(), AllocError> {
        self.state = self.took(t);
        Ok(())
    }

    #[inline]
    fn did_put(&mut self) {
        self.state = self.put();
    }

    // A child's two puts are made in one go.
    fn burst<P: Ports>(&mut self, ports: &mut P, most: u32) -> Result<bool, AllocError> {
        let mut went = false;
        let mut left = most;
        while left > 0 {
            let moved = match self.state {
                ScanState::Child(Coordinates, r, n) if left > 1 => {
                    left -= 2;
                    self.put_child(ports, r, n)?
                }
                _ => {
                    left -= 1;
                    self.one_by_one(ports, 1)?
                }
            };
            if !moved {
                return Ok(went);
            }
            went = true;
        }
        Ok(went)
    }

    ghost stands_fits = { λ b s n h. h.fits };

    ghost stands_within = { λ b s n h. h.within };

    ghost agrees = { λ b s r n h k a. same-wish _ _ n (moves (ScanKind (children_at b.storage.now b.level)) s) (moves (ScanKind (children_at b.storage.now b.level)) r) h.rest k.rest a };
}
