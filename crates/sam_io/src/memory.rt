//! Files and a sink in memory, whose calls fail by number.

ghost use Rattle.std.specs.Prelude.{◌≡◌, ◌≢◌, ℕ, ◌+◌, ◌<◌, ◌≤◌, ◌⊎◌, ◌↔◌, [], ◌++◌, length, Ok, Some, None, IfOk, OnOk, IsErr, IsTrue, is_err, is_ok, Contains};
ghost use Rattle.std.specs.Io.{ReadsAtMost};
ghost use Rattle.sam_base.specs.Causes.{Rose, HasCause};
ghost use Rattle.sam_io.specs.Outside.{Lacks, NoneLacks, NextBytes, GivesNext, advanced, grown, taken};
ghost use Rattle.sam_io.specs.Opening.{place_after, misses_name};
ghost use Rattle.sam_io.specs.Held.{raised, raised_if};
ghost use Rattle.sam_io.specs.Found.{Finds};

use crate::outside::{Failed, Files, Opened, Sink};
use sam_base::{Items, Name, Nums};
use std::alloc::{AllocError, Global};
use std::marker::Model;

/// Which file is read, and how many of its bytes were given.
#[derive(Clone, Copy)]
struct Reading {
    file: usize,
    given: usize,
}

/// Which calls fail, by their numbers; calls are counted from 1.
#[derive(Drop)]
struct Plan {
    fails: Nums,
    calls: u64,
}

impl Plan {
    fn new(fails: Nums) -> Plan
        ensures fails { result.fails ≡ fails }
        ensures calls { result.calls ≡ 0 }
    {
        Plan { fails, calls: 0 }
    }

    /// Counts a call, and tells whether it fails.
    fn fails_now(&mut self) -> bool
        ensures call { self.new.calls ≡ raised self.old.calls }
        ensures fails { IsTrue result ↔ Contains self.old.fails self.new.calls }
        ensures plan { self.new.fails ≡ self.old.fails }
    {
        self.calls = self.calls.saturating_add(1);
        self.fails.as_slice().contains(&self.calls)
    }
}

/// Files in memory: names with their bytes, where the first pair of a name counts.
///
/// The calls of `begin` and `next` are counted together, from 1, and the count stands still at
/// 2^64-1. A call fails exactly where its number stands in `fails`.
#[derive(Drop)]
pub struct MemFiles {
    files: Items<(Name, Name)>,
    reading: Option<Reading>,
    piece: usize,
    plan: Plan,
    faults: u64,
    misses: u64,
}

impl Model for MemFiles {
    ghost use Rattle.std.specs.Prelude.{◌<◌};
    ghost use Rattle.sam_io.specs.Held.{HeldFiles};

    ghost Value = { HeldFiles };

    ghost use Rattle.sam_io.specs.Found.{place_by, IsPlaced};

    ghost view = { λ s. record {
      files = s.files;
      place = place_by s.files s.reading;
      piece = s.piece;
      fails = s.plan.fails;
      calls = s.plan.calls;
      faults = s.faults;
      misses = s.misses;
    } };

    ghost invariant = { λ s. (0 < s.piece) × IsPlaced s.files s.reading };
}

impl MemFiles {
    /// Files with these bytes, of which `next` gives at most `piece` at a time.
    pub fn new(files: Items<(Name, Name)>, piece: usize, fails: Nums) -> MemFiles
        requires { 0 < piece }
        ensures files { result.files ≡ files }
        ensures place { result.place ≡ None }
        ensures piece { result.piece ≡ piece }
        ensures fails { result.fails ≡ fails }
        ensures calls { result.calls ≡ 0 }
        ensures faults { result.faults ≡ 0 }
        ensures misses { result.misses ≡ 0 }
    {
        MemFiles {
            files,
            reading: None,
            piece,
            plan: Plan::new(fails),
            faults: 0,
            misses: 0,
        }
    }
}

/// The first file of a name.
fn find(files: &[(Name, Name)], name: &[u8]) -> Option<usize>
    ensures { Finds files.now name.now result }
{
    for k in 0..files.len() {
        if files[k].0.as_bytes() == name {
            return Some(k);
        }
    }
    None
}

/// Copies the next bytes, at most a piece of them, and answers how many.
fn give(bytes: &[u8], given: usize, piece: usize, buf: &mut [u8]) -> usize
    requires within { given ≤ length bytes.now }
    requires some { 0 < piece }
    requires room { 0 < length buf.old }
    ensures next { NextBytes bytes.now given result buf.new }
    ensures bound { result ≤ length buf.new }
    ensures most { result ≤ piece }
    ensures inside { given + result ≤ length bytes.now }
{
    let count = buf.len().min(piece).min(bytes.len() - given);
    buf[..count].copy_from_slice(&bytes[given..given + count]);
    count
}

impl Files for MemFiles {
    ghost told = { λ s. Some s.files };

    ghost place = { λ s. s.place };

    ghost faults = { λ s. s.faults };

    ghost misses = { λ s. s.misses };

    fn begin(&mut self, name: &Name) -> Result<Opened, Failed>
        ensures call { self.new.calls ≡ raised self.old.calls }
        ensures fails { IsErr result ↔ Contains self.old.fails self.new.calls }
        ensures memory { result ≢ Ok Opened.OutOfMemory }
        ensures faults { self.new.faults ≡ raised_if (is_err result) self.old.faults }
        ensures misses { self.new.misses ≡ raised_if (misses_name result) self.old.misses }
        ensures files { self.new.files ≡ self.old.files }
        ensures piece { self.new.piece ≡ self.old.piece }
        ensures plan { self.new.fails ≡ self.old.fails }

        // as of all files
        ensures cause { HasCause self.old.faults self.new.faults result }
        ensures later { self.old.misses ≤ self.new.misses }
        ensures lacks { result ≡ Ok Opened.Missing → Lacks (Some self.old.files) name.now }
        ensures found { result ≡ Ok Opened.Found → NoneLacks (Some self.old.files) name.now }
        ensures begun { self.new.place ≡ place_after name.now result }
    {
        self.reading = None;
        if self.plan.fails_now() {
            self.faults = self.faults.saturating_add(1);
            return Err(Failed);
        }
        match find(self.files.as_slice(), name.as_bytes()) {
            None => {
                self.misses = self.misses.saturating_add(1);
                Ok(Opened::Missing)
            }
            Some(file) => {
                self.reading = Some(Reading { file, given: 0 });
                Ok(Opened::Found)
            }
        }
    }

    fn next(&mut self, buf: &mut [u8]) -> Result<usize, Failed>
        requires { 0 < length buf.old }
        ensures call { self.new.calls ≡ raised self.old.calls }
        ensures fails { IsErr result ↔ Contains self.old.fails self.new.calls }
        ensures most { IfOk result (λ n. n ≤ self.old.piece) }
        ensures faults { self.new.faults ≡ raised_if (is_err result) self.old.faults }
        ensures misses { self.new.misses ≡ self.old.misses }
        ensures files { self.new.files ≡ self.old.files }
        ensures piece { self.new.piece ≡ self.old.piece }
        ensures plan { self.new.fails ≡ self.old.fails }

        // as of all files
        ensures cause { HasCause self.old.faults self.new.faults result }
        ensures bound { ReadsAtMost result buf.new }
        ensures moved { self.new.place ≡ advanced self.old.place result }
        ensures bytes { IfOk result (λ n. GivesNext (Some self.old.files) self.old.place n buf.new) }
        ensures idle { self.old.place ≡ None → IfOk result (λ n. n ≡ 0) }
        ensures idle_buf { self.old.place ≡ None → OnOk result (buf.new ≡ buf.old) }
    {
        if self.plan.fails_now() {
            self.faults = self.faults.saturating_add(1);
            return Err(Failed);
        }
        match self.reading {
            None => Ok(0),
            Some(Reading { file, given }) => {
                let bytes = self.files.get(file).1.as_bytes();
                let count = give(bytes, given, self.piece, buf);
                self.reading = Some(Reading {
                    file,
                    given: given + count,
                });
                Ok(count)
            }
        }
    }
}

/// Keeps what is written, up to its room.
///
/// Its calls are counted from 1, and the count stands still at 2^64-1. A call fails exactly where
/// its number stands in `fails`, or `room` bytes are written.
#[derive(Drop)]
pub struct MemSink {
    bytes: Vec<u8>,
    used: usize,
    piece: usize,
    plan: Plan,
    faults: u64,
}

impl Model for MemSink {
    ghost use Rattle.std.specs.Prelude.{◌<◌, ◌≤◌, length, take};
    ghost use Rattle.sam_io.specs.Held.{HeldBytes};

    ghost Value = { HeldBytes };

    ghost view = { λ s. record {
      written = take s.used s.bytes.items;
      room = length s.bytes.items;
      piece = s.piece;
      fails = s.plan.fails;
      calls = s.plan.calls;
      faults = s.faults;
    } };

    ghost invariant = { λ s. (0 < s.piece) × (s.used ≤ length s.bytes.items) };
}

impl MemSink {
    /// A sink that takes at most `piece` bytes in a call, and `room` bytes in all. Its memory is
    /// taken here.
    pub fn new(alloc: Global, room: usize, piece: usize, fails: Nums) -> Result<MemSink, AllocError>
        requires { 0 < piece }
        ensures written { IfOk result (λ sink. sink.written ≡ []) }
        ensures room { IfOk result (λ sink. sink.room ≡ room) }
        ensures piece { IfOk result (λ sink. sink.piece ≡ piece) }
        ensures fails { IfOk result (λ sink. sink.fails ≡ fails) }
        ensures calls { IfOk result (λ sink. sink.calls ≡ 0) }
        ensures faults { IfOk result (λ sink. sink.faults ≡ 0) }
    {
        let bytes = vec![in alloc; 0u8; room]?;
        Ok(MemSink {
            bytes,
            used: 0,
            piece,
            plan: Plan::new(fails),
            faults: 0,
        })
    }

    /// What was written.
    pub fn bytes(&self) -> &[u8]
        ensures { result.now ≡ self.now.written }
    {
        &self.bytes[..self.used]
    }
}

impl Sink for MemSink {
    ghost written = { λ s. Some s.written };

    ghost faults = { λ s. s.faults };

    fn write(&mut self, bytes: &[u8]) -> Result<usize, Failed>
        requires { 0 < length bytes.now }
        ensures call { self.new.calls ≡ raised self.old.calls }
        ensures fails { IsErr result ↔ (Contains self.old.fails self.new.calls ⊎ (length self.old.written ≡ self.old.room)) }
        ensures most { IfOk result (λ n. n ≤ self.old.piece) }
        ensures within { length self.new.written ≤ self.new.room }
        ensures faults { self.new.faults ≡ raised_if (is_err result) self.old.faults }
        ensures room { self.new.room ≡ self.old.room }
        ensures piece { self.new.piece ≡ self.old.piece }
        ensures plan { self.new.fails ≡ self.old.fails }

        // as of every sink
        ensures some { IfOk result (λ n. 0 < n) }
        ensures bound { IfOk result (λ n. n ≤ length bytes.now) }
        ensures appended { Some self.new.written ≡ grown (Some self.old.written) (taken bytes.now result) }
        ensures cause { HasCause self.old.faults self.new.faults result }
    {
        let left = self.bytes.len() - self.used;
        if self.plan.fails_now() || left == 0 {
            self.faults = self.faults.saturating_add(1);
            return Err(Failed);
        }
        let count = bytes.len().min(self.piece).min(left);
        let end = self.used + count;
        self.bytes[self.used..end].copy_from_slice(&bytes[..count]);
        self.used = end;
        Ok(count)
    }
}
