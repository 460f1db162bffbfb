//! The real files and the standard streams. They tell nothing of content, and are proved against
//! the counts alone: what a file or a terminal holds is the system's.

ghost use Rattle.std.specs.Prelude.{◌≡◌, ◌+◌, ◌<◌, ◌≤◌, None, Ok, Err, IfOk, OnOk, OnErr, length};
ghost use Rattle.std.specs.Io.{ReadsAtMost};
ghost use Rattle.sam_base.specs.Causes.{HasCause};
ghost use Rattle.sam_io.specs.Outside.{advanced};

use crate::outside::{Failed, Files, Opened, Sink};
use sam_base::Name;
use std::fs::{File, Files as FileSystem};
use std::io::{Error, ErrorKind, Read, Write};
use std::marker::Model;
use std::rt::{Stderr, Stdout};
use std::snapshot::Snapshot;
use std::str::from_utf8;

/// The file that is read. Its name is remembered for contracts alone and takes no memory.
#[derive(Drop)]
struct Begun<F> {
    file: F,
    name: Snapshot<Name>,
    given: u64,
}

impl<F: Read> Begun<F> {
    fn read(&mut self, buf: &mut [u8]) -> Result<usize, Failed>
        ensures bound { ReadsAtMost result buf.new }
        ensures name { self.new.name ≡ self.old.name }
        ensures ok { IfOk result (λ n. self.new.given ≡ self.old.given + n) }
        ensures err { OnErr result (self.new.given ≡ self.old.given) }
    {
        let Ok(count) = self.file.read(buf) else {
            return Err(Failed);
        };
        let Some(given) = self.given.checked_add(count as u64) else {
            return Err(Failed);
        };
        self.given = given;
        Ok(count)
    }
}

/// The real files. They are given the system's files, as `main`'s runtime is.
///
/// A name is a path. Only what is not found is a miss: a folder, a path that leads through a file
/// and a name that is no UTF-8 text are faults.
#[derive(Drop)]
pub struct SysFiles<R: FileSystem> {
    system: R,
    begun: Option<Begun<R::File>>,
    faults: u64,
    misses: u64,
}

impl<R: FileSystem> Model for SysFiles<R> {
    ghost use Rattle.sam_io.specs.Held.{CountedFiles};

    ghost Value = { CountedFiles };

    ghost use Rattle.sam_io.specs.Begun.{begun_place};

    ghost view = { λ s. record { place = begun_place s.begun; faults = s.faults; misses = s.misses } };
}

impl<R: FileSystem> SysFiles<R> {
    pub fn new(system: R) -> SysFiles<R>
        ensures place { result.place ≡ None }
        ensures faults { result.faults ≡ 0 }
        ensures misses { result.misses ≡ 0 }
    {
        SysFiles {
            system,
            begun: None,
            faults: 0,
            misses: 0,
        }
    }
}

impl<R: FileSystem + Drop> Files for SysFiles<R> {
    ghost told = { λ _. None };

    ghost place = { λ s. s.place };

    ghost faults = { λ s. s.faults };

    ghost misses = { λ s. s.misses };

    fn begin(&mut self, name: &Name) -> Result<Opened, Failed> {
        self.begun = None;
        let Ok(path) = from_utf8(name.as_bytes()) else {
            self.faults = self.faults.saturating_add(1);
            return Err(Failed);
        };
        match File::open(&self.system, path) {
            Ok(file) => {
                self.begun = Some(Begun {
                    file,
                    name: Snapshot::of(name),
                    given: 0,
                });
                Ok(Opened::Found)
            }
            Err(error) if error.kind() == ErrorKind::NotFound => {
                self.misses = self.misses.saturating_add(1);
                Ok(Opened::Missing)
            }
            Err(error) if error.kind() == ErrorKind::OutOfMemory => Ok(Opened::OutOfMemory),
            Err(_) => {
                self.faults = self.faults.saturating_add(1);
                Err(Failed)
            }
        }
    }

    fn next(&mut self, buf: &mut [u8]) -> Result<usize, Failed>
        requires { 0 < length buf.old }
        ensures unbegun { self.old.place ≡ None → result ≡ Ok 0 }

        // as of all files
        ensures cause { HasCause self.old.faults self.new.faults result }
        ensures later { self.old.misses ≤ self.new.misses }
        ensures bound { ReadsAtMost result buf.new }
        ensures moved { self.new.place ≡ advanced self.old.place result }
        ensures idle_buf { self.old.place ≡ None → OnOk result (buf.new ≡ buf.old) }
        ensures idle_faults { self.old.place ≡ None → OnOk result (self.new.faults ≡ self.old.faults) }
        ensures idle_misses { self.old.place ≡ None → OnOk result (self.new.misses ≡ self.old.misses) }
    {
        let Some(mut begun) = self.begun.take() else {
            return Ok(0);
        };
        let result = begun.read(buf);
        self.begun = Some(begun);
        if result.is_err() {
            self.faults = self.faults.saturating_add(1);
        }
        result
    }
}

/// The two streams that are written to.
#[derive(Drop)]
enum Stream {
    Output(Stdout),
    Error(Stderr),
}

impl Stream {
    fn write(&mut self, bytes: &[u8]) -> Result<usize, Error>
        ensures { IfOk result (λ n. n ≤ length bytes.now) }
    {
        match self {
            Stream::Output(stream) => stream.write(bytes),
            Stream::Error(stream) => stream.write(bytes),
        }
    }
}

/// Standard output or standard error. Contracts see it as its count of faults.
#[derive(Drop)]
pub struct SysSink {
    stream: Stream,
    faults: u64,
}

impl Model for SysSink {
    ghost use Rattle.std.specs.Prelude.{ℕ};

    ghost Value = { ℕ };

    ghost view = { λ s. s.faults };
}

impl SysSink {
    /// Standard output.
    pub fn output(stdout: Stdout) -> SysSink
        ensures { result ≡ 0 }
    {
        SysSink {
            stream: Stream::Output(stdout),
            faults: 0,
        }
    }

    /// Standard error.
    pub fn error(stderr: Stderr) -> SysSink
        ensures { result ≡ 0 }
    {
        SysSink {
            stream: Stream::Error(stderr),
            faults: 0,
        }
    }
}

impl Sink for SysSink {
    ghost written = { λ _. None };

    ghost faults = { λ s. s };

    fn write(&mut self, bytes: &[u8]) -> Result<usize, Failed> {
        match self.stream.write(bytes) {
            Ok(count) if count > 0 => Ok(count),
            _ => {
                self.faults = self.faults.saturating_add(1);
                Err(Failed)
            }
        }
    }
}
