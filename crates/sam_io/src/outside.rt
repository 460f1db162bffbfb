//! What the outside promises: files by their names, and sinks of bytes.

ghost use Rattle.std.specs.Prelude.{◌≡◌, ℕ, ◌<◌, ◌≤◌, List, Option, None, Ok, length, IfOk, OnOk};
ghost use Rattle.std.specs.Io.{ReadsAtMost};
ghost use Rattle.sam_base.specs.Causes.{Rose, HasCause};
ghost use Rattle.sam_io.specs.Outside.{Told, Place, Lacks, NoneLacks, advanced, GivesNext, grown, taken};
ghost use Rattle.sam_io.specs.Opening.{place_after};

use sam_base::Name;

/// A file or a sink failed.
#[derive(Debug, Drop)]
pub struct Failed;

/// What became of a name that was to be opened.
#[derive(Debug, Drop)]
pub enum Opened {
    Found,
    Missing,
    OutOfMemory,
}

/// Files by their names; one of them at a time is begun, and is read piece by piece.
///
/// `told` is what is known of the content: none, or names with their bytes. `place` is the begun
/// file's name with the number of its bytes that were given. `faults` and `misses` count the calls
/// that failed and the names that were not there; both start at 0 and stand still at 2^64-1.
pub trait Files {
    ghost told: { Self → Option Told };

    ghost place: { Self → Place };

    ghost faults: { Self → ℕ };

    ghost misses: { Self → ℕ };

    /// Begins the named file at its first byte, and gives up the one that was begun before.
    fn begin(&mut self, name: &Name) -> Result<Opened, Failed>
        ensures same { told self.new ≡ told self.old }
        ensures cause { HasCause (faults self.old) (faults self.new) result }
        ensures later { misses self.old ≤ misses self.new }
        ensures missing { result ≡ Ok Opened.Missing → Rose (misses self.old) (misses self.new) }
        ensures lacks { result ≡ Ok Opened.Missing → Lacks (told self.old) name.now }
        ensures found { result ≡ Ok Opened.Found → NoneLacks (told self.old) name.now }
        ensures begun { place self.new ≡ place_after name.now result }

        // want of memory is counted neither as a fault nor as a miss
        ensures memory_faults { result ≡ Ok Opened.OutOfMemory → faults self.new ≡ faults self.old }
        ensures memory_misses { result ≡ Ok Opened.OutOfMemory → misses self.new ≡ misses self.old };

    /// Gives the next bytes of the begun file: at least one, and 0 exactly at its end.
    fn next(&mut self, buf: &mut [u8]) -> Result<usize, Failed>
        requires { 0 < length buf.old }
        ensures same { told self.new ≡ told self.old }
        ensures cause { HasCause (faults self.old) (faults self.new) result }
        ensures later { misses self.old ≤ misses self.new }
        ensures bound { ReadsAtMost result buf.new }
        ensures moved { place self.new ≡ advanced (place self.old) result }
        ensures bytes { IfOk result (λ n. GivesNext (told self.old) (place self.old) n buf.new) }

        // with no file begun it gives nothing and changes nothing
        ensures idle { place self.old ≡ None → IfOk result (λ n. n ≡ 0) }
        ensures idle_buf { place self.old ≡ None → OnOk result (buf.new ≡ buf.old) }
        ensures idle_faults { place self.old ≡ None → OnOk result (faults self.new ≡ faults self.old) }
        ensures idle_misses { place self.old ≡ None → OnOk result (misses self.new ≡ misses self.old) };
}

/// Where bytes are written.
///
/// `written` is what is known of it: none, or the bytes that were written so far. `faults` counts
/// the writes that failed; it starts at 0 and stands still at 2^64-1.
pub trait Sink {
    ghost written: { Self → Option (List ℕ) };

    ghost faults: { Self → ℕ };

    /// Appends the first bytes of a piece: at least one, and none where it fails. A device that
    /// takes 0 bytes has failed.
    fn write(&mut self, bytes: &[u8]) -> Result<usize, Failed>
        requires { 0 < length bytes.now }
        ensures some { IfOk result (λ n. 0 < n) }
        ensures bound { IfOk result (λ n. n ≤ length bytes.now) }
        ensures appended { written self.new ≡ grown (written self.old) (taken bytes.now result) }
        ensures cause { HasCause (faults self.old) (faults self.new) result };
}
