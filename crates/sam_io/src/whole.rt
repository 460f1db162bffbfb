//! The two calls that read and write a whole text.

ghost use Rattle.std.specs.Prelude.{◌≡◌, ℕ, ◌+◌, ◌<◌, ◌≤◌, ◌⊎◌, [], Some, length, IfOk, OnOk, OnErr, IsErrOf};
ghost use Rattle.sam_base.specs.Causes.{Rose, HasCause};
ghost use Rattle.sam_io.specs.Outside.{Place, NoneLacks, Lacks, Tells, grown, GrewByPart, LongerThan, IsAt};
ghost use Rattle.sam_io.specs.Spans.{KeepsFiles};

use crate::outside::{Failed, Files, Opened, Sink};
use sam_base::{FILE_MOST, Name};
use std::alloc::Global;
use thiserror::Error;

/// How many bytes are asked of a file at a time.
const PIECE: usize = 65_536;

/// Why a file was not read.
#[derive(Debug, Drop, Error)]
pub enum ReadEnd {
    #[error("there is no such file")]
    Missing,
    #[error("the file can not be read")]
    Failed,
    #[error("the file has more than {FILE_MOST} bytes")]
    TooLong,
    #[error("there is no memory for the file")]
    OutOfMemory,
}

/// The bytes of a file.
///
/// `TooLong` comes exactly when one byte more was read than a file may have.
pub fn read_whole<F: Files>(alloc: Global, files: &mut F, name: &Name) -> Result<Name, ReadEnd>
    ensures keeps { KeepsFiles F.Files files.old files.new }
    ensures read { IfOk result (λ text. Tells (F.told files.old) name.now text) }
    ensures short { IfOk result (λ text. length text ≤ FILE_MOST) }
    ensures at_end { IfOk result (λ text. F.place files.new ≡ Some (name.now, length text)) }

    ensures missing { IsErrOf result ReadEnd.Missing → Rose (F.misses files.old) (F.misses files.new) }
    ensures lacks { IsErrOf result ReadEnd.Missing → Lacks (F.told files.old) name.now }
    ensures failed { IsErrOf result ReadEnd.Failed → Rose (F.faults files.old) (F.faults files.new) }
    ensures failed_at { IsErrOf result ReadEnd.Failed → IsAt name.now (F.place files.new) }
    ensures long { IsErrOf result ReadEnd.TooLong → F.place files.new ≡ Some (name.now, FILE_MOST + 1) }
    ensures over { IsErrOf result ReadEnd.TooLong → LongerThan (F.told files.old) name.now FILE_MOST }

    // want of memory may come at any byte
    ensures only_long { F.place files.new ≡ Some (name.now, FILE_MOST + 1) →
        IsErrOf result ReadEnd.TooLong ⊎ IsErrOf result ReadEnd.OutOfMemory }
{
    match files.begin(name) {
        Err(_) => Err(ReadEnd::Failed),
        Ok(Opened::Missing) => Err(ReadEnd::Missing),
        Ok(Opened::OutOfMemory) => Err(ReadEnd::OutOfMemory),
        Ok(Opened::Found) => read_begun(alloc, files, name),
    }
}

/// The bytes of the file that was just begun. Each turn takes at least one byte.
fn read_begun<F: Files>(alloc: Global, files: &mut F, name: &Name) -> Result<Name, ReadEnd>
    requires begun { F.place files.old ≡ Some (name.now, 0) }
    requires found { NoneLacks (F.told files.old) name.now }
    ensures keeps { KeepsFiles F.Files files.old files.new }
    ensures read { IfOk result (λ text. Tells (F.told files.old) name.now text) }
    ensures short { IfOk result (λ text. length text ≤ FILE_MOST) }
    ensures at_end { IfOk result (λ text. F.place files.new ≡ Some (name.now, length text)) }
    ensures present { ¬ IsErrOf result ReadEnd.Missing }
    ensures failed { IsErrOf result ReadEnd.Failed → Rose (F.faults files.old) (F.faults files.new) }
    ensures failed_at { IsErrOf result ReadEnd.Failed → IsAt name.now (F.place files.new) }
    ensures long { IsErrOf result ReadEnd.TooLong → F.place files.new ≡ Some (name.now, FILE_MOST + 1) }
    ensures over { IsErrOf result ReadEnd.TooLong → LongerThan (F.told files.old) name.now FILE_MOST }
    ensures only_long { F.place files.new ≡ Some (name.now, FILE_MOST + 1) →
        IsErrOf result ReadEnd.TooLong ⊎ IsErrOf result ReadEnd.OutOfMemory }
{
    let mut text = Name::new(alloc);
    let mut buf = [0u8; PIECE];
    'pieces: while text.len() <= FILE_MOST {
        let left = FILE_MOST + 1 - text.len();
        let want = left.min(PIECE);
        match files.next(&mut buf[..want]) {
            Err(_) => return Err(ReadEnd::Failed),
            Ok(count) => {
                if count == 0 {
                    return Ok(text);
                }
                match text.append(&buf[..count]) {
                    Err(_) => return Err(ReadEnd::OutOfMemory),
                    Ok(()) => {}
                }
            }
        }
    }
    Err(ReadEnd::TooLong)
}

/// Writes all the bytes, or a prefix of them where a write fails. Each turn writes at least one
/// byte; an empty text makes no call.
pub fn write_whole<O: Sink>(out: &mut O, bytes: &[u8]) -> Result<(), Failed>
    ensures ok { OnOk result (O.written out.new ≡ grown (O.written out.old) bytes.now) }
    ensures part { OnErr result (GrewByPart (O.written out.old) (O.written out.new) bytes.now) }
    ensures cause { HasCause (O.faults out.old) (O.faults out.new) result }
    ensures empty { bytes.now ≡ [] → out.new ≡ out.old }
{
    let mut done = 0;
    'pieces: while done < bytes.len() {
        match out.write(&bytes[done..]) {
            Err(failed) => return Err(failed),
            Ok(count) => done += count,
        }
    }
    Ok(())
}
