//! Files at the edge of what a file may have.

use sam_base::{ENTRIES_MOST, FILE_MOST, Items, Name, Nums};
use sam_cmd::sam_serial;
use sam_io::{MemFiles, MemSink};
use std::alloc::{AllocError, Global};
use std::test::Fail;

const COPY: &[u8] = b"tensor b 4 c 1 b.tns\nresult x 4 c 1\ncompute x(i) = b(i)\nloops i\n";

fn sink(alloc: Global) -> Result<MemSink, AllocError> {
    MemSink::new(alloc, 1000, 1000, Nums::new(alloc))
}

/// What a command says over a program file, and another file `b.tns`.
fn said(alloc: Global, words: &[&str], program: Name, other: Name) -> Result<(u8, MemSink), Fail> {
    let mut list = Vec::new(alloc);
    for word in words {
        list.push(String::from_str(alloc, word)?)?;
    }
    let mut files = Items::new(alloc);
    files.push((Name::from_slice(alloc, b"p.sam")?, program))?;
    files.push((Name::from_slice(alloc, b"b.tns")?, other))?;
    let mut files = MemFiles::new(files, FILE_MOST, Nums::new(alloc));
    let mut out = sink(alloc)?;
    let mut err = sink(alloc)?;
    let status = sam_serial(alloc, &list, &mut files, &mut out, &mut err);
    Ok((status, err))
}

/// A file of newlines that is one byte too long.
fn too_long(alloc: Global) -> Result<Name, AllocError> {
    Ok(Name::from_vec(vec![in alloc; b'\n'; FILE_MOST + 1]?))
}

#[test]
fn a_file_may_be_too_long(rt: HostRuntime) -> Result<(), Fail> {
    let alloc = rt.alloc();
    let copy = Name::from_slice(alloc, COPY)?;
    let (status, err) = said(alloc, &["step", "p.sam"], copy, too_long(alloc)?)?;
    assert_eq!(rt; status, 4);
    assert_eq!(rt; err.bytes(), b"sam: b.tns line 0: FileTooLong\n".as_slice());
    Ok(())
}

#[test]
fn a_program_may_be_too_long(rt: HostRuntime) -> Result<(), Fail> {
    let alloc = rt.alloc();
    let (status, err) = said(
        alloc,
        &["step", "p.sam"],
        too_long(alloc)?,
        Name::new(alloc),
    )?;
    assert_eq!(rt; status, 3);
    assert_eq!(rt;
        err.bytes(),
        b"sam: program line 0: FileTooLong\n".as_slice()
    );
    Ok(())
}

#[test]
fn a_schedule_may_be_too_long(rt: HostRuntime) -> Result<(), Fail> {
    let alloc = rt.alloc();
    let words = ["moment", "p.sam", "--schedule", "b.tns"];
    let copy = Name::from_slice(alloc, COPY)?;
    let (status, err) = said(alloc, &words, copy, too_long(alloc)?)?;
    assert_eq!(rt; status, 3);
    assert_eq!(rt; err.bytes(), b"sam: schedule line 0\n".as_slice());
    Ok(())
}

#[test]
fn a_file_may_have_too_many_entries(rt: HostRuntime) -> Result<(), Fail> {
    let alloc = rt.alloc();
    let mut many = Name::new(alloc);
    for _ in 0..4096 {
        many.append(b"1 1\n")?;
    }
    let mut lines = Name::from_slice(alloc, b"1 1\n")?;
    for _ in 0..ENTRIES_MOST / 4096 {
        lines.append(many.as_bytes())?;
    }
    let copy = Name::from_slice(alloc, COPY)?;
    let (status, err) = said(alloc, &["step", "p.sam"], copy, lines)?;
    assert_eq!(rt; status, 4);
    assert_eq!(rt;
        err.bytes(),
        b"sam: b.tns line 4194305: TooManyEntries\n".as_slice()
    );
    Ok(())
}

/// The call that waits for nobody serves every command but `run`.
#[test]
fn run_needs_threads(rt: HostRuntime) -> Result<(), Fail> {
    let alloc = rt.alloc();
    let copy = Name::from_slice(alloc, COPY)?;
    let (status, err) = said(alloc, &["run", "p.sam"], copy, Name::new(alloc))?;
    assert_eq!(rt; status, 2);
    assert!(rt; err.bytes().starts_with(b"sam: usage: "));
    Ok(())
}

/// Capacities of the channels from 0 on, so many.
fn many_pairs(alloc: Global, pairs: u32) -> Result<String, AllocError> {
    let mut text = String::from_str(alloc, "0=1")?;
    for channel in 1..pairs {
        text.push_str(format!(in alloc; ",{channel}=1")?.as_str())?;
    }
    Ok(text)
}

/// Of a thousand channels the first that isn't there is told; the graph has six.
#[test]
fn many_channels_may_have_capacities(rt: HostRuntime) -> Result<(), Fail> {
    let alloc = rt.alloc();
    let pairs = many_pairs(alloc, 1000)?;
    let words = ["step", "p.sam", "--of", pairs.as_str()];
    let copy = Name::from_slice(alloc, COPY)?;
    let (status, err) = said(alloc, &words, copy, Name::new(alloc))?;
    assert_eq!(rt; status, 3);
    assert_eq!(rt; err.bytes(), b"sam: no channel 6\n".as_slice());
    Ok(())
}
