//! Rows of files and sinks in memory, and the adapters over a real file and the standard streams.

ghost use Rattle.std.specs.Prelude.{◌<◌};

use sam_base::{FILE_MOST, Items, Name, Nums};
use sam_io::{MemFiles, MemSink, ReadEnd, Sink, SysFiles, SysSink, read_whole, write_whole};
use std::alloc::{AllocError, Global};
use std::fs;
use std::test::Fail;

fn numbers(alloc: Global, numbers: &[u64]) -> Result<Nums, AllocError> {
    Ok(Nums::from_vec(Vec::from_slice(alloc, numbers)?))
}

/// Files that hold `a` twice and an empty `b`.
fn some_files(alloc: Global, piece: usize, fails: &[u64]) -> Result<MemFiles, AllocError>
    requires { 0 < piece }
{
    let mut files = Items::new(alloc);
    for (name, bytes) in [("a", "12345"), ("b", ""), ("a", "678")] {
        let name = Name::from_slice(alloc, name.as_bytes())?;
        files.push((name, Name::from_slice(alloc, bytes.as_bytes())?))?;
    }
    Ok(MemFiles::new(files, piece, numbers(alloc, fails)?))
}

/// The bytes, or in their place a word for why there are none.
fn outcome(read: &Result<Name, ReadEnd>) -> &[u8] {
    match read {
        Ok(text) => text.as_bytes(),
        Err(ReadEnd::Missing) => b"missing",
        Err(ReadEnd::Failed) => b"failed",
        Err(ReadEnd::TooLong) => b"too long",
        Err(ReadEnd::OutOfMemory) => b"no memory",
    }
}

/// Opening is call 1. A piece of 2 takes calls 2 to 4 for five bytes and call 5 for the end.
#[test]
fn files_in_memory_are_read(rt: HostRuntime) -> Result<(), Fail> {
    let cases: [(&str, usize, &[u64], &str); 11] = [
        ("a", 2, &[], "12345"),
        ("a", 2, &[6], "12345"),
        ("a", 2, &[5], "failed"),
        ("a", 2, &[9, 1], "failed"),
        ("a", 100, &[4], "12345"),
        ("a", 100, &[3], "failed"),
        ("b", 1, &[3], ""),
        ("b", 1, &[2], "failed"),
        ("c", 1, &[2], "missing"),
        ("c", 1, &[1], "failed"),
        ("", 1, &[], "missing"),
    ];
    for (name, piece, fails, want) in cases {
        let alloc = rt.alloc();
        let mut files = some_files(alloc, piece.max(1), fails)?;
        let name = Name::from_slice(alloc, name.as_bytes())?;
        let read = read_whole(alloc, &mut files, &name);
        assert_eq!(rt; outcome(&read), want.as_bytes(), "for {want}, by {piece}");
    }
    Ok(())
}

#[test]
fn a_file_may_be_as_long_as_the_limit(rt: HostRuntime) -> Result<(), Fail> {
    for (more, want) in [(0, FILE_MOST), (1, "too long".len())] {
        let alloc = rt.alloc();
        let name = Name::from_slice(alloc, b"long")?;
        let bytes = Name::from_vec(vec![in alloc; 7u8; FILE_MOST + more]?);
        let mut files = Items::new(alloc);
        files.push((Name::from_slice(alloc, b"long")?, bytes))?;
        let mut files = MemFiles::new(files, FILE_MOST, Nums::new(alloc));
        let read = read_whole(alloc, &mut files, &name);
        assert_eq!(rt; outcome(&read).len(), want, "with {more} more");
    }
    Ok(())
}

#[test]
fn sinks_in_memory_are_written(rt: HostRuntime) -> Result<(), Fail> {
    let cases: [(usize, usize, &[u64], &str, bool, &str); 8] = [
        (10, 4, &[], "3 35\n", true, "3 35\n"),
        (10, 4, &[2], "3 35\n", false, "3 35"),
        (10, 4, &[3], "3 35\n", true, "3 35\n"),
        (5, 2, &[], "3 35\n", true, "3 35\n"),
        (3, 4, &[], "3 35\n", false, "3 3"),
        (0, 1, &[], "3", false, ""),
        (0, 1, &[1], "", true, ""),
        (9, 1, &[1], "3", false, ""),
    ];
    for (room, piece, fails, text, want, left) in cases {
        let alloc = rt.alloc();
        let mut sink = MemSink::new(alloc, room, piece.max(1), numbers(alloc, fails)?)?;
        let written = write_whole(&mut sink, text.as_bytes()).is_ok();
        assert_eq!(rt; written, want, "{text} in {room} by {piece}");
        assert_eq!(rt;
            sink.bytes(),
            left.as_bytes(),
            "{text} in {room} by {piece}"
        );
    }
    Ok(())
}

/// Only what is not found is a miss.
#[test]
fn real_files_are_read(rt: HostRuntime) -> Result<(), Fail> {
    let cases: [(&[u8], &str); 6] = [
        (b"sam_io_real_file", "3 35\n"),
        (b"sam_io_no_file", "missing"),
        (b"", "missing"),
        (b".", "failed"),
        (b"sam_io_real_file/within", "failed"),
        (b"sam_io_\xff", "failed"),
    ];
    fs::write(&rt, "sam_io_real_file", "3 35\n")?;
    let alloc = rt.alloc();
    let mut files = SysFiles::new(rt);
    for (name, want) in cases {
        let name = Name::from_slice(alloc, name)?;
        let read = read_whole(alloc, &mut files, &name);
        assert_eq!(rt; outcome(&read), want.as_bytes(), "for {want}");
    }
    fs::remove_file(&rt, "sam_io_real_file")?;
    Ok(())
}

#[test]
fn the_standard_streams_are_written(rt: HostRuntime) {
    let mut output = SysSink::output(rt.stdout());
    let mut error = SysSink::error(rt.stderr());
    assert!(rt; write_whole(&mut output, b"3 35\n").is_ok());
    assert!(rt; write_whole(&mut error, b"sam: write fault\n").is_ok());
    assert!(rt; output.write(b"x").is_ok());
}
