//! Transcripts: files, commands and what these answer, replayed over files and sinks in memory.
//!
//! A transcript is a text of such lines:
//!
//! - `--- NAME` begins a file, and `| TEXT` is a line of it; `|~` says that its last line has no newline;
//! - `fails file N`, `fails output N`: in the next command the call of this number fails;
//! - `$ WORD WORD ..` is a command over the files so far;
//! - behind a command stands what it answers: `> TEXT` a line on its output, `>~` where the last one has no newline, `! TEXT`
//!   a line on its errors, and `= STATUS` where the status isn't 0. A line of many objects has one a line, `>+ TEXT`.
//!   `same` stands there where it answers what the command before it did.
//!
//! Replayed, a transcript is written anew with the answers that are given. It holds where that is the same text.

use block_threads::OpenGate;
use sam_base::{Items, Name, Nums};
use sam_cmd::sam;
use sam_io::{MemFiles, MemSink};
use std::alloc::{AllocError, Global};
use std::str;
use std::sync::Wait;
use std::test::Fail;
use std::thread::Threads;

/// What a transcript has set up so far.
#[derive(Drop)]
struct Stage {
    alloc: Global,
    files: Vec<(Name, Name)>,
    file_fails: u64,
    output_fails: u64,
}

fn name(alloc: Global, text: &str) -> Result<Name, AllocError> {
    Name::from_slice(alloc, text.as_bytes())
}

fn number(text: &str) -> Result<u64, Fail> {
    match text.parse() {
        Ok(number) => Ok(number),
        Err(_) => Err(Fail::from("no number")),
    }
}

/// A sink that takes four bytes a call.
fn sink(alloc: Global, fails: u64) -> Result<MemSink, AllocError> {
    let mut calls = Nums::new(alloc);
    calls.push(fails)?;
    MemSink::new(alloc, 100_000, 4, calls)
}

fn is_answer(line: &str) -> bool {
    line.starts_with('>') || line.starts_with('!') || line.starts_with('=')
}

/// The lines of a text behind a sign.
fn push_lines(alloc: Global, told: &mut String, sign: &str, text: &str) -> Result<(), AllocError> {
    for line in text.split_terminator('\n') {
        told.push_str(sign)?;
        told.push(' ')?;
        told.push_str(line.replace(alloc, "},{", "},\n>+ {")?.as_str())?;
        told.push('\n')?;
    }
    if !text.is_empty() && !text.ends_with('\n') {
        told.push_str(sign)?;
        told.push_str("~\n")?;
    }
    Ok(())
}

impl Stage {
    fn new(alloc: Global) -> Stage {
        Stage {
            alloc,
            files: Vec::new(alloc),
            file_fails: 0,
            output_fails: 0,
        }
    }

    /// The files in memory. Of two with one name the later counts.
    fn files(&self) -> Result<MemFiles, AllocError> {
        let mut files = Items::new(self.alloc);
        for (name, text) in self.files.iter().rev() {
            let name = Name::from_slice(self.alloc, name.as_bytes())?;
            files.push((name, Name::from_slice(self.alloc, text.as_bytes())?))?;
        }
        let mut calls = Nums::new(self.alloc);
        calls.push(self.file_fails)?;
        Ok(MemFiles::new(files, 100, calls))
    }

    /// Runs a command, and gives what it answers.
    fn run<R: Threads + Wait + Sync>(&mut self, rt: &R, command: &str) -> Result<String, Fail> {
        let mut told = String::new(self.alloc);
        let mut words = Vec::new(self.alloc);
        for word in command.split_terminator(' ') {
            words.push(String::from_str(self.alloc, word)?)?;
        }
        let mut files = self.files()?;
        let mut out = sink(self.alloc, self.output_fails)?;
        let mut err = sink(self.alloc, 0)?;
        let status = sam(
            rt, self.alloc, &words, &mut files, &mut out, &mut err, &OpenGate,
        );
        self.file_fails = 0;
        self.output_fails = 0;
        match (str::from_utf8(out.bytes()), str::from_utf8(err.bytes())) {
            (Ok(out), Ok(err)) => {
                push_lines(self.alloc, &mut told, ">", out)?;
                push_lines(self.alloc, &mut told, "!", err)?;
            }
            _ => return Err(Fail::from("what was written is no text")),
        }
        if status != 0 {
            told.push_str("= ")?;
            told.push_str(&format!(in self.alloc; "{status}\n")?)?;
        }
        Ok(told)
    }

    /// A line of the file that was begun last.
    fn line(&mut self, text: &str) -> Result<(), Fail> {
        match self.files.last_mut() {
            Some(file) => {
                file.1.append(text.as_bytes())?;
                file.1.push(b'\n')?;
                Ok(())
            }
            None => Err(Fail::from("no file is begun")),
        }
    }

    /// The newline of that file's last line goes.
    fn unterminated(&mut self) -> Result<(), Fail> {
        match self.files.pop() {
            Some((name, text)) => {
                let bytes = text.as_bytes();
                let kept = Name::from_slice(self.alloc, &bytes[..bytes.len().saturating_sub(1)])?;
                self.files.push((name, kept))?;
                Ok(())
            }
            None => Err(Fail::from("no file is begun")),
        }
    }

    /// Sets up what a line says that is neither a command nor an answer.
    fn set_up(&mut self, line: &str) -> Result<(), Fail> {
        if let Some(file) = line.strip_prefix("--- ") {
            self.files
                .push((name(self.alloc, file)?, Name::new(self.alloc)))?;
        } else if let Some(text) = line.strip_prefix("| ") {
            self.line(text)?;
        } else if line == "|" {
            self.line("")?;
        } else if line == "|~" {
            self.unterminated()?;
        } else if let Some(call) = line.strip_prefix("fails file ") {
            self.file_fails = number(call)?;
        } else if let Some(call) = line.strip_prefix("fails output ") {
            self.output_fails = number(call)?;
        }
        Ok(())
    }
}

/// The files of a transcript.
pub fn files_of(alloc: Global, transcript: &str) -> Result<MemFiles, Fail> {
    let mut stage = Stage::new(alloc);
    for line in transcript.split_terminator('\n') {
        stage.set_up(line)?;
    }
    Ok(stage.files()?)
}

/// The transcript with the answers that are given.
pub fn replayed<R: Threads + Wait + Sync>(
    rt: &R,
    alloc: Global,
    transcript: &str,
) -> Result<String, Fail> {
    let mut told = String::new(alloc);
    let mut stage = Stage::new(alloc);
    let mut before = String::new(alloc);
    let mut last = String::new(alloc);
    let mut is_told = true;
    for line in transcript.split_terminator('\n') {
        if is_answer(line) {
            continue;
        }
        if line == "same" && last.as_str() == before.as_str() {
            is_told = true;
        }
        if !is_told {
            told.push_str(last.as_str())?;
            is_told = true;
        }
        told.push_str(line)?;
        told.push('\n')?;
        match line.strip_prefix('$') {
            Some(command) => {
                let answer = stage.run(rt, command.strip_prefix(' ').unwrap_or(""))?;
                before = last;
                last = answer;
                is_told = false;
            }
            None => stage.set_up(line)?,
        }
    }
    if !is_told {
        told.push_str(last.as_str())?;
    }
    Ok(told)
}
