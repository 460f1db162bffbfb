//! The command line, as `clap` reads it.

ghost use Rattle.std.specs.Prelude.{◌≡◌, IfOk, map, string_bytes, option_map, false};
ghost use Rattle.clap.specs.Words.{app_of, rule_of, new_rule, kind_of, found_of, rows_of, first_of};
ghost use Rattle.words.specs.Line.{command_line, place_rule, option_rule, flag_rule};
ghost use Rattle.words.specs.Reads.{Reads};

use crate::asking::Refusal;
use clap::error::ErrorKind;
use clap::{Arg, ArgAction, ArgMatches, Command};
use std::alloc::{AllocError, Global};

/// A word that is no option, and has to be there.
fn place<'a>(alloc: Global, name: &'a str) -> Arg<'a>
    ensures rule { rule_of result ≡ place_rule name.entry.now }
    ensures local { result.global ≡ false }
{
    Arg::new(alloc, name).required(true)
}

/// A word that is no option, and may be there.
fn place_if<'a>(alloc: Global, name: &'a str) -> Arg<'a>
    ensures rule { rule_of result ≡ new_rule name.entry.now }
    ensures local { result.global ≡ false }
{
    Arg::new(alloc, name)
}

/// An option with one value.
fn option<'a>(alloc: Global, name: &'a str) -> Arg<'a>
    ensures rule { rule_of result ≡ option_rule name.entry.now }
    ensures local { result.global ≡ false }
{
    Arg::new(alloc, name).long(name)
}

/// An option without a value.
fn flag<'a>(alloc: Global, name: &'a str) -> Arg<'a>
    ensures rule { rule_of result ≡ flag_rule name.entry.now }
    ensures local { result.global ≡ false }
{
    Arg::new(alloc, name).long(name).action(ArgAction::SetTrue)
}

/// The command line: two places, one that may be left out, three options with a value and a flag.
fn line<'a>(alloc: Global) -> Result<Command<'a>, AllocError>
    ensures { IfOk result (λ command. app_of command ≡ command_line) }
{
    Command::new(alloc, "sam")
        .no_binary_name(true)
        .arg(place(alloc, "COMMAND"))?
        .arg(place(alloc, "SUBJECT"))?
        .arg(place_if(alloc, "GRAPH"))?
        .arg(option(alloc, "capacity"))?
        .arg(option(alloc, "of"))?
        .arg(option(alloc, "schedule"))?
        .arg(flag(alloc, "fused"))
}

/// What `clap` reads of the words. All but its matches and want of memory is `Usage`, its help among them.
pub fn read<'a>(alloc: Global, words: &'a [String]) -> Result<ArgMatches<'a>, Refusal>
    ensures { Reads (map string_bytes words.entry.now) result }
{
    let command = match line(alloc) {
        Ok(command) => command,
        Err(_) => return Err(Refusal::OutOfMemory),
    };
    match command.try_get_matches_from(words) {
        Ok(matches) => Ok(matches),
        Err(error) => match error.kind() {
            ErrorKind::OutOfMemory => Err(Refusal::OutOfMemory),
            _ => Err(Refusal::Usage),
        },
    }
}

/// What is given under a name.
pub fn text<'a>(matches: &ArgMatches<'a>, name: &str) -> Option<&'a str>
    ensures { option_map (λ text. text.now) result ≡ first_of name.now (rows_of (found_of matches.now)) }
{
    matches.get_str(name)
}
