//! What the words ask for.

ghost use Rattle.std.specs.Prelude.{◌≡◌, ◌≤◌, [], map, string_bytes, option_map, Some, None, IfOk, IfSome, All};
ghost use Rattle.clap.specs.Words.{rows_of, found_of};
ghost use Rattle.words.specs.Line.{given_in, is_true_text};
ghost use Rattle.words.specs.Asked.{Answers, asked_of, command_alone, command_beside, command_of, options_of, has_values, without_values, without_options, given_or, lowering_of};
ghost use Rattle.words.specs.Asked.{bounded_number, capacity_of, capacity_alone, pairs_of};
ghost use Rattle.words.specs.Asked.{IsCapacityGiven, HasCapacities, IsInBounds};
ghost use Rattle.words.specs.Shown.{given_by, text_in};

use crate::line::{read, text};
use crate::numbers::{number_in, pairs};
use clap::ArgMatches;
use sam_base::{CAPACITY_MOST, Items, LARGE_MOST, Name};
use std::alloc::Global;

/// Why the words ask for nothing.
#[derive(Clone, Copy, Debug, PartialEq, Eq)]
pub enum Refusal {
    Usage,
    OutOfMemory,
}

/// How a program becomes a graph.
#[derive(Clone, Copy, Debug, Drop, PartialEq, Eq)]
pub enum Lowering {
    /// Its terms are joined where each is finished.
    Plain,
    /// Its terms are united at the scanners, level by level.
    Fused,
}

/// What is asked. A `program` is the name of a program file.
#[derive(Drop)]
pub enum Command {
    /// Whether the program is accepted.
    Check {
        program: Name,
    },
    /// The graph that the program is lowered to.
    Lower {
        program: Name,
        lowering: Lowering,
    },
    /// The whole stream of each channel.
    Streams {
        program: Name,
        lowering: Lowering,
    },
    /// The tensor that the program denotes, as the machine computes it.
    Step {
        program: Name,
        options: Options,
    },
    /// What has passed over each channel when the schedule ends.
    Moment {
        program: Name,
        options: Options,
    },
    /// The tensor that the program denotes, computed with a thread for every block. The capacity is that of every channel, from
    /// 1 to `CAPACITY_MOST`, if one is given.
    Run {
        program: Name,
        lowering: Lowering,
        capacity: Option<u32>,
    },
    /// The least capacity under which a run of the program's graph finishes.
    Size {
        program: Name,
        lowering: Lowering,
    },
    /// Whether a graph computes what the program denotes; `graph` is the name of its file.
    Verify {
        program: Name,
        graph: Name,
    },
    /// The generated workload of this number, from 1 to `LARGE_MOST`.
    Large {
        number: u32,
    },
}

/// What the options say of a run.
#[derive(Drop)]
pub struct Options {
    pub lowering: Lowering,
    /// The capacity of every channel that has none of its own, from 1 to `CAPACITY_MOST`; `None` is no limit.
    pub capacity: Option<u32>,
    /// Channels with capacities of their own, each channel once.
    pub own: Items<(u32, u32)>,
    /// The name of a schedule file.
    pub schedule: Option<Name>,
}

/// What is given under each name.
#[derive(Clone, Copy, Drop)]
pub struct Words<'a> {
    command: &'a str,
    subject: &'a str,
    graph: Option<&'a str>,
    capacity: Option<&'a str>,
    of: Option<&'a str>,
    schedule: Option<&'a str>,
    fused: bool,
}

/// Whether `clap` tells that a flag is given.
fn is_true(text: Option<&str>) -> bool
    ensures { result ≡ is_true_text (text_in text.entry) }
{
    match text {
        Some(text) => text == "true",
        None => false,
    }
}

fn words_in<'a>(matches: &ArgMatches<'a>) -> Words<'a>
    ensures { given_by result ≡ given_in (rows_of (found_of matches.now)) }
{
    Words {
        command: text(matches, "COMMAND").unwrap_or(""),
        subject: text(matches, "SUBJECT").unwrap_or(""),
        graph: text(matches, "GRAPH"),
        capacity: text(matches, "capacity"),
        of: text(matches, "of"),
        schedule: text(matches, "schedule"),
        fused: is_true(text(matches, "fused")),
    }
}

fn has_values(words: Words) -> bool
    ensures { result ≡ has_values (given_by words.entry) }
{
    words.capacity.is_some() || words.of.is_some() || words.schedule.is_some()
}

fn chosen_lowering(words: Words) -> Lowering
    ensures { result ≡ lowering_of (given_by words.entry) }
{
    if words.fused {
        Lowering::Fused
    } else {
        Lowering::Plain
    }
}

/// The capacity of all channels, if one is given.
fn capacity(text: Option<&str>) -> Result<Option<u32>, Refusal>
    ensures read { Answers (given_or None (λ text. option_map Some (capacity_of text)) (text_in text.entry)) result }
    ensures bounded { IfOk result (λ capacity. IfSome capacity IsCapacityGiven) }
{
    match text {
        None => Ok(None),
        Some(text) => match number_in(1, CAPACITY_MOST, text) {
            Some(number) => Ok(Some(number)),
            None => Err(Refusal::Usage),
        },
    }
}

/// The capacities of single channels; none where none are given.
fn channels(alloc: Global, text: Option<&str>) -> Result<Items<(u32, u32)>, Refusal>
    ensures read { Answers (given_or [] pairs_of (text_in text.entry)) result }
    ensures bounded { IfOk result (λ pairs. All (λ pair. IsCapacityGiven pair.1) pairs) }
{
    match text {
        None => Ok(Items::new(alloc)),
        Some(text) => match pairs(alloc, text) {
            Ok(Some(pairs)) => Ok(pairs),
            Ok(None) => Err(Refusal::Usage),
            Err(_) => Err(Refusal::OutOfMemory),
        },
    }
}

fn name(alloc: Global, text: &str) -> Result<Name, Refusal>
    ensures { Answers (Some text.now) result }
{
    match Name::from_slice(alloc, text.as_bytes()) {
        Ok(name) => Ok(name),
        Err(_) => Err(Refusal::OutOfMemory),
    }
}

fn name_if(alloc: Global, text: Option<&str>) -> Result<Option<Name>, Refusal>
    ensures { Answers (Some (text_in text.entry)) result }
{
    match text {
        None => Ok(None),
        Some(text) => match name(alloc, text) {
            Ok(name) => Ok(Some(name)),
            Err(refusal) => Err(refusal),
        },
    }
}

fn read_options(alloc: Global, words: Words) -> Result<Options, Refusal>
    ensures read { Answers (options_of (given_by words.entry)) result }
    ensures bounded { IfOk result HasCapacities }
{
    let capacity = capacity(words.capacity)?;
    let own = channels(alloc, words.of)?;
    let schedule = name_if(alloc, words.schedule)?;
    Ok(Options {
        lowering: chosen_lowering(words),
        capacity,
        own,
        schedule,
    })
}

/// The capacity of a command that has no other option with a value.
fn capacity_alone(words: Words) -> Result<Option<u32>, Refusal>
    ensures read { Answers (capacity_alone (given_by words.entry)) result }
    ensures bounded { IfOk result (λ capacity. IfSome capacity IsCapacityGiven) }
{
    if words.of.is_some() || words.schedule.is_some() {
        Err(Refusal::Usage)
    } else {
        capacity(words.capacity)
    }
}

/// The program of a command that has no option but the flag.
fn program_alone(alloc: Global, words: Words) -> Result<Name, Refusal>
    ensures { let given = given_by words.entry in Answers (without_values given (Some given.subject)) result }
{
    if has_values(words) {
        Err(Refusal::Usage)
    } else {
        name(alloc, words.subject)
    }
}

/// The program of a command that has no options.
fn bare_program(alloc: Global, words: Words) -> Result<Name, Refusal>
    ensures { let given = given_by words.entry in Answers (without_options given (Some given.subject)) result }
{
    if words.fused {
        Err(Refusal::Usage)
    } else {
        program_alone(alloc, words)
    }
}

/// The number of a command that has no options.
fn number_alone(words: Words) -> Result<u32, Refusal>
    ensures read { let given = given_by words.entry in Answers (without_options given (bounded_number 1 LARGE_MOST given.subject)) result }
    ensures bounded { IfOk result (λ number. (1 ≤ number) × (number ≤ LARGE_MOST)) }
{
    if words.fused || has_values(words) {
        return Err(Refusal::Usage);
    }
    match number_in(1, LARGE_MOST, words.subject) {
        Some(number) => Ok(number),
        None => Err(Refusal::Usage),
    }
}

/// The command that is given without a graph.
fn read_alone(alloc: Global, words: Words) -> Result<Command, Refusal>
    ensures read { Answers (command_alone (given_by words.entry)) result }
    ensures bounded { IfOk result IsInBounds }
{
    match words.command {
        "check" => Ok(Command::Check {
            program: bare_program(alloc, words)?,
        }),
        "lower" => Ok(Command::Lower {
            program: program_alone(alloc, words)?,
            lowering: chosen_lowering(words),
        }),
        "streams" => Ok(Command::Streams {
            program: program_alone(alloc, words)?,
            lowering: chosen_lowering(words),
        }),
        "step" => Ok(Command::Step {
            program: name(alloc, words.subject)?,
            options: read_options(alloc, words)?,
        }),
        "moment" => Ok(Command::Moment {
            program: name(alloc, words.subject)?,
            options: read_options(alloc, words)?,
        }),
        "run" => Ok(Command::Run {
            program: name(alloc, words.subject)?,
            lowering: chosen_lowering(words),
            capacity: capacity_alone(words)?,
        }),
        "size" => Ok(Command::Size {
            program: program_alone(alloc, words)?,
            lowering: chosen_lowering(words),
        }),
        "large" => Ok(Command::Large {
            number: number_alone(words)?,
        }),
        _ => Err(Refusal::Usage),
    }
}

/// The command that is given with a graph.
fn read_beside(alloc: Global, words: Words, graph: &str) -> Result<Command, Refusal>
    ensures read { Answers (command_beside (given_by words.entry) graph.now) result }
    ensures bounded { IfOk result IsInBounds }
{
    if words.command != "verify" {
        return Err(Refusal::Usage);
    }
    Ok(Command::Verify {
        program: bare_program(alloc, words)?,
        graph: name(alloc, graph)?,
    })
}

fn read_command(alloc: Global, words: Words) -> Result<Command, Refusal>
    ensures read { Answers (command_of (given_by words.entry)) result }
    ensures bounded { IfOk result IsInBounds }
{
    match words.graph {
        None => read_alone(alloc, words),
        Some(graph) => read_beside(alloc, words, graph),
    }
}

/// What the words ask for, where they are not refused.
///
/// `Usage` is answered exactly where `clap` reads no command with its subject, or a rule refuses what it reads: an unknown command,
/// a graph, an option or a flag that doesn't belong to the command, `verify` without a graph, an option whose value is out of form or bounds, a channel that is given
/// two capacities, or a number of `large` out of bounds.
pub fn read_words(alloc: Global, words: &[String]) -> Result<Command, Refusal>
    ensures read { Answers (asked_of (map string_bytes words.now)) result }
    ensures bounded { IfOk result IsInBounds }
{
    match read(alloc, words) {
        Ok(matches) => read_command(alloc, words_in(&matches)),
        Err(refusal) => Err(refusal),
    }
}
