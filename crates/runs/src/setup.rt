//! What the options come to for a graph.

ghost use Rattle.std.specs.Prelude.{◌<◌, ◌^◌, All, IfOk, length};
ghost use Rattle.sam_io.specs.Spans.{KeepsFiles, files_span};
ghost use Rattle.stepper.specs.Capacity.{CapacitiesFor};
ghost use Rattle.parts.specs.Parts.{gives};
ghost use Rattle.parts.specs.Answers.{Comes, ComesAlways};
ghost use Rattle.words.specs.Asked.{HasCapacities};
ghost use Rattle.runs.specs.Setups.{SetupFits, given_to, schedule_part, setup_part};

use crate::capacities::channel_capacities;
use graph::Graph;
use parts::read_file;
use sam_base::{Fault, Items, Name, Nums};
use sam_io::Files;
use schedules::schedule;
use std::alloc::Global;
use stepper::Capacities;
use words::Options;

/// The capacities of a graph's channels, and the schedule that is played before the run goes on by itself.
#[derive(Drop)]
pub struct Setup {
    pub capacities: Capacities,
    pub schedule: Nums,
}

/// The capacities that the options give the channels of a graph. `NoSuchChannel` tells the first channel that they name and the graph
/// lacks.
pub fn given_capacities(
    alloc: Global,
    g: &Graph,
    options: &Options,
) -> Result<Items<Option<u32>>, Fault>
    requires { HasCapacities options.now }
    ensures fit { IfOk result (CapacitiesFor (length g.now.channels)) }
    ensures comes { ComesAlways (gives (given_to g.now options.now)) result }
{
    channel_capacities(
        alloc,
        g.channels.len(),
        options.capacity,
        options.own.as_slice(),
    )
}

/// The schedule of a file for a graph, if one is named.
fn named_schedule<F: Files>(
    alloc: Global,
    files: &mut F,
    g: &Graph,
    name: &Option<Name>,
) -> Result<Nums, Fault>
    requires { length g.now.blocks < 2 ^ 32 }
    ensures keeps { KeepsFiles F.Files files.old files.new }
    ensures below { IfOk result (λ schedule. All (λ block. block < length g.now.blocks) schedule) }
    ensures comes { Comes (schedule_part (length g.now.blocks) name.now) (files_span F.Files files.old files.new) result }
{
    match name {
        None => Ok(Nums::new(alloc)),
        Some(name) => match read_file(alloc, files, name) {
            Err(fault) => Err(fault),
            Ok(text) => schedule(alloc, text, g.blocks.len() as u32),
        },
    }
}

/// What the options come to for a graph.
///
/// `NoSuchChannel` comes before the schedule file is read; `Missing`, `ReadFault` and `Schedule` are of that file.
pub fn run_setup<F: Files>(
    alloc: Global,
    files: &mut F,
    g: &Graph,
    options: &Options,
) -> Result<Setup, Fault>
    requires few_blocks { length g.now.blocks < 2 ^ 32 }
    requires capacities { HasCapacities options.now }
    ensures keeps { KeepsFiles F.Files files.old files.new }
    ensures fits { IfOk result (SetupFits g.now) }
    ensures comes { Comes (setup_part g.now options.now) (files_span F.Files files.old files.new) result }
{
    let each = match given_capacities(alloc, g, options) {
        Ok(each) => each,
        Err(fault) => return Err(fault),
    };
    match named_schedule(alloc, files, g, &options.schedule) {
        Err(fault) => Err(fault),
        Ok(schedule) => Ok(Setup {
            capacities: Capacities { each },
            schedule,
        }),
    }
}
