//! `moment`: what was sent on each channel of a program's graph when a schedule ends.

ghost use Rattle.std.specs.Prelude.{◌≡◌, true};
ghost use Rattle.sam_io.specs.Spans.{KeepsFiles, files_span};
ghost use Rattle.sam_model.specs.Program.{accepted};
ghost use Rattle.custard_lower.specs.Lowered.{Computes};
ghost use Rattle.parts.specs.Parts.{followed};
ghost use Rattle.parts.specs.Answers.{Comes};
ghost use Rattle.words.specs.Asked.{HasCapacities};
ghost use Rattle.runs.specs.Setups.{SetupFits, setup_part};
ghost use Rattle.sam_cmd.specs.Chosen.{chosen};
ghost use Rattle.sam_cmd.specs.Commands.{moment_part, sent_part};

use crate::chosen::chosen_graph;
use graph::Graph;
use inputs::{program, storages};
use runs::{Setup, run_setup};
use sam_base::{Fault, Name};
use sam_io::Files;
use sam_model::Program;
use std::alloc::Global;
use words::Options;

/// Reads the tensors, and plays the schedule.
fn over_tensors<F: Files>(
    alloc: Global,
    files: &mut F,
    p: &Program,
    g: &Graph,
    setup: &Setup,
) -> Result<Name, Fault>
    requires accepted { accepted p.now ≡ true }
    requires computes { Computes p.now g.now }
    requires fits { SetupFits g.now setup.now }
    ensures keeps { KeepsFiles F.Files files.old files.new }
    ensures comes { Comes (sent_part p.now g.now setup.now) (files_span F.Files files.old files.new) result }
{
    match storages(alloc, files, p.tensors.as_slice()) {
        Err(fault) => Err(fault),
        Ok(storages) => match traces::moment(
            alloc,
            g,
            storages.as_slice(),
            &setup.capacities,
            &setup.schedule,
        ) {
            Ok(text) => Ok(text),
            Err(_) => Err(Fault::OutOfMemory),
        },
    }
}

/// Lowers the program, and reads what the options name and the tensors.
fn under_options<F: Files>(
    alloc: Global,
    files: &mut F,
    p: &Program,
    options: &Options,
) -> Result<Name, Fault>
    requires accepted { accepted p.now ≡ true }
    requires capacities { HasCapacities options.now }
    ensures keeps { KeepsFiles F.Files files.old files.new }
    ensures comes { let g = chosen options.now.lowering p.now in
        Comes (followed (setup_part g options.now) (sent_part p.now g)) (files_span F.Files files.old files.new) result }
{
    let Ok(graph) = chosen_graph(alloc, options.lowering, p) else {
        return Err(Fault::OutOfMemory);
    };
    match run_setup(alloc, files, &graph, options) {
        Err(fault) => Err(fault),
        Ok(setup) => over_tensors(alloc, files, p, &graph, &setup),
    }
}

/// Reads the program, what the options name and the tensors, and answers what was sent when the schedule ends.
pub fn moment<F: Files>(
    alloc: Global,
    files: &mut F,
    name: &Name,
    options: &Options,
) -> Result<Name, Fault>
    requires { HasCapacities options.now }
    ensures keeps { KeepsFiles F.Files files.old files.new }
    ensures comes { Comes (moment_part name.now options.now) (files_span F.Files files.old files.new) result }
{
    match program(alloc, files, name) {
        Err(fault) => Err(fault),
        Ok(program) => under_options(alloc, files, &program, options),
    }
}
