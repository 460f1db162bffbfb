//! `step`: the graph of each statement under the capacities that the options give, after a schedule where there is one.

ghost use Rattle.std.specs.Prelude.{◌≡◌, ◌<◌, ◌≤◌, [], ◌∷◌, List, true, All, length, IfOk};
ghost use Rattle.sam_io.specs.Spans.{files_span};
ghost use Rattle.sam_model.specs.declared.tensors.Entries.{Entries};
ghost use Rattle.sam_model.specs.Chains.{AreChained};
ghost use Rattle.parts.specs.Answers.{Comes, ComesAlways};
ghost use Rattle.inputs.specs.Programs.{IsRead};
ghost use Rattle.inputs.specs.Tensors.{AreStored};
ghost use Rattle.words.specs.Asked.{HasCapacities};
ghost use Rattle.runs.specs.Results.{IsOf, as_listed};
ghost use Rattle.sam_cmd.specs.Chosen.{chosen};
ghost use Rattle.sam_cmd.specs.Steps.{steps_part, under_options, under_which, hold_for_each};
ghost use Rattle.sam_cmd.specs.Onwards.{IsReady};
ghost use Rattle.sam_cmd.specs.Commands.{stepped_part, step_part};

use crate::chain::{Onwards, Step, go_on};
use crate::chosen::chosen_graph;
use inputs::{chain, many_statements, storages};
use runs::{given_capacities, run_program, run_setup};
use sam_base::{Fault, Items, Name, Nums};
use sam_io::Files;
use sam_model::{Chain, Program, Written};
use std::alloc::Global;
use stepper::Capacities;
use words::Options;

/// Runs a statement's graph on the machine, under the capacities that the options give its channels, after this schedule.
fn run_under(
    alloc: Global,
    options: &Options,
    schedule: &Nums,
    step: &Step<'_>,
) -> Result<Written, Fault>
    requires capacities { HasCapacities options.now }
    requires ready { IsReady options.now.lowering step.now }
    requires schedule { All (λ block. block < length step.now.graph.blocks) schedule.now }
    ensures of { IfOk result (IsOf step.now.program.now.result) }
    ensures comes { (entries : List Entries) → AreStored step.now.program.now.tensors entries step.now.storages →
        ComesAlways (under_options options.now step.now.program.now step.now.graph entries) (as_listed result) }
{
    let each = match given_capacities(alloc, &step.graph, options) {
        Ok(each) => each,
        Err(fault) => return Err(fault),
    };
    let capacities = Capacities { each };
    let storages = step.storages.as_slice();
    run_program(
        alloc,
        step.program,
        &step.graph,
        storages,
        &capacities,
        schedule,
    )
}

/// Runs a statement, and then those behind it.
fn step_on(alloc: Global, options: &Options, schedule: &Nums, step: Step<'_>) -> Result<Name, Fault>
    requires capacities { HasCapacities options.now }
    requires ready { IsReady options.now.lowering step }
    requires schedule { All (λ block. block < length step.graph.blocks) schedule.now }
    requires later { 1 ≤ length step.later.now → schedule.now ≡ [] }
    ensures { (entries : List Entries) → AreStored step.entry.program.now.tensors entries step.entry.storages →
        ComesAlways (steps_part (λ p. under_options options.now p (chosen options.now.lowering p))
        (step.entry.program.now ∷ step.entry.later.now) entries) result }
{
    match run_under(alloc, options, schedule, &step) {
        Err(fault) => Err(fault),
        Ok(written) => match go_on(alloc, options.lowering, step, written) {
            Err(fault) => Err(fault),
            Ok(Onwards::Text(text)) => Ok(text),
            Ok(Onwards::Next(next)) => step_on(alloc, options, schedule, next),
        },
    }
}

/// The programs of a file, unless options that name a channel or a schedule stand beside several statements.
fn steps_under(chain: Chain, options: &Options) -> Result<Items<Program>, Fault>
    requires { IsRead chain }
    ensures { result ≡ under_which options.now chain }
{
    let Chain { steps, lines } = chain;
    if steps.len() > 1 && (options.own.len() > 0 || options.schedule.is_some()) {
        return Err(many_statements(&lines));
    }
    Ok(steps)
}

/// Lowers the first program, reads what the options name and the tensors, and runs all. There is one program at least.
fn run_steps<F: Files>(
    alloc: Global,
    files: &mut F,
    steps: &[Program],
    options: &Options,
) -> Result<Name, Fault>
    requires some { 1 ≤ length steps.now }
    requires chained { AreChained steps.now }
    requires capacities { HasCapacities options.now }
    requires each { 2 ≤ length steps.now → hold_for_each options.now ≡ true }
    ensures { Comes (stepped_part options.now steps.now) (files_span F.Files files.old files.new) result }
{
    let Some((program, later)) = steps.split_first() else {
        unreachable!();
    };
    let Ok(graph) = chosen_graph(alloc, options.lowering, program) else {
        return Err(Fault::OutOfMemory);
    };
    let setup = match run_setup(alloc, files, &graph, options) {
        Ok(setup) => setup,
        Err(fault) => return Err(fault),
    };
    match storages(alloc, files, program.tensors.as_slice()) {
        Err(fault) => Err(fault),
        Ok(storages) => {
            let step = Step {
                program,
                graph,
                storages,
                later,
            };
            step_on(alloc, options, &setup.schedule, step)
        }
    }
}

/// Reads the program file, what the options name and the tensors, and answers the tensor that the last statement denotes.
pub fn step<F: Files>(
    alloc: Global,
    files: &mut F,
    name: &Name,
    options: &Options,
) -> Result<Name, Fault>
    requires { HasCapacities options.now }
    ensures { Comes (step_part name.now options.now) (files_span F.Files files.old files.new) result }
{
    let chain = match chain(alloc, files, name) {
        Ok(chain) => chain,
        Err(fault) => return Err(fault),
    };
    match steps_under(chain, options) {
        Err(fault) => Err(fault),
        Ok(steps) => run_steps(alloc, files, steps.as_slice(), options),
    }
}
