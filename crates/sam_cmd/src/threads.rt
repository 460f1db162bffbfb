//! `run`: the graph of each statement with a thread for every block.

ghost use Rattle.std.specs.Prelude.{◌≡◌, ◌≤◌, ◌∷◌, List, true, length, IfOk, IfSome};
ghost use Rattle.sam_base.specs.Each.{Each};
ghost use Rattle.sam_io.specs.Spans.{files_span};
ghost use Rattle.sam_model.specs.declared.tensors.Entries.{Entries};
ghost use Rattle.sam_model.specs.Chains.{AreChained};
ghost use Rattle.sam_model.specs.Program.{accepted};
ghost use Rattle.parts.specs.Parts.{gives};
ghost use Rattle.parts.specs.Answers.{Comes, ComesAlways};
ghost use Rattle.inputs.specs.Tensors.{AreStored};
ghost use Rattle.words.specs.Asked.{IsCapacityGiven};
ghost use Rattle.thread_runs.specs.ThreadsFor.{threads_for};
ghost use Rattle.sam_cmd.specs.Chosen.{IsChosen, chosen};
ghost use Rattle.sam_cmd.specs.Steps.{steps_part, by_threads, few_blocks};
ghost use Rattle.sam_cmd.specs.Onwards.{IsReady};
ghost use Rattle.sam_cmd.specs.Commands.{threaded_part, threads_part};

use crate::chain::{Onwards, Step, go_on};
use crate::chosen::chosen_graph;
use block_threads::Gate;
use graph::Graph;
use inputs::{chain, storages};
use sam_base::{Fault, Name};
use sam_io::Files;
use sam_model::Program;
use std::alloc::Global;
use std::sync::Wait;
use std::thread::Threads;
use thread_runs::{RUN_CAPACITY, run_threads, threads_for};
use words::Lowering;

/// Runs a statement's graph with a thread for every block, and then those of the statements behind it.
fn run_on<G: Gate + Sync, R: Threads + Wait + Sync>(
    rt: &R,
    alloc: Global,
    step: Step<'_>,
    lowering: Lowering,
    capacity: u32,
    gate: &G,
) -> Result<Name, Fault>
    requires ready { IsReady lowering step }
    requires capacity { IsCapacityGiven capacity }
    ensures { (entries : List Entries) → AreStored step.entry.program.now.tensors entries step.entry.storages →
        ComesAlways (steps_part by_threads (step.entry.program.now ∷ step.entry.later.now) entries) result }
{
    let storages = step.storages.as_slice();
    match run_threads(
        rt,
        alloc,
        step.program,
        &step.graph,
        storages,
        capacity,
        gate,
    ) {
        Err(fault) => Err(fault),
        Ok(written) => match go_on(alloc, lowering, step, written) {
            Err(fault) => Err(fault),
            Ok(Onwards::Text(text)) => Ok(text),
            Ok(Onwards::Next(next)) => run_on(rt, alloc, next, lowering, capacity, gate),
        },
    }
}

/// The graph of a program, where it may have a thread for every block.
fn threaded_graph(alloc: Global, p: &Program, lowering: Lowering) -> Result<Graph, Fault>
    requires { accepted p.now ≡ true }
    ensures chosen { IfOk result (IsChosen lowering p.now) }
    ensures comes { ComesAlways (gives (threads_for (chosen lowering p.now))) result }
{
    match chosen_graph(alloc, lowering, p) {
        Ok(graph) => threads_for(graph),
        Err(_) => Err(Fault::OutOfMemory),
    }
}

/// Whether the graph of each program may have a thread for every block; the first that may not is refused.
fn check_blocks(alloc: Global, steps: &[Program], lowering: Lowering) -> Result<(), Fault>
    requires { Each (λ p. accepted p ≡ true) steps.now }
    ensures { ComesAlways (gives (few_blocks lowering steps.now)) result }
{
    let Some((program, later)) = steps.split_first() else {
        return Ok(());
    };
    match threaded_graph(alloc, program, lowering) {
        Err(fault) => Err(fault),
        Ok(_) => check_blocks(alloc, later, lowering),
    }
}

/// Lowers the programs, reads the tensors, and runs all. There is one program at least.
fn run_steps<F: Files, G: Gate + Sync, R: Threads + Wait + Sync>(
    rt: &R,
    alloc: Global,
    files: &mut F,
    steps: &[Program],
    lowering: Lowering,
    capacity: u32,
    gate: &G,
) -> Result<Name, Fault>
    requires some { 1 ≤ length steps.now }
    requires chained { AreChained steps.now }
    requires capacity { IsCapacityGiven capacity }
    ensures { Comes (threaded_part lowering steps.now) (files_span F.Files files.old files.new) result }
{
    let Some((program, later)) = steps.split_first() else {
        unreachable!();
    };
    let graph = match threaded_graph(alloc, program, lowering) {
        Ok(graph) => graph,
        Err(fault) => return Err(fault),
    };
    match check_blocks(alloc, later, lowering) {
        Ok(()) => {}
        Err(fault) => return Err(fault),
    }
    match storages(alloc, files, program.tensors.as_slice()) {
        Err(fault) => Err(fault),
        Ok(storages) => {
            let step = Step {
                program,
                graph,
                storages,
                later,
            };
            run_on(rt, alloc, step, lowering, capacity, gate)
        }
    }
}

/// Reads the program file and the tensors, and answers the tensor that the last statement denotes, computed by threads. The capacity
/// of every channel is `RUN_CAPACITY` where none is given.
pub fn run<F: Files, G: Gate + Sync, R: Threads + Wait + Sync>(
    rt: &R,
    alloc: Global,
    files: &mut F,
    name: &Name,
    lowering: Lowering,
    capacity: Option<u32>,
    gate: &G,
) -> Result<Name, Fault>
    requires { IfSome capacity IsCapacityGiven }
    ensures { Comes (threads_part name.now lowering) (files_span F.Files files.old files.new) result }
{
    match chain(alloc, files, name) {
        Err(fault) => Err(fault),
        Ok(chain) => {
            let capacity = capacity.unwrap_or(RUN_CAPACITY);
            let steps = chain.steps.as_slice();
            run_steps(rt, alloc, files, steps, lowering, capacity, gate)
        }
    }
}
