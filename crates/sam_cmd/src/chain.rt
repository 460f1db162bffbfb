//! The statements of a file, one after another: each program's graph over its tensors, and its result as a tensor of those behind it.

ghost use Rattle.std.specs.Prelude.{◌≡◌, List, true, IfOk};
ghost use Rattle.sam_model.specs.declared.tensors.Tensor.{Tensor};
ghost use Rattle.sam_model.specs.declared.tensors.Entries.{Entries};
ghost use Rattle.sam_model.specs.Accepted.{is_well_formed};
ghost use Rattle.sam_model.specs.Chains.{entries_as};
ghost use Rattle.sam_model.specs.Listing.{listing};
ghost use Rattle.parts.specs.Answers.{ComesAlways};
ghost use Rattle.inputs.specs.Tensors.{AreStored, storage_part};
ghost use Rattle.runs.specs.Results.{IsOf};
ghost use Rattle.sam_cmd.specs.Onwards.{IsPassedOn, IsReady, IsReadyOnwards, GoesOn};

use crate::chosen::chosen_graph;
use graph::Graph;
use inputs::storage;
use levels::Storage;
use runs::print_result;
use sam_base::{Fault, Items, Name};
use sam_chain::entries_of;
use sam_model::{Program, Tensor, Written};
use std::alloc::Global;
use words::Lowering;

/// A statement that is run next: its program, its graph and its tensors, and the programs of the statements behind it.
#[derive(Drop)]
pub(crate) struct Step<'a> {
    pub program: &'a Program,
    pub graph: Graph,
    pub storages: Items<Storage>,
    pub later: &'a [Program],
}

/// What comes behind a statement.
#[derive(Drop)]
pub(crate) enum Onwards<'a> {
    /// Nothing: this is the text of its result.
    Text(Name),
    Next(Step<'a>),
}

/// A result as it is stored for the statements behind it. Where too many prefixes of it would be stored it is refused by its name.
fn stored_result(alloc: Global, declared: &Tensor, w: &Written) -> Result<Storage, Fault>
    requires formed { is_well_formed declared.now ≡ true }
    requires of { IsOf declared.now w.now }
    ensures { ComesAlways (storage_part declared.now.name declared.now (entries_as declared.now (listing w.now))) result }
{
    match entries_of(alloc, declared, w) {
        Ok(entries) => storage(alloc, &entries, declared, &declared.name),
        Err(_) => Err(Fault::OutOfMemory),
    }
}

/// The tensors behind a statement: with its result, where that has dimensions.
fn passed_on(
    alloc: Global,
    storages: Items<Storage>,
    declared: &Tensor,
    w: Written,
) -> Result<Items<Storage>, Fault>
    requires formed { is_well_formed declared.now ≡ true }
    requires of { IsOf declared.now w }
    ensures { (tensors : List Tensor) (entries : List Entries) → AreStored tensors entries storages →
        IsPassedOn declared.now tensors entries (listing w) result }
{
    if declared.dims.len() == 0 {
        return Ok(storages);
    }
    match stored_result(alloc, declared, &w) {
        Err(fault) => Err(fault),
        Ok(storage) => {
            let mut storages = storages;
            match storages.push(storage) {
                Ok(()) => Ok(storages),
                Err(_) => Err(Fault::OutOfMemory),
            }
        }
    }
}

/// Goes on behind a statement with its result: the next one reads it, and of the last one it is written. What the statement took is
/// given back before.
pub(crate) fn go_on<'a>(
    alloc: Global,
    lowering: Lowering,
    step: Step<'a>,
    w: Written,
) -> Result<Onwards<'a>, Fault>
    requires ready { IsReady lowering step }
    requires of { IsOf step.program.now.result w }
    ensures ready { IfOk result (IsReadyOnwards lowering) }
    ensures comes { (entries : List Entries) → AreStored step.entry.program.now.tensors entries step.entry.storages →
        GoesOn step.entry.program.now step.entry.later.now entries (listing w) result }
{
    let Step {
        program,
        graph,
        storages,
        later,
    } = step;
    drop(graph);
    let Some((next, later)) = later.split_first() else {
        match print_result(alloc, &program.result, &w) {
            Ok(text) => return Ok(Onwards::Text(text)),
            Err(fault) => return Err(fault),
        }
    };
    match passed_on(alloc, storages, &program.result, w) {
        Err(fault) => Err(fault),
        Ok(storages) => match chosen_graph(alloc, lowering, next) {
            Err(_) => Err(Fault::OutOfMemory),
            Ok(graph) => Ok(Onwards::Next(Step {
                program: next,
                graph,
                storages,
                later,
            })),
        },
    }
}
