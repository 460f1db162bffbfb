//! The product of two vectors, as a program and stored tensors, and the blocks of its graph.

ghost use Rattle.std.specs.Prelude.{◌≡◌, List, true, IfOk};
ghost use Rattle.sam_model.specs.declared.tensors.Entries.{Entries};
ghost use Rattle.sam_model.specs.Program.{accepted};
ghost use Rattle.sam_model.specs.Children.{Ranked};
ghost use Rattle.graph.specs.declared.graphs.Graph.{Graph as Wired};
ghost use Rattle.graph.specs.Standing.{StandAt, start_position};
ghost use Rattle.inputs.specs.Tensors.{AreStored};
ghost use Rattle.machines.specs.Runnable.{Runnable};

use any_block::{AnyBlock, assemble};
use block_core::{BlockStep, Refusing};
use graph::Graph;
use inputs::{program, storages};
use levels::Storage;
use sam_base::{Items, Name, Nums};
use sam_io::MemFiles;
use sam_model::Program;
use std::alloc::{AllocError, Global};
use std::test::Fail;

/// The files by name.
const FILES: [(&str, &str); 3] = [
    (
        "p.sam",
        "tensor b 4 c 1 b.tns\ntensor c 4 c 1 c.tns\nresult x 4 c 1\ncompute x(i) = b(i) * c(i)\nloops i\n",
    ),
    ("b.tns", "1 2\n3 5\n"),
    ("c.tns", "3 7\n4 1\n"),
];

/// For each block of the graph, how many tokens it takes on all its inputs.
pub(crate) const TAKEN: [u64; 11] = [0, 2, 2, 16, 3, 3, 6, 6, 3, 3, 2];

/// How many tokens a block takes that isn't to refuse: more than any has.
const AMPLE: u64 = 1000;

fn files(alloc: Global) -> Result<MemFiles, AllocError> {
    let mut files = Items::new(alloc);
    for (name, text) in FILES {
        let name = Name::from_slice(alloc, name.as_bytes())?;
        files.push((name, Name::from_slice(alloc, text.as_bytes())?))?;
    }
    Ok(MemFiles::new(files, 100, Nums::new(alloc)))
}

/// The program of a product of two vectors, and these as they are stored.
pub(crate) fn product(alloc: Global) -> Result<(Program, Items<Storage>), Fail>
    ensures accepted { IfOk result (λ read. accepted read.0 ≡ true) }
    ensures stored { IfOk result (λ read. (entries : List Entries) × AreStored read.0.tensors entries read.1) }
{
    let mut files = files(alloc)?;
    let Ok(program) = program(alloc, &mut files, &Name::from_slice(alloc, b"p.sam")?) else {
        return Err(Fail::from("the program is refused"));
    };
    match storages(alloc, &mut files, program.tensors.as_slice()) {
        Ok(storages) => Ok((program, storages)),
        Err(_) => Err(Fail::from("the vectors are not stored")),
    }
}

/// The blocks, of which this one refuses after so many takes. They stand at the start where those do.
fn refusing<B: BlockStep + Drop>(
    alloc: Global,
    blocks: Vec<B>,
    refuses: usize,
    left: u64,
) -> Result<Vec<Refusing<B>>, AllocError>
    ensures { IfOk result (λ made. (storages : List Ranked) (g : Wired) → StandAt B.kind B.stands storages g start_position blocks.items
        → StandAt (λ r. B.kind r.block) (λ r. B.stands r.block) storages g start_position made.items) }
{
    let mut made = Vec::new(alloc);
    for block in blocks {
        let left = if made.len() == refuses { left } else { AMPLE };
        made.push(Refusing { block, left })?;
    }
    Ok(made)
}

/// The blocks of a graph over stored tensors, of which this one refuses after so many takes.
pub(crate) fn refusing_blocks<'a>(
    alloc: Global,
    g: &Graph,
    storages: &'a [Storage],
    refuses: usize,
    left: u64,
) -> Result<Vec<Refusing<AnyBlock<'a>>>, AllocError>
    requires { Runnable storages.now g.now }
    ensures { IfOk result (λ blocks. StandAt ⟦<Refusing<AnyBlock<'a>> as BlockStep>⟧.kind ⟦<Refusing<AnyBlock<'a>> as BlockStep>⟧.stands
        storages.now g.now start_position blocks.items) }
{
    let blocks = assemble(alloc, g, storages)?;
    refusing(alloc, blocks, refuses, left)
}
