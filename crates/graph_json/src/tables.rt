//! What JSON tells of a block's kind: its word, its numbers and its name.

ghost use Rattle.std.specs.Prelude.{◌≡◌, IfOk};
ghost use Rattle.serde_json.specs.View.{view};
ghost use Rattle.graph_json.specs.Tables.{kind_word, kind_numbers, kind_name, tensor_name};
ghost use Rattle.graph_json.specs.Spelled.{numbers_data};

use graph::Kind::{
    self, Add, Array, Cast, Const, Drain, DropFiber, DropValue, Fill, Intersect, Mul, Repeat, Root,
    Scan, Sub, SumMatrix, SumScalar, SumVector, Union, WriteLevel, WriteValue,
};
use sam_model::Program;
use serde_json::{Value, json};
use std::alloc::{AllocError, Global};

pub(crate) fn kind_word(kind: Kind) -> &'static str
    ensures { result.now ≡ kind_word kind }
{
    match kind {
        Root => "root",
        Scan { .. } => "scan",
        Repeat => "repeat",
        Cast { .. } => "cast",
        Drain => "drain",
        Intersect { .. } => "intersect",
        Union { .. } => "union",
        Array { .. } => "array",
        Mul => "mul",
        Add => "add",
        Sub => "sub",
        Const { .. } => "const",
        SumScalar => "sumscalar",
        SumVector => "sumvector",
        SumMatrix => "summatrix",
        DropValue => "dropvalue",
        DropFiber => "dropfiber",
        Fill { .. } => "fill",
        WriteLevel { .. } => "writelevel",
        WriteValue => "writevalue",
    }
}

/// A kind's numbers; a tensor is told by its name.
pub(crate) fn kind_numbers(alloc: Global, kind: Kind) -> Result<Value, AllocError>
    ensures { IfOk result (λ value. view value ≡ numbers_data (kind_numbers kind)) }
{
    match kind {
        Scan { level, .. } | WriteLevel { level } => json!(in alloc; [level]),
        Cast { outs } => json!(in alloc; [outs]),
        Intersect { left, right } | Union { left, right } => json!(in alloc; [left, right]),
        Const { value } => json!(in alloc; [value]),
        Fill { payloads } => json!(in alloc; [payloads]),
        _ => json!(in alloc; []),
    }
}

/// The name of a tensor, by its number; it is empty where there is none.
fn tensor_name(p: &Program, tensor: u32) -> &[u8]
    ensures { result.now ≡ tensor_name p.now tensor }
{
    match p.tensors.as_slice().get(tensor as usize) {
        Some(tensor) => tensor.name.as_bytes(),
        None => &[],
    }
}

/// The name of the tensor that a block reads, or of the result that it writes.
pub(crate) fn kind_name(p: &Program, kind: Kind) -> &[u8]
    ensures { result.now ≡ kind_name p.now kind }
{
    match kind {
        Scan { tensor, .. } | Array { tensor } => tensor_name(p, tensor),
        WriteLevel { .. } | WriteValue => p.result.name.as_bytes(),
        _ => &[],
    }
}
