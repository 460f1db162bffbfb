//! The kind of a block, by its word, its numbers and its name.

ghost use Rattle.std.specs.Prelude.{◌≡◌};
ghost use Rattle.std.specs.List.{position};
ghost use Rattle.std.specs.Str.{bytes_eq};
ghost use Rattle.graph_reading.specs.Kinds.{tensor_named, tensor_dims, scan_with, array_with, pair_fits, plain_with, kind_with};

use graph::Kind;
use sam_model::{Program, Tensor};

/// The place of the first tensor of a name.
fn place_named(tensors: &[Tensor], name: &str) -> Option<usize>
    ensures { result ≡ position (λ tensor. bytes_eq tensor.name name.now) tensors.now }
{
    tensors
        .iter()
        .position(|tensor| tensor.name.as_bytes() == name.as_bytes())
}

/// The first tensor of a name, by its number.
fn tensor_named(p: &Program, name: &str) -> Option<u32>
    ensures { result ≡ tensor_named p.now name.now }
{
    match place_named(p.tensors.as_slice(), name) {
        Some(place) if place < 1 << 32 => Some(place as u32),
        _ => None,
    }
}

/// The dimensions of a tensor, by its number; there are none where there is no such tensor.
fn tensor_dims(p: &Program, tensor: u32) -> &[u64]
    ensures { result.now ≡ tensor_dims p.now tensor }
{
    match p.tensors.as_slice().get(tensor as usize) {
        Some(tensor) => tensor.dims.as_slice(),
        None => &[],
    }
}

fn scan_with(p: &Program, name: &str, level: u64) -> Option<Kind>
    ensures { result ≡ scan_with p.now name.now level }
{
    let tensor = tensor_named(p, name)?;
    let levels = tensor_dims(p, tensor).len() as u64;
    if 1 <= level && level <= levels && level < 256 {
        Some(Kind::Scan {
            tensor,
            level: level as u8,
        })
    } else {
        None
    }
}

fn array_with(p: &Program, name: &str) -> Option<Kind>
    ensures { result ≡ array_with p.now name.now }
{
    let tensor = tensor_named(p, name)?;
    Some(Kind::Array { tensor })
}

/// Whether there are at most eight payloads on both sides together.
fn pair_fits(left: u64, right: u64) -> bool
    ensures { result ≡ pair_fits left right }
{
    left <= 8 && right <= 8 && left + right <= 8
}

/// A kind without numbers that reads no tensor.
fn plain_with(word: &str) -> Option<Kind>
    ensures { result ≡ plain_with word.now }
{
    match word {
        "root" => Some(Kind::Root),
        "repeat" => Some(Kind::Repeat),
        "drain" => Some(Kind::Drain),
        "mul" => Some(Kind::Mul),
        "add" => Some(Kind::Add),
        "sub" => Some(Kind::Sub),
        "sumscalar" => Some(Kind::SumScalar),
        "sumvector" => Some(Kind::SumVector),
        "summatrix" => Some(Kind::SumMatrix),
        "dropvalue" => Some(Kind::DropValue),
        "dropfiber" => Some(Kind::DropFiber),
        "writevalue" => Some(Kind::WriteValue),
        _ => None,
    }
}

/// The kind with this word and these numbers; a scan or an array reads the tensor of this name.
pub(crate) fn kind_with(p: &Program, word: &str, numbers: &[u64], name: &str) -> Option<Kind>
    ensures { result ≡ kind_with p.now word.now numbers.now name.now }
{
    match word {
        "scan" => match numbers {
            [level] => scan_with(p, name, *level),
            _ => None,
        },
        "array" => match numbers {
            [] => array_with(p, name),
            _ => None,
        },
        "cast" => match numbers {
            [outs] if *outs < 1 << 32 => Some(Kind::Cast { outs: *outs as u32 }),
            _ => None,
        },
        "intersect" => match numbers {
            [left, right] if pair_fits(*left, *right) => Some(Kind::Intersect {
                left: *left as u32,
                right: *right as u32,
            }),
            _ => None,
        },
        "union" => match numbers {
            [left, right] if pair_fits(*left, *right) => Some(Kind::Union {
                left: *left as u32,
                right: *right as u32,
            }),
            _ => None,
        },
        "const" => match numbers {
            [value] => Some(Kind::Const { value: *value }),
            _ => None,
        },
        "fill" => match numbers {
            [payloads] if *payloads <= 8 => Some(Kind::Fill {
                payloads: *payloads as u32,
            }),
            _ => None,
        },
        "writelevel" => match numbers {
            [level] if *level < 256 => Some(Kind::WriteLevel {
                level: *level as u8,
            }),
            _ => None,
        },
        _ => match numbers {
            [] => plain_with(word),
            _ => None,
        },
    }
}
