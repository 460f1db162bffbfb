//! Tensors as they are declared, as they are read and as they are written.

use sam_base::{Items, Name, Nums};

/// How a level of a tensor is stored: a dense level stores its size, a compressed one its coordinates.
#[derive(Clone, Copy, Debug, PartialEq, Eq)]
pub enum Format {
    Dense,
    Compressed,
}

/// A declared tensor: its dimensions by mode, its levels' formats in storage order, and its storage order, the modes
/// from 0 with the outermost first. The file of a result is empty.
#[derive(Debug, Drop)]
pub struct Tensor {
    pub name: Name,
    pub dims: Nums,
    pub formats: Items<Format>,
    pub order: Nums,
    pub file: Name,
}

/// The entries of a tensor file in their order. Entry n has the coordinates from place `n * arity`, by mode and from 0,
/// and value n, modulo 2^64. Coordinates may repeat; their values are then summed.
#[derive(Debug, Drop)]
pub struct Entries {
    pub arity: u32,
    pub coords: Nums,
    pub values: Nums,
}

/// A result as its writers leave it: for each level the ends of its fibers, from 0, and its coordinates, and the values.
#[derive(Debug, Drop)]
pub struct Written {
    pub segs: Items<Nums>,
    pub crds: Items<Nums>,
    pub vals: Nums,
}
