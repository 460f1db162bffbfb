//! Programs: a tensor statement with the tensors that it speaks of, in loop order.

use crate::expressions::Top;
use crate::tensors::Tensor;
use sam_base::{Items, Name, Nums};

/// A factor of a term: an access of a tensor, by its number, with a variable for each mode, or a number.
#[derive(Debug, Drop)]
pub enum Factor {
    Access { tensor: u32, vars: Nums },
    Literal(u64),
}

/// A product of factors, which is added or subtracted.
#[derive(Debug, Drop)]
pub struct Term {
    pub minus: bool,
    pub factors: Items<Factor>,
}

/// A statement with the tensors that it speaks of: the result at the variables of the left side is the sum of the top-level
/// terms. `terms` are the products that these expand to: their sum, each summed over its variables that aren't on the left, is
/// the same. Variable k is the k-th of the loop order, from 0.
#[derive(Debug, Drop)]
pub struct Program {
    pub tensors: Items<Tensor>,
    pub result: Tensor,
    pub left: Nums,
    pub terms: Items<Term>,
    pub tops: Items<Top>,
    pub var_names: Items<Name>,
    pub var_sizes: Nums,
}

/// A program file of several statements: a program for each, in order. The tensors of each are the declared ones and the results
/// of those before it that have dimensions. `lines` are the lines at which the statements begin, from 1.
#[derive(Debug, Drop)]
pub struct Chain {
    pub steps: Items<Program>,
    pub lines: Nums,
}
