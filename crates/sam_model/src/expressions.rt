//! Expressions: what a statement has on its right side, with parentheses and explicit sums.

use sam_base::Nums;
use std::marker::Model;

/// An expression: an access of a tensor, by its number, with a variable for each mode; a number; a product, a sum, a
/// difference or the negative of expressions; or the sum of an expression over all numbers below the size of a variable.
#[derive(Debug, Drop)]
pub enum Expr {
    Access { tensor: u32, vars: Nums },
    Literal(u64),
    Times(Box<Expr>, Box<Expr>),
    Plus(Box<Expr>, Box<Expr>),
    Minus(Box<Expr>, Box<Expr>),
    Negate(Box<Expr>),
    Sum { var: u32, body: Box<Expr> },
}

/// A top-level term of a statement: an expression that is added or subtracted, summed over its implied variables, which
/// ascend. These are the variables of its accesses that are neither on the left side nor those of a sum in it.
#[derive(Debug, Drop)]
pub struct Top {
    pub minus: bool,
    pub body: Expr,
    pub implied: Nums,
}

impl Model for Top {
    ghost use Rattle.sam_model.specs.Trees.{TopTree, tree_of};
    ghost use Rattle.sam_model.specs.TreeCode.{top_code};

    ghost Value = { TopTree };

    ghost coded = { top_code };

    ghost view = { λ t. record { minus = t.minus; body = tree_of t.body; implied = t.implied } };
}
