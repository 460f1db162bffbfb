//! The program of the workload.

ghost use Rattle.std.specs.Prelude.{◌≡◌, [], ◌∷◌, IfOk};
ghost use Rattle.sam_model.specs.Trees.{Access, tree_of};
ghost use Rattle.gen_data.specs.Workload.{square, elementwise, elementwise_top, workload};

use sam_base::{Items, Name, Nums};
use sam_model::{Expr, Factor, Format, Program, Tensor, Term, Top};
use std::alloc::{AllocError, Global};

/// An operand of n rows and n columns, its rows dense and their columns compressed.
fn square(alloc: Global, name: &str, n: u64) -> Result<Tensor, AllocError>
    ensures { IfOk result (λ tensor. tensor ≡ square name.now n) }
{
    Ok(Tensor {
        name: Name::from_slice(alloc, name.as_bytes())?,
        dims: Nums::from_vec(vec![in alloc; n, n]?),
        formats: Items::from_vec(vec![in alloc; Format::Dense, Format::Compressed]?),
        order: Nums::from_vec(vec![in alloc; 0, 1]?),
        file: Name::from_slice(alloc, name.as_bytes())?,
    })
}

fn result(alloc: Global, n: u64) -> Result<Tensor, AllocError>
    ensures { IfOk result (λ tensor. tensor ≡ (workload n).result) }
{
    Ok(Tensor {
        name: Name::from_slice(alloc, b"x")?,
        dims: Nums::from_vec(vec![in alloc; n]?),
        formats: Items::from_vec(vec![in alloc; Format::Compressed]?),
        order: Nums::from_vec(vec![in alloc; 0]?),
        file: Name::new(alloc),
    })
}

fn product(alloc: Global) -> Result<Term, AllocError>
    ensures { IfOk result (λ term. term ≡ elementwise) }
{
    let left = Factor::Access {
        tensor: 0,
        vars: Nums::from_vec(vec![in alloc; 0, 1]?),
    };
    let right = Factor::Access {
        tensor: 1,
        vars: Nums::from_vec(vec![in alloc; 0, 1]?),
    };
    Ok(Term {
        minus: false,
        factors: Items::from_vec(vec![in alloc; left, right]?),
    })
}

fn operand(alloc: Global, tensor: u32) -> Result<Expr, AllocError>
    ensures { IfOk result (λ operand. tree_of operand ≡ Access tensor (0 ∷ 1 ∷ [])) }
{
    Ok(Expr::Access {
        tensor,
        vars: Nums::from_vec(vec![in alloc; 0, 1]?),
    })
}

fn product_top(alloc: Global) -> Result<Top, AllocError>
    ensures { IfOk result (λ top. top ≡ elementwise_top) }
{
    let left = Box::new(alloc, operand(alloc, 0)?)?;
    let right = Box::new(alloc, operand(alloc, 1)?)?;
    Ok(Top {
        minus: false,
        body: Expr::Times(left, right),
        implied: Nums::from_vec(vec![in alloc; 1]?),
    })
}

/// The program over matrices of n rows and columns.
pub fn program(alloc: Global, n: u64) -> Result<Program, AllocError>
    ensures { IfOk result (λ program. program ≡ workload n) }
{
    let left = square(alloc, "B", n)?;
    let right = square(alloc, "C", n)?;
    let row = Name::from_slice(alloc, b"i")?;
    let column = Name::from_slice(alloc, b"j")?;
    Ok(Program {
        tensors: Items::from_vec(vec![in alloc; left, right]?),
        result: result(alloc, n)?,
        left: Nums::from_vec(vec![in alloc; 0]?),
        terms: Items::from_vec(vec![in alloc; product(alloc)?]?),
        tops: Items::from_vec(vec![in alloc; product_top(alloc)?]?),
        var_names: Items::from_vec(vec![in alloc; row, column]?),
        var_sizes: Nums::from_vec(vec![in alloc; n, n]?),
    })
}
