//! A chain of two statements, and what is written of each.

ghost use Rattle.std.specs.Prelude.{◌≡◌, true, false, [], ◌∷◌, codes, IfOk};
ghost use Rattle.chain_tests.specs.Rows.{vector as vector_as, term as term_as, top as top_as, statement as statement_as, first as first_step, second as second_step, file as file_entries, zeros as zeros_written};

use sam_base::{Items, Name, Nums};
use sam_model::{Chain, Entries, Expr, Factor, Format, Program, Tensor, Term, Top, Written};
use std::alloc::{AllocError, Global};

/// A compressed vector of four.
pub fn vector(alloc: Global, name: &str, file: &str) -> Result<Tensor, AllocError>
    ensures { IfOk result (λ tensor. tensor ≡ vector_as name.now file.now) }
{
    Ok(Tensor {
        name: Name::from_slice(alloc, name.as_bytes())?,
        dims: Nums::from_vec(vec![in alloc; 4]?),
        formats: Items::from_vec(vec![in alloc; Format::Compressed]?),
        order: Nums::from_vec(vec![in alloc; 0]?),
        file: Name::from_slice(alloc, file.as_bytes())?,
    })
}

fn term(alloc: Global, minus: bool, tensor: u32) -> Result<Term, AllocError>
    ensures { IfOk result (λ term. term ≡ term_as minus tensor) }
{
    let factor = Factor::Access {
        tensor,
        vars: Nums::from_vec(vec![in alloc; 0]?),
    };
    Ok(Term {
        minus,
        factors: Items::from_vec(vec![in alloc; factor]?),
    })
}

fn top(alloc: Global, minus: bool, tensor: u32) -> Result<Top, AllocError>
    ensures { IfOk result (λ top. top ≡ top_as minus tensor) }
{
    Ok(Top {
        minus,
        body: Expr::Access {
            tensor,
            vars: Nums::from_vec(vec![in alloc; 0]?),
        },
        implied: Nums::new(alloc),
    })
}

/// A statement over vectors, with its result at i.
fn statement(
    alloc: Global,
    tensors: Items<Tensor>,
    listed: Tensor,
    terms: Items<Term>,
    tops: Items<Top>,
) -> Result<Program, AllocError>
    ensures { IfOk result (λ program. program ≡ statement_as tensors listed terms tops) }
{
    let i = Name::from_slice(alloc, b"i")?;
    Ok(Program {
        tensors,
        result: listed,
        left: Nums::from_vec(vec![in alloc; 0]?),
        terms,
        tops,
        var_names: Items::from_vec(vec![in alloc; i]?),
        var_sizes: Nums::from_vec(vec![in alloc; 4]?),
    })
}

fn difference_terms(alloc: Global) -> Result<Items<Term>, AllocError>
    ensures { IfOk result (λ terms. terms ≡ term_as false 0 ∷ term_as true 0 ∷ []) }
{
    let added = term(alloc, false, 0)?;
    let subtracted = term(alloc, true, 0)?;
    Ok(Items::from_vec(vec![in alloc; added, subtracted]?))
}

fn difference_tops(alloc: Global) -> Result<Items<Top>, AllocError>
    ensures { IfOk result (λ tops. tops ≡ top_as false 0 ∷ top_as true 0 ∷ []) }
{
    let added = top(alloc, false, 0)?;
    let subtracted = top(alloc, true, 0)?;
    Ok(Items::from_vec(vec![in alloc; added, subtracted]?))
}

/// `y(i) = b(i) - b(i)`
fn first(alloc: Global) -> Result<Program, AllocError>
    ensures { IfOk result (λ program. program ≡ first_step) }
{
    let b = vector(alloc, "b", "b.tns")?;
    let y = vector(alloc, "y", "")?;
    let tensors = Items::from_vec(vec![in alloc; b]?);
    let terms = difference_terms(alloc)?;
    let tops = difference_tops(alloc)?;
    statement(alloc, tensors, y, terms, tops)
}

fn second_tensors(alloc: Global) -> Result<Items<Tensor>, AllocError>
    ensures { IfOk result (λ tensors. tensors ≡ vector_as (codes "b") (codes "b.tns") ∷ vector_as (codes "y") [] ∷ []) }
{
    let b = vector(alloc, "b", "b.tns")?;
    let y = vector(alloc, "y", "")?;
    Ok(Items::from_vec(vec![in alloc; b, y]?))
}

/// `x(i) = y(i)`
fn second(alloc: Global) -> Result<Program, AllocError>
    ensures { IfOk result (λ program. program ≡ second_step) }
{
    let tensors = second_tensors(alloc)?;
    let x = vector(alloc, "x", "")?;
    let terms = Items::from_vec(vec![in alloc; term(alloc, false, 1)?]?);
    let tops = Items::from_vec(vec![in alloc; top(alloc, false, 1)?]?);
    statement(alloc, tensors, x, terms, tops)
}

/// Both, one after the other.
pub fn chain(alloc: Global) -> Result<Chain, AllocError>
    ensures { IfOk result (λ chain. chain.steps ≡ first_step ∷ second_step ∷ []) }
{
    Ok(Chain {
        steps: Items::from_vec(vec![in alloc; first(alloc)?, second(alloc)?]?),
        lines: Nums::from_vec(vec![in alloc; 2, 5]?),
    })
}

/// The entries of the file: 2 at 1 and 5 at 3.
pub fn files(alloc: Global) -> Result<Items<Entries>, AllocError>
    ensures { IfOk result (λ files. files ≡ file_entries ∷ []) }
{
    let file = Entries {
        arity: 1,
        coords: Nums::from_vec(vec![in alloc; 0, 2]?),
        values: Nums::from_vec(vec![in alloc; 2, 5]?),
    };
    Ok(Items::from_vec(vec![in alloc; file]?))
}

/// What each statement lists: 0 at 1 and at 3.
pub fn zeros(alloc: Global) -> Result<Written, AllocError>
    ensures { IfOk result (λ w. w ≡ zeros_written) }
{
    let ends = Nums::from_vec(vec![in alloc; 0, 2]?);
    let coordinates = Nums::from_vec(vec![in alloc; 0, 2]?);
    Ok(Written {
        segs: Items::from_vec(vec![in alloc; ends]?),
        crds: Items::from_vec(vec![in alloc; coordinates]?),
        vals: Nums::from_vec(vec![in alloc; 0, 0]?),
    })
}
