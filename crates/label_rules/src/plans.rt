//! A term as the rules of labels and the lowering see it.

ghost use Rattle.std.specs.Prelude.{true, ◌≡◌, ◌<◌, ◌≤◌, ◌*◌, ◌%◌, ◌^◌, length, not, IfOk};
ghost use Rattle.std.specs.List.{list_any, All};
ghost use Rattle.sam_model.specs.Lists.{is_in};
ghost use Rattle.sam_model.specs.Denote.{loops_of, has_var};
ghost use Rattle.sam_model.specs.Accepted.{is_access, term_fits};
ghost use Rattle.sam_model.specs.Program.{accepted};
ghost use Rattle.stream_model.specs.Terms.{mask_of, literals_of, coefficient_of};
ghost use Rattle.label_rules.specs.Plans.{accesses_of, has_literal, plan_of, plan_access, has_loop, asked, spared, left_marks, PlanIsSmall};

use sam_base::Items;
use sam_model::{Factor, Program, Term};
use std::alloc::{AllocError, Global};

/// An access of a term: its tensor by number, and for each loop of the term whether the access has its variable.
#[derive(Debug, Drop)]
pub struct Access {
    pub tensor: u32,
    pub has: Items<bool>,
}

/// A term: for each loop whether its variable is on the left, the accesses in their order, and the product of the literals
/// where there is one.
#[derive(Debug, Drop)]
pub struct Plan {
    pub on_left: Items<bool>,
    pub accesses: Items<Access>,
    pub coefficient: Option<u64>,
}

fn is_among(v: u64, vars: &[u64]) -> bool
    ensures { result ≡ is_in v vars.now }
{
    vars.iter().any(|w| v == *w)
}

fn factor_has(v: u64, factor: &Factor) -> bool
    ensures { result ≡ has_var v factor.now }
{
    match factor {
        Factor::Access { vars, .. } => is_among(v, vars.as_slice()),
        Factor::Literal(_) => false,
    }
}

fn stands_in(v: u64, factors: &[Factor]) -> bool
    ensures { result ≡ list_any (has_var v) factors.now }
{
    factors.iter().any(|factor| factor_has(v, factor))
}

/// The variables of a term, in loop order.
fn loops(alloc: Global, p: &Program, t: &Term) -> Result<Vec<u64>, AllocError>
    ensures { IfOk result (λ vars. vars.items ≡ loops_of p.now t.now) }
{
    let factors = t.factors.as_slice();
    (0..p.var_sizes.len() as u64)
        .filter(|v| stands_in(*v, factors))
        .collect(alloc)
}

/// For each of these loops, whether its variable is among some.
fn mask(alloc: Global, loops: &[u64], vars: &[u64]) -> Result<Vec<bool>, AllocError>
    ensures { IfOk result (λ has. has.items ≡ mask_of loops.now vars.now) }
{
    loops.iter().map(|v| is_among(*v, vars)).collect(alloc)
}

fn accesses(alloc: Global, loops: &[u64], factors: &[Factor]) -> Result<Items<Access>, AllocError>
    ensures { IfOk result (λ found. found ≡ accesses_of loops.now factors.now) }
{
    let mut found = Items::new(alloc);
    for factor in factors {
        if let Factor::Access { tensor, vars } = factor {
            let has = mask(alloc, loops, vars.as_slice())?;
            found.push(Access {
                tensor: *tensor,
                has: Items::from_vec(has),
            })?;
        }
    }
    Ok(found)
}

fn is_literal(factor: &Factor) -> bool
    ensures { result ≡ not (is_access factor.now) }
{
    match factor {
        Factor::Access { .. } => false,
        Factor::Literal(_) => true,
    }
}

fn any_literal(factors: &[Factor]) -> bool
    ensures { result ≡ list_any (λ f. not (is_access f)) factors.now }
{
    factors.iter().any(|factor| is_literal(factor))
}

/// Whether a term has a literal. A minus before the first term is one.
fn is_scaled(first: bool, t: &Term) -> bool
    ensures { result ≡ has_literal first t.now }
{
    (first && t.minus) || any_literal(t.factors.as_slice())
}

/// A number times the literals among these factors.
fn times_literals(sign: u64, factors: &[Factor]) -> u64
    ensures { result ≡ (sign * literals_of factors.now) % 2 ^ 64 }
{
    let mut product = sign;
    for factor in factors {
        if let Factor::Literal(n) = factor {
            product = product.wrapping_mul(*n);
        }
    }
    product
}

fn coefficient(first: bool, t: &Term) -> u64
    ensures { result ≡ coefficient_of first t.now }
{
    let sign = if first && t.minus { u64::MAX } else { 1 };
    times_literals(sign, t.factors.as_slice())
}

/// A term, which may be the first one of its program.
fn any_plan(alloc: Global, p: &Program, first: bool, t: &Term) -> Result<Plan, AllocError>
    ensures { IfOk result (λ plan. plan ≡ plan_of p.now first t.now) }
{
    let loops = loops(alloc, p, t)?;
    let coefficient = if is_scaled(first, t) {
        Some(coefficient(first, t))
    } else {
        None
    };
    Ok(Plan {
        on_left: Items::from_vec(mask(alloc, &loops, p.left.as_slice())?),
        accesses: accesses(alloc, &loops, t.factors.as_slice())?,
        coefficient,
    })
}

/// A term of an accepted program, which may be its first one. As many of its loops are on the left as the result has levels.
pub fn term_plan(alloc: Global, p: &Program, first: bool, t: &Term) -> Result<Plan, AllocError>
    requires accepted { accepted p.now ≡ true }
    requires fits { term_fits p.now.tensors p.now.var_sizes p.now.left t.now ≡ true }
    ensures plan { IfOk result (λ plan. plan ≡ plan_of p.now first t.now) }
    ensures small { IfOk result (λ plan. PlanIsSmall plan) }
    ensures levels { IfOk result (λ plan. left_marks plan.on_left ≡ length p.now.result.order) }
{
    let plan = any_plan(alloc, p, first, t)?;
    Ok(plan)
}

impl Plan {
    pub fn access(&self, f: usize) -> &Access
        requires { f < length self.now.accesses }
        ensures { result.now ≡ plan_access self.now f }
    {
        self.accesses.get(f)
    }

    /// Whether an access has a loop; both are counted from 0.
    fn has_loop(&self, loop_number: usize, f: usize) -> bool
        ensures { result ≡ has_loop self.now loop_number f }
    {
        match self.accesses.as_slice().get(f) {
            Some(access) => access
                .has
                .as_slice()
                .get(loop_number)
                .copied()
                .unwrap_or(false),
            None => false,
        }
    }

    /// The accesses that have a loop, in their order.
    pub fn asked(&self, alloc: Global, loop_number: usize) -> Result<Vec<u8>, AllocError>
        requires few { length self.now.accesses ≤ 8 }
        ensures asked { IfOk result (λ factors. factors.items ≡ asked self.now loop_number) }
        ensures below { IfOk result (λ factors. All (λ f. f < length self.now.accesses) factors.items) }
        ensures few { IfOk result (λ factors. length factors.items ≤ length self.now.accesses) }
    {
        (0..self.accesses.len() as u8)
            .filter(|f| self.has_loop(loop_number, *f as usize))
            .collect(alloc)
    }

    /// The accesses that lack a loop, in their order.
    pub fn spared(&self, alloc: Global, loop_number: usize) -> Result<Vec<u8>, AllocError>
        requires few { length self.now.accesses ≤ 8 }
        ensures spared { IfOk result (λ factors. factors.items ≡ spared self.now loop_number) }
        ensures below { IfOk result (λ factors. All (λ f. f < length self.now.accesses) factors.items) }
        ensures few { IfOk result (λ factors. length factors.items ≤ length self.now.accesses) }
    {
        (0..self.accesses.len() as u8)
            .filter(|f| !self.has_loop(loop_number, *f as usize))
            .collect(alloc)
    }
}
