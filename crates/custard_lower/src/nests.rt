//! The loops of a term as blocks, level by level: scanners, intersecters and repeaters.

ghost use Rattle.std.specs.Prelude.{◌≡◌, ◌+◌, ◌*◌, ◌<◌, ◌≤◌, ◌^◌, suc, [], ◌∷◌, ◌++◌, length, map, drop, IfOk, OnOk};
ghost use Rattle.std.specs.List.{All, range_with_len};
ghost use Rattle.stream_model.specs.declared.labels.Attr.TheVariants.{Coordinate, Rank};
ghost use Rattle.stream_model.specs.Masks.{levels_before};
ghost use Rattle.custard_lower.specs.Drafts.{outputs_of};
ghost use Rattle.label_rules.specs.Masks.{factors_mask};
ghost use Rattle.label_rules.specs.Plans.{asked, PlanIsSmall};
ghost use Rattle.custard_lower.specs.Nests.{product_tree_label, placed, scan, intersect, repeat, first_met, met_with, all_met, level, nest};

use crate::drafts::Draft;
use crate::plans::NumberedPlan;
use crate::trees::TermTrees;
use graph::Kind;
use sam_base::{Items, Nums};
use std::alloc::{AllocError, Global};
use stream_model::{Attr, Label};

/// What is met so far of a level: these factors, and the outputs with the coordinates and with each factor's references.
#[derive(Drop)]
pub(crate) struct Met {
    factors: Items<u8>,
    coordinates: u64,
    references: Nums,
}

/// A draft so far, and the outputs with the final coordinates of each level and with each factor's references.
#[derive(Drop)]
pub struct Nest {
    pub made: Draft,
    pub coordinates: Nums,
    pub references: Nums,
}

/// The number whose bit f is set for each of these factors f.
pub(crate) fn mask_number(factors: &[u8]) -> u8
    requires { All (λ f. f < 8) factors.now }
    ensures { result ≡ factors_mask factors.now }
{
    let mut mask = 0u8;
    for f in factors {
        mask |= 1 << *f;
    }
    mask
}

/// A label of the product tree of a term down to a level, which these factors restrict.
fn product_label(trees: TermTrees, level: u8, factors: &[u8], attr: Attr) -> Label
    requires { All (λ f. f < 8) factors.now }
    ensures { result ≡ product_tree_label trees level factors.now attr }
{
    Label {
        tree: trees.product(level, mask_number(factors)),
        attr,
    }
}

/// The labels of the coordinates and of the references of these factors.
fn head_labels(
    alloc: Global,
    trees: TermTrees,
    level: u8,
    factors: &[u8],
) -> Result<Vec<Label>, AllocError>
    requires { All (λ f. f < 8) factors.now }
    ensures { IfOk result (λ labels. labels.items ≡ product_tree_label trees level factors.now Coordinate ∷ map (λ f. product_tree_label trees level factors.now (Rank f)) factors.now) }
{
    let mut labels = vec![in alloc; product_label(trees, level, factors, Attr::Coordinate)]?;
    for f in factors {
        labels.push(product_label(trees, level, factors, Attr::Rank(*f)))?;
    }
    Ok(labels)
}

/// How many of the first d loops an access has.
#[tactic(auto, using(crate::proofs::term::Counting::levels_further, crate::proofs::term::Counting::levels_past, crate::proofs::term::Counting::levels_few))]
fn count_levels(has: &[bool], d: usize) -> usize
    ensures count { result ≡ levels_before has.now d }
    ensures few { result ≤ d }
{
    let mut levels = 0;
    for (i, b) in has.iter().enumerate() {
        if i < d && *b {
            levels += 1;
        }
    }
    levels
}

/// So many numbers from one on.
#[tactic(auto, using(crate::proofs::term::Counting::range_more))]
fn numbers_from(alloc: Global, first: u64, count: usize) -> Result<Vec<u64>, AllocError>
    requires { first + count < 2 ^ 64 }
    ensures { IfOk result (λ numbers. numbers.items ≡ range_with_len first count) }
{
    let mut numbers = Vec::new(alloc);
    for k in 0..count as u64 {
        numbers.push(first + k)?;
    }
    Ok(numbers)
}

/// Puts outputs at the places of these factors.
fn place(references: &mut [u64], factors: &[u8], outputs: &[u64])
    requires { All (λ f. f < length references.old) factors.now }
    ensures { references.new ≡ placed references.old factors.now outputs.now }
{
    if let [f, factors @ ..] = factors {
        if let [w, outputs @ ..] = outputs {
            references[*f as usize] = *w;
            place(references, factors, outputs);
        }
    }
}

impl Met {
    /// Nothing.
    fn nothing(alloc: Global) -> Met
        ensures { result ≡ record { factors = []; coordinates = 0; references = [] } }
    {
        Met {
            factors: Items::new(alloc),
            coordinates: 0,
            references: Nums::new(alloc),
        }
    }

    /// The scanner of a factor, whose outputs are w and the next.
    fn first(alloc: Global, f: u8, w: u64) -> Result<Met, AllocError>
        requires { w + 1 < 2 ^ 64 }
        ensures { IfOk result (λ met. met ≡ record { factors = f ∷ []; coordinates = w; references = suc w ∷ [] }) }
    {
        Ok(Met {
            factors: Items::from_vec(vec![in alloc; f]?),
            coordinates: w,
            references: Nums::from_vec(vec![in alloc; w + 1]?),
        })
    }

    /// The outputs that an intersecter reads: these, and those of a scanner, which are w and the next.
    fn ins_with(&self, alloc: Global, w: u64) -> Result<Vec<u64>, AllocError>
        requires { w + 1 < 2 ^ 64 }
        ensures { IfOk result (λ ins. ins.items ≡ (self.now.coordinates ∷ self.now.references) ++ (w ∷ suc w ∷ [])) }
    {
        let mut ins = vec![in alloc; self.coordinates]?;
        ins.extend_from_slice(self.references.as_slice())?;
        ins.extend_from_slice(&[w, w + 1])?;
        Ok(ins)
    }
}

impl<'a> NumberedPlan<'a> {
    /// Scans an access's next level below d loops.
    fn scan(&self, made: &mut Draft, d: usize, references: &[u64], f: u8) -> Result<(), AllocError>
        requires small { PlanIsSmall self.now.plan.now }
        requires within { d < 8 }
        requires access { f < length self.now.plan.now.accesses }
        requires references { length references.now ≡ length self.now.plan.now.accesses }
        ensures made { OnOk result (made.new ≡ made.old ++ scan self.now.trees self.now.plan.now d references.now f ∷ []) }
        ensures count { OnOk result (outputs_of made.new ≡ outputs_of made.old + 2) }
        ensures room { OnOk result (outputs_of made.new < 2 ^ 64) }
    {
        let access = self.plan.access(f as usize);
        let level = count_levels(access.has.as_slice(), d) + 1;
        let labels = head_labels(made.alloc(), self.trees, (d + 1) as u8, &[f])?;
        let kind = Kind::Scan {
            tensor: access.tensor,
            level: level as u8,
        };
        made.emit(kind, &[references[f as usize]], &labels)?;
        Ok(())
    }

    /// Meets what is met so far with the scanner of a factor, whose outputs are w and the next.
    fn intersect(
        &self,
        made: &mut Draft,
        d: usize,
        met: Met,
        f: u8,
        w: u64,
    ) -> Result<Met, AllocError>
        requires within { d < 8 }
        requires access { f < 8 }
        requires below { All (λ g. g < 8) met.factors }
        requires few { length met.factors < 8 }
        requires room { w + 1 < 2 ^ 64 }
        ensures made { OnOk result (made.new ≡ made.old ++ intersect self.now.trees self.now.plan.now d met f w ∷ []) }
        ensures met { IfOk result (λ more. more ≡ met_with self.now.trees self.now.plan.now met f (outputs_of made.old)) }
    {
        let ins = met.ins_with(made.alloc(), w)?;
        let Met { mut factors, .. } = met;
        let payloads = factors.len();
        factors.push(f)?;
        let labels = head_labels(made.alloc(), self.trees, (d + 1) as u8, factors.as_slice())?;
        let kind = Kind::Intersect {
            left: payloads as u32,
            right: 1,
        };
        let coordinates = made.emit(kind, &ins, &labels)?;
        let references = numbers_from(made.alloc(), coordinates + 1, payloads + 1)?;
        Ok(Met {
            factors,
            coordinates,
            references: Nums::from_vec(references),
        })
    }

    /// Meets what is met so far with the scanners of these factors, whose outputs begin at w, one by one.
    #[tactic(auto, using(crate::proofs::term::Meeting::met_next))]
    fn meet_others(
        &self,
        made: &mut Draft,
        d: usize,
        met: Met,
        w: u64,
        factors: &[u8],
    ) -> Result<Met, AllocError>
        requires within { d < 8 }
        requires met_below { All (λ f. f < 8) met.factors }
        requires below { All (λ f. f < 8) factors.now }
        requires few { length met.factors + length factors.now ≤ 8 }
        requires room { w + 2 * length factors.now < 2 ^ 64 }
        ensures made { OnOk result (made.new ≡ (all_met self.now.trees self.now.plan.now d made.old met w factors.now).made) }
        ensures met { IfOk result (λ last. last ≡ (all_met self.now.trees self.now.plan.now d made.old met w factors.now).met) }
        ensures factors { IfOk result (λ last. last.factors ≡ met.factors ++ factors.now) }
    {
        let mut met = met;
        let mut next = w;
        for f in factors {
            met = self.intersect(made, d, met, *f, next)?;
            next += 2;
        }
        Ok(met)
    }

    /// Meets the scanners of these factors, whose outputs begin at w.
    fn meet(&self, made: &mut Draft, d: usize, w: u64, factors: &[u8]) -> Result<Met, AllocError>
        requires within { d < 8 }
        requires below { All (λ f. f < 8) factors.now }
        requires few { length factors.now ≤ 8 }
        requires room { w + 2 * length factors.now < 2 ^ 64 }
        ensures made { OnOk result (made.new ≡ (all_met self.now.trees self.now.plan.now d made.old (first_met self.now.trees self.now.plan.now factors.now w) (suc (suc w)) (drop 1 factors.now)).made) }
        ensures met { IfOk result (λ met. met ≡ (all_met self.now.trees self.now.plan.now d made.old (first_met self.now.trees self.now.plan.now factors.now w) (suc (suc w)) (drop 1 factors.now)).met) }
        ensures factors { IfOk result (λ met. met.factors ≡ factors.now) }
    {
        match factors {
            [] => Ok(Met::nothing(made.alloc())),
            [first, others @ ..] => {
                let met = Met::first(made.alloc(), *first, w)?;
                self.meet_others(made, d, met, w + 2, others)
            }
        }
    }

    /// Repeats the references of an access that lacks the loop below d others, at what is met there.
    fn repeat(
        &self,
        made: &mut Draft,
        d: usize,
        met: &Met,
        references: &[u64],
        f: u8,
    ) -> Result<(), AllocError>
        requires small { PlanIsSmall self.now.plan.now }
        requires within { d < 8 }
        requires access { f < length self.now.plan.now.accesses }
        requires references { length references.now ≡ length self.now.plan.now.accesses }
        requires asked { met.now.factors ≡ asked self.now.plan.now d }
        requires below { All (λ g. g < 8) met.now.factors }
        ensures made { OnOk result (made.new ≡ made.old ++ repeat self.now.trees self.now.plan.now d met.now.coordinates references.now f ∷ []) }
        ensures count { OnOk result (outputs_of made.new ≡ outputs_of made.old + 1) }
        ensures room { OnOk result (outputs_of made.new < 2 ^ 64) }
    {
        let label = product_label(
            self.trees,
            (d + 1) as u8,
            met.factors.as_slice(),
            Attr::Rank(f),
        );
        let ins = [met.coordinates, references[f as usize]];
        made.emit(Kind::Repeat, &ins, &[label])?;
        Ok(())
    }

    /// Scans these accesses, and gives the number of the first scanner's first output.
    fn scan_each(
        &self,
        made: &mut Draft,
        d: usize,
        references: &[u64],
        factors: &[u8],
    ) -> Result<u64, AllocError>
        requires small { PlanIsSmall self.now.plan.now }
        requires within { d < 8 }
        requires references { length references.now ≡ length self.now.plan.now.accesses }
        requires below { All (λ f. f < length self.now.plan.now.accesses) factors.now }
        ensures made { OnOk result (made.new ≡ made.old ++ map (scan self.now.trees self.now.plan.now d references.now) factors.now) }
        ensures first { IfOk result (λ w. w ≡ outputs_of made.old) }
        ensures room { IfOk result (λ w. w + 2 * length factors.now < 2 ^ 64) }
    {
        let first = made.outputs();
        for f in factors {
            self.scan(made, d, references, *f)?;
        }
        Ok(first)
    }

    /// Repeats the references of these accesses, and gives the number of the first repeater's output.
    fn repeat_each(
        &self,
        made: &mut Draft,
        d: usize,
        met: &Met,
        references: &[u64],
        factors: &[u8],
    ) -> Result<u64, AllocError>
        requires small { PlanIsSmall self.now.plan.now }
        requires within { d < 8 }
        requires references { length references.now ≡ length self.now.plan.now.accesses }
        requires below { All (λ f. f < length self.now.plan.now.accesses) factors.now }
        requires asked { met.now.factors ≡ asked self.now.plan.now d }
        requires asked_below { All (λ g. g < 8) met.now.factors }
        ensures made { OnOk result (made.new ≡ made.old ++ map (repeat self.now.trees self.now.plan.now d met.now.coordinates references.now) factors.now) }
        ensures first { IfOk result (λ w. w ≡ outputs_of made.old) }
        ensures room { IfOk result (λ w. w + length factors.now < 2 ^ 64) }
    {
        let first = made.outputs();
        for f in factors {
            self.repeat(made, d, met, references, *f)?;
        }
        Ok(first)
    }

    /// Adds the level below d loops: its factors are scanned and met, and the references of the others repeated.
    pub fn level(&self, nest: Nest, d: usize) -> Result<Nest, AllocError>
        requires small { PlanIsSmall self.now.plan.now }
        requires within { d < 8 }
        requires references { length nest.references ≡ length self.now.plan.now.accesses }
        ensures { IfOk result (λ more. more ≡ level self.now.trees self.now.plan.now d nest) }
    {
        let Nest {
            mut made,
            mut coordinates,
            references,
        } = nest;
        let alloc = made.alloc();
        let asked = self.plan.asked(alloc, d)?;
        let spared = self.plan.spared(alloc, d)?;
        let scanned = self.scan_each(&mut made, d, references.as_slice(), &asked)?;
        let met = self.meet(&mut made, d, scanned, &asked)?;
        coordinates.push(met.coordinates)?;
        let repeated = self.repeat_each(&mut made, d, &met, references.as_slice(), &spared)?;
        let repeats = numbers_from(alloc, repeated, spared.len())?;
        let mut references = references.into_vec();
        place(&mut references, &asked, met.references.as_slice());
        place(&mut references, &spared, &repeats);
        Ok(Nest {
            made,
            coordinates,
            references: Nums::from_vec(references),
        })
    }

    /// Adds all levels. Before the first, each factor's reference is the root's output.
    #[tactic(auto, using(crate::proofs::term::Nesting::next_level, crate::proofs::term::Nesting::references_kept, crate::proofs::term::Nesting::levels_counted))]
    pub fn nest(&self, made: Draft) -> Result<Nest, AllocError>
        requires { PlanIsSmall self.now.plan.now }
        ensures references { IfOk result (λ whole. length whole.references ≡ length self.now.plan.now.accesses) }
        ensures levels { IfOk result (λ whole. length whole.coordinates ≡ length self.now.plan.now.on_left) }
        ensures nest { IfOk result (λ whole. whole ≡ nest self.now.trees self.now.plan.now (length self.now.plan.now.on_left) made) }
    {
        let alloc = made.alloc();
        let roots = vec![in alloc; 0; self.plan.accesses.len()]?;
        let mut nest = Nest {
            made,
            coordinates: Nums::new(alloc),
            references: Nums::from_vec(roots),
        };
        for d in 0..self.plan.on_left.len() {
            nest = self.level(nest, d)?;
        }
        Ok(nest)
    }
}
