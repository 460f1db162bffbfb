//! The sums over the loops that aren't on the left, and the pruning of what has no value, as blocks.

ghost use Rattle.std.specs.Prelude.{◌≡◌, ◌+◌, ◌<◌, ◌≤◌, ◌++◌, take, length, IfOk, OnOk};
ghost use Rattle.custard_lower.specs.Reductions.{reduced_tree_label, pruned_tree_label, level_at, reduce, reduced, without_values, without_fibers, pruned};
ghost use Rattle.label_rules.specs.Plans.{left_marks, free_marks};

use crate::drafts::Draft;
use crate::trees::{PrunedTrees, TermTrees};
use graph::Kind;
use sam_base::Nums;
use std::alloc::AllocError;
use stream_model::{Attr, Label};

/// A draft so far, and the outputs with the coordinates of each level that is left and with the values.
#[derive(Drop)]
pub struct Levels {
    pub made: Draft,
    pub coordinates: Nums,
    pub values: u64,
}

/// A label of the tree of a term without so many loops.
fn reduced_label(trees: TermTrees, gone: u8, depth: u8, attr: Attr) -> Label
    ensures { result ≡ reduced_tree_label trees gone depth attr }
{
    Label {
        tree: trees.reduced(gone, depth),
        attr,
    }
}

/// A label of a tree from which prefixes of length `prune` or more are left out that have no value.
fn pruned_label(trees: PrunedTrees, prune: usize, depth: usize, attr: Attr) -> Label
    requires prune { prune ≤ 8 }
    requires depth { depth ≤ 8 }
    ensures { result ≡ pruned_tree_label trees prune depth attr }
{
    Label {
        tree: trees.pruned(prune as u8, depth as u8),
        attr,
    }
}

/// Of these loops, marked by whether they are on the left, how many aren't.
pub fn free_loops(on_left: &[bool]) -> u8
    requires { length on_left.now ≤ 8 }
    ensures { result ≡ free_marks on_left.now }
{
    let mut free = 0;
    for mark in on_left {
        if !*mark {
            free += 1;
        }
    }
    free
}

impl Levels {
    /// The output with the coordinates of a level, counted from 1; the root's output is level 0.
    fn level_at(&self, level: usize) -> u64
        requires { level ≤ length self.now.coordinates }
        ensures { result ≡ level_at self.now.coordinates level }
    {
        if level == 0 {
            return 0;
        }
        self.coordinates.get(level - 1)
    }

    /// Puts these outputs in the place of the coordinates of all levels but so many first ones.
    fn end_with(&mut self, kept: usize, outputs: &[u64]) -> Result<(), AllocError>
        requires { kept ≤ length self.old.coordinates }
        ensures { OnOk result (self.new ≡ record self.old { coordinates = take kept self.old.coordinates ++ outputs.now }) }
    {
        let kept = &self.coordinates.as_slice()[..kept];
        let mut coordinates = Vec::from_slice(self.made.alloc(), kept)?;
        coordinates.extend_from_slice(outputs)?;
        self.coordinates = Nums::from_vec(coordinates);
        Ok(())
    }

    /// Takes the last loop away; so many loops are gone already.
    fn sum_scalar(&mut self, trees: TermTrees, gone: u8) -> Result<(), AllocError>
        requires gone { gone < 8 }
        requires levels { 0 < length self.old.coordinates }
        requires few { length self.old.coordinates ≤ 8 }
        ensures { OnOk result (self.new ≡ reduce trees gone 0 self.old) }
    {
        let n = self.coordinates.len() - 1;
        let ins = [self.level_at(n), self.values];
        let value = reduced_label(trees, gone + 1, n as u8, Attr::Value);
        self.values = self.made.emit(Kind::SumScalar, &ins, &[value])?;
        self.end_with(n, &[])
    }

    /// Takes the last loop but one away, which changes the coordinates of the last level.
    fn sum_vector(&mut self, trees: TermTrees, gone: u8) -> Result<(), AllocError>
        requires gone { gone < 8 }
        requires levels { 1 < length self.old.coordinates }
        requires few { length self.old.coordinates ≤ 8 }
        ensures { OnOk result (self.new ≡ reduce trees gone 1 self.old) }
    {
        let n = self.coordinates.len() - 1;
        let ins = [self.level_at(n + 1), self.values];
        let labels = [
            reduced_label(trees, gone + 1, n as u8, Attr::Coordinate),
            reduced_label(trees, gone + 1, n as u8, Attr::Value),
        ];
        let w = self.made.emit(Kind::SumVector, &ins, &labels)?;
        self.values = w + 1;
        self.end_with(n - 1, &[w])
    }

    /// Takes a loop away that is before the last two, which changes the coordinates of these two levels.
    fn sum_matrix(&mut self, trees: TermTrees, gone: u8) -> Result<(), AllocError>
        requires gone { gone < 8 }
        requires levels { 2 < length self.old.coordinates }
        requires few { length self.old.coordinates ≤ 8 }
        ensures { OnOk result (self.new ≡ reduce trees gone 2 self.old) }
    {
        let n = self.coordinates.len() - 1;
        let ins = [self.level_at(n), self.level_at(n + 1), self.values];
        let labels = [
            reduced_label(trees, gone + 1, (n - 1) as u8, Attr::Coordinate),
            reduced_label(trees, gone + 1, n as u8, Attr::Coordinate),
            reduced_label(trees, gone + 1, n as u8, Attr::Value),
        ];
        let w = self.made.emit(Kind::SumMatrix, &ins, &labels)?;
        self.values = w + 2;
        self.end_with(n - 2, &[w, w + 1])
    }

    /// Takes the loop away that has so many levels after it.
    fn reduce(&mut self, trees: TermTrees, gone: u8, after: usize) -> Result<(), AllocError>
        requires gone { gone < 8 }
        requires levels { after < length self.old.coordinates }
        requires few { length self.old.coordinates ≤ 8 }
        ensures reduced { OnOk result (self.new ≡ reduce trees gone after self.old) }
        ensures count { OnOk result (length self.new.coordinates + 1 ≡ length self.old.coordinates) }
    {
        match after {
            0 => self.sum_scalar(trees, gone),
            1 => self.sum_vector(trees, gone),
            _ => self.sum_matrix(trees, gone),
        }
    }

    /// Takes all loops away that aren't on the left, from the innermost outwards.
    pub fn reduced(mut self, trees: TermTrees, on_left: &[bool]) -> Result<Levels, AllocError>
        requires levels { length on_left.now ≡ length self.coordinates }
        requires few { length self.coordinates ≤ 8 }
        ensures reduced { IfOk result (λ levels. levels ≡ reduced trees on_left.now self) }
        ensures count { IfOk result (λ levels. length levels.coordinates ≡ left_marks on_left.now) }
        ensures few { IfOk result (λ levels. length levels.coordinates ≤ 8) }
    {
        let mut gone = 0;
        let mut after = 0;
        for i in (0..on_left.len()).rev() {
            if on_left[i] {
                after += 1;
            } else {
                self.reduce(trees, gone, after)?;
                gone += 1;
            }
        }
        Ok(self)
    }

    /// Leaves out the coordinates of the last level that have no value.
    fn drop_values(&mut self, trees: PrunedTrees) -> Result<(), AllocError>
        requires levels { 0 < length self.old.coordinates }
        requires few { length self.old.coordinates ≤ 8 }
        ensures dropped { OnOk result (self.new ≡ without_values trees self.old) }
        ensures count { OnOk result (length self.new.coordinates ≡ length self.old.coordinates) }
    {
        let n = self.coordinates.len();
        let ins = [self.level_at(n), self.values];
        let labels = [
            pruned_label(trees, n, n, Attr::Coordinate),
            pruned_label(trees, n, n, Attr::Value),
        ];
        let w = self.made.emit(Kind::DropValue, &ins, &labels)?;
        self.values = w + 1;
        self.end_with(n - 1, &[w])
    }

    /// Leaves out the coordinates of level f that have no fiber on the next level.
    fn drop_fibers(&mut self, trees: PrunedTrees, f: usize) -> Result<(), AllocError>
        requires level { 0 < f }
        requires next { f < length self.old.coordinates }
        requires few { length self.old.coordinates ≤ 8 }
        ensures dropped { OnOk result (self.new ≡ without_fibers trees f self.old) }
        ensures count { OnOk result (length self.new.coordinates ≡ length self.old.coordinates) }
    {
        let ins = [self.level_at(f), self.level_at(f + 1)];
        let labels = [
            pruned_label(trees, f, f, Attr::Coordinate),
            pruned_label(trees, f, f + 1, Attr::Coordinate),
        ];
        let w = self.made.emit(Kind::DropFiber, &ins, &labels)?;
        let mut coordinates = Vec::from_slice(self.made.alloc(), self.coordinates.as_slice())?;
        coordinates[f - 1] = w;
        coordinates[f] = w + 1;
        self.coordinates = Nums::from_vec(coordinates);
        Ok(())
    }

    /// Leaves out what has no value, on the last level and then on each level before it. A result without levels keeps its
    /// value, also where it has none.
    pub fn pruned(mut self, trees: PrunedTrees) -> Result<Levels, AllocError>
        requires few { length self.coordinates ≤ 8 }
        ensures pruned { IfOk result (λ levels. levels ≡ pruned trees self) }
        ensures count { IfOk result (λ levels. length levels.coordinates ≡ length self.coordinates) }
    {
        let levels = self.coordinates.len();
        if levels > 0 {
            self.drop_values(trees)?;
            for f in (1..levels).rev() {
                self.drop_fibers(trees, f)?;
            }
        }
        Ok(self)
    }
}
