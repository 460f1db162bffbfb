//! The run of a chain, step after step.

ghost use Rattle.std.specs.Prelude.{◌≡◌, ◌<◌, ◌≤◌, ◌-◌, ◌^◌, [], length, min, true, slice_get, Some, None, IfSome, OnOk, OnErr};
ghost use Rattle.sam_model.specs.Chains.{AreChained, declared_tensors};
ghost use Rattle.sam_model.specs.Program.{accepted};
ghost use Rattle.sam_chain.specs.Fitting.{EachFits};
ghost use Rattle.sam_chain.specs.Running.{Running, entries_at, given, IsResultOf};

use crate::entries::entries_of;
use sam_base::Items;
use sam_model::{Chain, Entries, Program, Written};
use std::alloc::{AllocError, Global};
use std::marker::Model;

/// The run of a chain: the entries of the tensors that the next step reads, and the result of the last one.
#[derive(Drop)]
pub struct ChainRun {
    steps: Items<Program>,
    entries: Items<Entries>,
    /// How many steps are left.
    left: usize,
    last: Option<Written>,
}

impl Model for ChainRun {
    ghost use Rattle.std.specs.Prelude.{◌-◌, length};
    ghost use Rattle.sam_chain.specs.Running.{Running, Stands, files_of};
    ghost use Rattle.sam_chain.specs.RunningCode.{running_code};

    ghost Value = { Running };

    ghost coded = { running_code };

    ghost view = { λ run. record { steps = run.steps; files = files_of run.steps run.entries; step = length run.steps - run.left; last = run.last } };

    ghost invariant = { λ run. Stands run.steps run.entries run.left run.last };
}

impl ChainRun {
    /// The run of a chain before its first step, over the entries of the declared tensors.
    pub fn new(c: Chain, e: Items<Entries>) -> ChainRun
        requires some { 1 ≤ length c.steps }
        requires follow { AreChained c.steps }
        requires files { EachFits (declared_tensors c.steps) e }
        ensures { result ≡ record { steps = c.steps; files = e; step = 0; last = None } }
    {
        let Chain { steps, lines: _ } = c;
        let left = steps.len();
        ChainRun {
            steps,
            entries: e,
            left,
            last: None,
        }
    }

    /// The number of the next step.
    fn next(&self) -> usize
        ensures { result ≡ self.now.step }
    {
        self.steps.len() - self.left
    }

    /// The number of results that were given, which is the number of the next step, from 0. A chain has at most eight steps.
    pub fn step(&self) -> u32
        ensures { result ≡ min self.now.step (2 ^ 32 - 1) }
    {
        self.next().min(u32::MAX as usize) as u32
    }

    /// The next step.
    pub fn program(&self) -> &Program
        requires { self.now.step < length self.now.steps }
        ensures step { slice_get self.now.steps self.now.step ≡ Some result.now }
        ensures accepted { accepted result.now ≡ true }
    {
        self.steps.get(self.next())
    }

    /// The entries of the tensors of the next step.
    pub fn entries(&self) -> &Items<Entries>
        requires { self.now.step < length self.now.steps }
        ensures entries { result.now ≡ entries_at self.now.steps self.now.files self.now.step }
        ensures fit { IfSome (slice_get self.now.steps self.now.step) (λ p. EachFits p.tensors result.now) }
    {
        &self.entries
    }

    /// Goes on to the next step with the result of this one. Without memory the run stays as it was.
    pub fn give(&mut self, alloc: Global, w: Written) -> Result<(), AllocError>
        requires below { self.old.step < length self.old.steps }
        requires tensor { IsResultOf self.old.steps self.old.files self.old.step w }
        ensures given { OnOk result (self.new ≡ given self.old w) }
        ensures refused { OnErr result (self.new ≡ self.old) }
    {
        let declared = &self.steps.get(self.next()).result;
        if declared.dims.len() > 0 {
            let entries = entries_of(alloc, declared, &w)?;
            self.entries.push(entries)?;
        }
        self.left -= 1;
        self.last = Some(w);
        Ok(())
    }

    /// The tensor of the last step, once all were given.
    pub fn last(&self) -> &Written
        requires { self.now.step ≡ length self.now.steps }
        ensures given { self.now.last ≡ Some result.now }
        ensures tensor { IsResultOf self.now.steps self.now.files (length self.now.steps - 1) result.now }
    {
        match &self.last {
            Some(w) => w,
            None => unreachable!(),
        }
    }
}
