//! The labels of a program's terms.

ghost use Rattle.std.specs.Prelude.{◌≡◌, ◌<◌, ◌≤◌, ◌∷◌, [], length};
ghost use Rattle.stream_model.specs.declared.labels.Tree.TheVariants.{Product};
ghost use Rattle.stream_model.specs.Masks.{levels_before};
ghost use Rattle.label_rules.specs.Labels.{tree_label};
ghost use Rattle.label_rules.specs.Masks.{factors_mask};
ghost use Rattle.label_rules.specs.Plans.{plan_access, PlanIsSmall};
ghost use Rattle.label_rules.specs.TermLabels.{plan_at, is_term, loop_count, factor_count, free_loop_count, plan_coefficient, full_mask, reference_label, bottom_label};
ghost use Rattle.graph_check.specs.Known.{PlansKnown};

use crate::names::NO_LABEL;
use crate::terms::{free_marks, full_mask, levels_before};
use label_rules::Plan;
use sam_base::Items;
use sam_model::Program;
use stream_model::{Attr, Label, Tree};

/// A program, the plan of each of its terms, that of no term, how many levels its result has, and the number of its last term.
#[derive(Drop)]
pub(crate) struct LabelRules<'a> {
    pub(crate) program: &'a Program,
    pub(crate) plans: Items<Plan>,
    pub(crate) none: Plan,
    pub(crate) levels: u8,
    pub(crate) last: u8,
}

/// The tensor of an access, 0 where there is none.
pub(crate) fn tensor_of(plan: &Plan, f: u8) -> u32
    ensures { result ≡ (plan_access plan.now f).tensor }
{
    match plan.accesses.as_slice().get(f as usize) {
        Some(access) => access.tensor,
        None => 0,
    }
}

/// How many of the first d loops an access has.
pub(crate) fn levels_of(plan: &Plan, f: u8, d: u8) -> u8
    ensures count { result ≡ levels_before (plan_access plan.now f).has d }
    ensures few { result ≤ d }
{
    match plan.accesses.as_slice().get(f as usize) {
        Some(access) => levels_before(access.has.as_slice(), d as usize) as u8,
        None => 0,
    }
}

/// The number whose bit is set for this factor alone.
pub(crate) fn factor_mask(f: u8) -> u8
    requires { f < 8 }
    ensures { result ≡ factors_mask (f ∷ []) }
{
    let mut mask = 0u8;
    mask |= 1 << f;
    mask
}

/// A label of the product tree of a term.
pub(crate) fn product(term: u8, level: u8, mask: u8, attr: Attr) -> Label
    ensures { result ≡ tree_label (Product term level mask) attr }
{
    Label {
        tree: Tree::Product { term, level, mask },
        attr,
    }
}

impl<'a> LabelRules<'a> {
    pub(crate) fn is_term(&self, t: u8) -> bool
        ensures { result ≡ is_term self.now.program.now t }
    {
        (t as usize) < self.program.terms.len()
    }

    pub(crate) fn plan(&self, t: u8) -> &Plan
        requires { PlansKnown self.now }
        ensures is { result.now ≡ plan_at self.now.program.now t }
        ensures small { PlanIsSmall result.now }
    {
        match self.plans.as_slice().get(t as usize) {
            Some(plan) => plan,
            None => &self.none,
        }
    }

    pub(crate) fn loops(&self, t: u8) -> u8
        requires { PlansKnown self.now }
        ensures count { result ≡ loop_count self.now.program.now t }
        ensures few { result ≤ 8 }
    {
        self.plan(t).on_left.len() as u8
    }

    pub(crate) fn factors(&self, t: u8) -> u8
        requires { PlansKnown self.now }
        ensures count { result ≡ factor_count self.now.program.now t }
        ensures few { result ≤ 8 }
    {
        self.plan(t).accesses.len() as u8
    }

    /// How many of its loops aren't on the left.
    pub(crate) fn free(&self, t: u8) -> u8
        requires { PlansKnown self.now }
        ensures count { result ≡ free_loop_count self.now.program.now t }
        ensures few { result ≤ 8 }
    {
        free_marks(self.plan(t).on_left.as_slice()) as u8
    }

    /// The product of the literals, 1 where there is none.
    pub(crate) fn coefficient(&self, t: u8) -> u64
        requires { PlansKnown self.now }
        ensures { result ≡ plan_coefficient self.now.program.now t }
    {
        match self.plan(t).coefficient {
            Some(k) => k,
            None => 1,
        }
    }

    /// The mask of the accesses that have the loop after d others.
    pub(crate) fn mask(&self, t: u8, d: u8) -> u8
        requires { PlansKnown self.now }
        ensures { result ≡ full_mask self.now.program.now t d }
    {
        full_mask(self.plan(t), d as usize)
    }

    /// A factor's references below d loops.
    pub(crate) fn reference(&self, t: u8, d: u8, f: u8) -> Label
        requires { PlansKnown self.now }
        ensures { result ≡ reference_label self.now.program.now t d f }
    {
        if d == 0 {
            return NO_LABEL;
        }
        product(t, d, self.mask(t, d - 1), Attr::Rank(f))
    }

    /// What is told below all loops.
    pub(crate) fn bottom(&self, t: u8, attr: Attr) -> Label
        requires { PlansKnown self.now }
        ensures { result ≡ bottom_label self.now.program.now t attr }
    {
        let loops = self.loops(t);
        product(t, loops, self.mask(t, loops.saturating_sub(1)), attr)
    }
}
