//! The blocks of a program whose terms are fused, in the order in which they are made.

ghost use Rattle.std.specs.Prelude.{◌≡◌, ◌≤◌, ◌<◌, ◌+◌, ◌-◌, [], ◌∷◌, ◌++◌, true, length, IfOk, OnOk};
ghost use Rattle.std.specs.List.{All};
ghost use Rattle.sam_model.specs.Program.{accepted};
ghost use Rattle.stream_model.specs.Fused.{shared_levels};
ghost use Rattle.label_rules.specs.Plans.{PlanIsSmall};
ghost use Rattle.custard_lower.specs.Drafts.{outputs_of};
ghost use Rattle.custard_fuse.specs.Sharing.{factors, all_factors};
ghost use Rattle.custard_fuse.specs.Fusing.{plans_of, is_fused, deeper_levels, summed_term, addition, added_term, added_terms, first_term, all_terms, fused_draft};

use crate::sharing::{Fusing, all_factors};
use custard_lower::{
    Draft, Levels, Made, Nest, NumberedPlan, PrunedTrees, TermTrees, rooted, with_writers,
};
use graph::Kind;
use label_rules::{Plan, term_plan};
use sam_base::{Items, Nums};
use sam_model::{Program, is_in};
use std::alloc::{AllocError, Global};
use stream_model::{Attr, Label, Tree};

#[tactic(auto, using(label_rules::proofs::term::SmallPlans::term_at_fits, crate::proofs::Counting::plans_more))]
/// The plans of all terms.
pub(crate) fn plans(alloc: Global, p: &Program) -> Result<Items<Plan>, AllocError>
    requires { accepted p.now ≡ true }
    ensures plans { IfOk result (λ plans. plans ≡ plans_of p.now) }
    ensures small { IfOk result (λ plans. All PlanIsSmall plans) }
{
    let mut plans = Items::new(alloc);
    for n in 0..p.terms.len() {
        plans.push(term_plan(alloc, p, n == 0, p.terms.get(n))?)?;
    }
    Ok(plans)
}

#[tactic(auto, using(crate::proofs::Counting::leading_first, crate::proofs::Counting::leading_more, crate::proofs::Counting::leading_ends, crate::proofs::Counting::leading_all))]
/// How many variables of the result come before every other in the loop order.
fn shared_levels(p: &Program) -> usize
    ensures { result ≡ shared_levels p.now }
{
    let left = p.left.as_slice();
    for v in 0..p.var_sizes.len() {
        if !is_in(v as u64, left) {
            return v;
        }
    }
    p.var_sizes.len()
}

#[tactic(auto, using(crate::proofs::PlansFit::plans_few))]
/// Whether the terms of a program with these plans are fused.
pub(crate) fn is_fused(p: &Program, plans: &[Plan]) -> bool
    requires accepted { accepted p.now ≡ true }
    requires plans { plans.now ≡ plans_of p.now }
    requires small { All PlanIsSmall plans.now }
    ensures { result ≡ is_fused p.now }
{
    let levels = shared_levels(p);
    p.terms.len() > 1 && all_factors(plans) <= 8 && levels > 0 && levels == p.result.order.len()
}

impl<'a> Fusing<'a> {
    #[tactic(auto, using(crate::proofs::Counting::deeper_more, crate::proofs::Counting::deeper_none, custard_lower::proofs::term::Nesting::references_kept, custard_lower::proofs::term::Nesting::levels_counted))]
    /// Adds the levels of a term that it doesn't share.
    fn deeper_levels(&self, numbered: &NumberedPlan, nest: Nest) -> Result<Nest, AllocError>
        requires small { PlanIsSmall numbered.now.plan.now }
        requires levels { self.now.levels ≤ length numbered.now.plan.now.on_left }
        requires coordinates { length nest.coordinates ≡ self.now.levels }
        requires references { length nest.references ≡ length numbered.now.plan.now.accesses }
        ensures deeper { IfOk result (λ more. more ≡ deeper_levels self.now.last self.now.levels numbered.now.trees numbered.now.plan.now (length numbered.now.plan.now.on_left - self.now.levels) nest) }
        ensures coordinates { IfOk result (λ more. length more.coordinates ≡ length numbered.now.plan.now.on_left) }
        ensures references { IfOk result (λ more. length more.references ≡ length numbered.now.plan.now.accesses) }
    {
        let mut nest = nest;
        for d in self.levels as usize..numbered.plan.on_left.len() {
            nest = numbered.level(nest, d)?;
        }
        Ok(nest)
    }

    /// The rest of the loops of term number n, its values and its sums.
    fn summed_term(&self, n: u8, plan: &Plan, nest: Nest) -> Result<Levels, AllocError>
        requires small { PlanIsSmall plan.now }
        requires levels { self.now.levels ≤ length plan.now.on_left }
        requires coordinates { length nest.coordinates ≡ self.now.levels }
        requires references { length nest.references ≡ length plan.now.accesses }
        ensures { IfOk result (λ levels. levels ≡ summed_term self.now.last self.now.levels n plan.now nest) }
    {
        let trees = TermTrees::Shared {
            term: n,
            last: self.last,
            levels: self.levels,
        };
        let numbered = NumberedPlan { trees, plan };
        numbered.summed(self.deeper_levels(&numbered, nest)?)
    }

    /// Adds the values of term number n to those of the terms before, or subtracts them.
    fn add(&self, made: &mut Draft, n: u8, minus: bool, a: u64, b: u64) -> Result<u64, AllocError>
        ensures made { OnOk result (made.new ≡ made.old ++ addition self.now.last self.now.levels n minus a b ∷ []) }
        ensures first { IfOk result (λ w. w ≡ outputs_of made.old) }
    {
        let kind = if minus { Kind::Sub } else { Kind::Add };
        let tree = Tree::UnderJoined {
            last: n,
            prune: 9,
            depth: self.levels,
        };
        let value = Label {
            tree,
            attr: Attr::Value,
        };
        made.emit(kind, &[a, b], &[value])
    }

    #[tactic(auto, using(crate::proofs::TermSlices::minus_is))]
    /// Term number n, from these references of its factors, added to those before.
    fn added_term(
        &self,
        p: &Program,
        n: u8,
        plan: &Plan,
        references: &[u64],
        levels: Levels,
    ) -> Result<Levels, AllocError>
        requires small { PlanIsSmall plan.now }
        requires deep { self.now.levels ≤ length plan.now.on_left }
        requires term { n < length p.now.terms }
        requires references { length references.now ≡ factors plan.now }
        requires coordinates { length levels.coordinates ≡ self.now.levels }
        ensures added { IfOk result (λ more. more ≡ added_term self.now.last self.now.levels p.now n plan.now references.now levels) }
        ensures coordinates { IfOk result (λ more. length more.coordinates ≡ self.now.levels) }
    {
        let Levels {
            made,
            coordinates,
            values,
        } = levels;
        let alloc = made.alloc();
        let nest = Nest {
            made,
            coordinates: Nums::from_vec(Vec::from_slice(alloc, coordinates.as_slice())?),
            references: Nums::from_vec(Vec::from_slice(alloc, references)?),
        };
        let mut one = self.summed_term(n, plan, nest)?;
        let minus = p.terms.get(n as usize).minus;
        let values = self.add(&mut one.made, n, minus, values, one.values)?;
        Ok(Levels {
            made: one.made,
            coordinates,
            values,
        })
    }

    /// The terms from number n on, from these references of their factors, added to those before.
    fn added_terms(
        &self,
        p: &Program,
        n: u8,
        plans: &[Plan],
        references: &[u64],
        levels: Levels,
    ) -> Result<Levels, AllocError>
        requires small { All PlanIsSmall plans.now }
        requires deep { All (λ t. self.now.levels ≤ length t.on_left) plans.now }
        requires terms { n + length plans.now ≡ length p.now.terms }
        requires few { length p.now.terms ≤ 16 }
        requires references { length references.now ≡ all_factors plans.now }
        requires coordinates { length levels.coordinates ≡ self.now.levels }
        ensures added { IfOk result (λ all. all ≡ added_terms self.now.last self.now.levels p.now n plans.now references.now levels) }
        ensures coordinates { IfOk result (λ all. length all.coordinates ≡ self.now.levels) }
    {
        let [plan, others @ ..] = plans else {
            return Ok(levels);
        };
        let factors = plan.accesses.len();
        let more = self.added_term(p, n, plan, &references[..factors], levels)?;
        self.added_terms(p, n + 1, others, &references[factors..], more)
    }

    /// Term number 0, from these references of its factors.
    fn first_term(
        &self,
        plan: &Plan,
        made: Draft,
        coordinates: Nums,
        references: &[u64],
    ) -> Result<Levels, AllocError>
        requires small { PlanIsSmall plan.now }
        requires deep { self.now.levels ≤ length plan.now.on_left }
        requires references { length references.now ≡ factors plan.now }
        requires coordinates { length coordinates ≡ self.now.levels }
        ensures first { IfOk result (λ one. one ≡ first_term self.now.last self.now.levels plan.now made coordinates references.now) }
        ensures coordinates { IfOk result (λ one. length one.coordinates ≡ self.now.levels) }
    {
        let alloc = made.alloc();
        let nest = Nest {
            made,
            coordinates: Nums::from_vec(Vec::from_slice(alloc, coordinates.as_slice())?),
            references: Nums::from_vec(Vec::from_slice(alloc, references)?),
        };
        let one = self.summed_term(0, plan, nest)?;
        Ok(Levels {
            made: one.made,
            coordinates,
            values: one.values,
        })
    }

    /// All terms, after the levels that they share.
    fn all_terms(&self, p: &Program, nest: Nest) -> Result<Levels, AllocError>
        requires small { All PlanIsSmall self.now.plans.now }
        requires deep { All (λ t. self.now.levels ≤ length t.on_left) self.now.plans.now }
        requires terms { length self.now.plans.now ≡ length p.now.terms }
        requires few { length p.now.terms ≤ 16 }
        requires references { length nest.references ≡ all_factors self.now.plans.now }
        requires coordinates { length nest.coordinates ≡ self.now.levels }
        ensures all { IfOk result (λ all. all ≡ all_terms self.now.last self.now.levels p.now self.now.plans.now nest) }
        ensures coordinates { IfOk result (λ all. length all.coordinates ≡ self.now.levels) }
    {
        let Nest {
            made,
            coordinates,
            references,
        } = nest;
        let [plan, others @ ..] = self.plans else {
            return Ok(Levels {
                made,
                coordinates,
                values: 0,
            });
        };
        let references = references.as_slice();
        let factors = plan.accesses.len();
        let first = self.first_term(plan, made, coordinates, &references[..factors])?;
        self.added_terms(p, 1, others, &references[factors..], first)
    }
}

/// The draft of the graph of a program whose terms, with these plans, are fused.
pub(crate) fn draft(alloc: Global, p: &Program, plans: &[Plan]) -> Result<Items<Made>, AllocError>
    requires accepted { accepted p.now ≡ true }
    requires plans { plans.now ≡ plans_of p.now }
    requires small { All PlanIsSmall plans.now }
    requires fused { is_fused p.now ≡ true }
    ensures { IfOk result (λ made. made ≡ fused_draft p.now) }
{
    let last = (p.terms.len() - 1) as u8;
    let levels = shared_levels(p) as u8;
    let fusing = Fusing {
        plans,
        last,
        levels,
    };
    let nest = fusing.shared_levels(rooted(alloc)?)?;
    let all = fusing.all_terms(p, nest)?;
    let pruned = all.pruned(PrunedTrees::OfAll { last })?;
    Ok(with_writers(pruned)?.into_made())
}
