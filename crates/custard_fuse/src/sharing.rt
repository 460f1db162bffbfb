//! The levels that all terms of a program share, as blocks: each term scans a level beneath what all terms had above it, and the
//! terms' coordinates are united there.

ghost use Rattle.std.specs.Prelude.{◌≡◌, ◌≤◌, ◌<◌, ◌+◌, ◌*◌, ◌^◌, suc, [], ◌∷◌, ◌++◌, length, map, take, drop, IfOk};
ghost use Rattle.std.specs.List.{All, range_with_len};
ghost use Rattle.stream_model.specs.declared.labels.Attr.TheVariants.{Rank};
ghost use Rattle.sam_model.specs.Lists.{below};
ghost use Rattle.label_rules.specs.Plans.{PlanIsSmall};
ghost use Rattle.custard_lower.specs.Drafts.{outputs_of};
ghost use Rattle.custard_fuse.specs.Sharing.{factors, all_factors, across_label, rank_labels, across_labels, scanned_term, scanned_terms, union, united, united_terms, shared_level, shared_levels_of};

use custard_lower::{Draft, Nest, NumberedPlan, TermTrees};
use graph::Kind;
use label_rules::Plan;
use sam_base::Nums;
use std::alloc::{AllocError, Global};
use stream_model::{Attr, Label, Tree};

/// The terms of a program, the last of which is number `last`, and how many levels they share.
#[derive(Clone, Copy, Drop)]
pub(crate) struct Fusing<'a> {
    pub plans: &'a [Plan],
    pub last: u8,
    pub levels: u8,
}

/// A label of what the terms up to number `upto` have at a depth, with what is told of a term.
fn across_label(upto: u8, term: u8, depth: u8, attr: Attr) -> Label
    ensures { result ≡ across_label upto term depth attr }
{
    Label {
        tree: Tree::Across { upto, term, depth },
        attr,
    }
}

#[tactic(auto, using(crate::proofs::Counting::labels_more))]
/// Appends the labels of the references of a term's factors.
fn push_ranks(
    labels: &mut Vec<Label>,
    upto: u8,
    depth: u8,
    term: u8,
    plan: &Plan,
) -> Result<(), AllocError>
    requires { length plan.now.accesses ≤ 8 }
    ensures { IfOk result (λ _. labels.new.items ≡ labels.old.items ++ map (λ f. across_label upto term depth (Rank f)) (below (factors plan.now))) }
{
    for f in 0..plan.accesses.len() as u8 {
        labels.push(across_label(upto, term, depth, Attr::Rank(f)))?;
    }
    Ok(())
}

/// Appends the labels of the references of all factors of these terms, the first of which is number n.
fn rank_labels(
    labels: &mut Vec<Label>,
    upto: u8,
    depth: u8,
    n: u8,
    plans: &[Plan],
) -> Result<(), AllocError>
    requires small { All PlanIsSmall plans.now }
    requires few { n + length plans.now ≤ 16 }
    ensures { IfOk result (λ _. labels.new.items ≡ labels.old.items ++ rank_labels upto depth n plans.now) }
{
    if let [plan, others @ ..] = plans {
        push_ranks(labels, upto, depth, n, plan)?;
        rank_labels(labels, upto, depth, n + 1, others)?;
    }
    Ok(())
}

#[tactic(auto, using(crate::proofs::FusedUnions::ranks_counted))]
/// The labels of the coordinates that these terms have together, and of the references of all their factors.
fn across_labels(
    alloc: Global,
    upto: u8,
    depth: u8,
    plans: &[Plan],
) -> Result<Vec<Label>, AllocError>
    requires small { All PlanIsSmall plans.now }
    requires few { length plans.now ≤ 16 }
    ensures labels { IfOk result (λ labels. labels.items ≡ across_labels upto depth plans.now) }
    ensures count { IfOk result (λ labels. length labels.items ≡ suc (all_factors plans.now)) }
{
    let mut labels = vec![in alloc; across_label(upto, 0, depth, Attr::Coordinate)]?;
    rank_labels(&mut labels, upto, depth, 0, plans)?;
    Ok(labels)
}

/// Numbers with others after them.
fn joined(numbers: Nums, more: &[u64]) -> Result<Nums, AllocError>
    ensures { IfOk result (λ all. all ≡ numbers ++ more.now) }
{
    let mut numbers = numbers.into_vec();
    numbers.extend_from_slice(more)?;
    Ok(Nums::from_vec(numbers))
}

/// What a unioner reads: what is united before, and what comes to it.
fn union_ins(
    alloc: Global,
    first: u64,
    met: &[u64],
    coordinates: u64,
    references: &[u64],
) -> Result<Vec<u64>, AllocError>
    ensures { IfOk result (λ ins. ins.items ≡ (first ∷ met.now) ++ coordinates ∷ references.now) }
{
    let mut ins = vec![in alloc; first]?;
    ins.extend_from_slice(met)?;
    ins.push(coordinates)?;
    ins.extend_from_slice(references)?;
    Ok(ins)
}

#[tactic(auto, using(custard_lower::proofs::term::Counting::range_more))]
/// So many numbers after one.
fn numbers_after(alloc: Global, w: u64, count: usize) -> Result<Nums, AllocError>
    requires { w + 1 + count < 2 ^ 64 }
    ensures { IfOk result (λ numbers. numbers ≡ range_with_len (suc w) count) }
{
    let mut numbers = Nums::new(alloc);
    for k in 0..count as u64 {
        numbers.push(w + 1 + k)?;
    }
    Ok(numbers)
}

impl<'a> Fusing<'a> {
    #[tactic(auto, using(custard_lower::proofs::term::Nesting::levels_counted))]
    /// Term number n scans the level below d others, from these references of its factors. Its coordinates and its factors' references
    /// come after those of the terms before.
    fn scan_term(
        &self,
        d: usize,
        n: u8,
        plan: &Plan,
        references: &[u64],
        scanned: Nest,
    ) -> Result<Nest, AllocError>
        requires small { PlanIsSmall plan.now }
        requires within { d < 8 }
        requires references { length references.now ≡ factors plan.now }
        ensures scanned { IfOk result (λ more. more ≡ scanned_term self.now.last self.now.levels d n plan.now references.now scanned) }
        ensures coordinates { IfOk result (λ more. length more.coordinates ≡ length scanned.coordinates + 1) }
    {
        let Nest {
            made,
            coordinates,
            references: met,
        } = scanned;
        let alloc = made.alloc();
        let nest = Nest {
            made,
            coordinates: Nums::new(alloc),
            references: Nums::from_vec(Vec::from_slice(alloc, references)?),
        };
        let trees = TermTrees::Shared {
            term: n,
            last: self.last,
            levels: self.levels,
        };
        let one = NumberedPlan { trees, plan }.level(nest, d)?;
        Ok(Nest {
            made: one.made,
            coordinates: joined(coordinates, one.coordinates.as_slice())?,
            references: joined(met, one.references.as_slice())?,
        })
    }

    /// The terms from number n on scan the level below d others, from these references of their factors.
    fn scan_terms(
        &self,
        d: usize,
        n: u8,
        plans: &[Plan],
        references: &[u64],
        scanned: Nest,
    ) -> Result<Nest, AllocError>
        requires small { All PlanIsSmall plans.now }
        requires few { n + length plans.now ≤ 16 }
        requires within { d < 8 }
        requires references { length references.now ≡ all_factors plans.now }
        ensures scanned { IfOk result (λ all. all ≡ scanned_terms self.now.last self.now.levels d n plans.now references.now scanned) }
        ensures coordinates { IfOk result (λ all. length all.coordinates ≡ length scanned.coordinates + length plans.now) }
        ensures count { IfOk result (λ all. length all.references ≡ length scanned.references + all_factors plans.now) }
    {
        let [plan, others @ ..] = plans else {
            return Ok(scanned);
        };
        let factors = plan.accesses.len();
        let more = self.scan_term(d, n, plan, &references[..factors], scanned)?;
        self.scan_terms(d, n + 1, others, &references[factors..], more)
    }

    /// Unites the terms before number e with it. Its outputs take the places of all these references.
    fn union(
        &self,
        d: usize,
        e: usize,
        before: Nest,
        coordinates: u64,
        references: &[u64],
    ) -> Result<Nest, AllocError>
        requires small { All PlanIsSmall self.now.plans.now }
        requires terms { length self.now.plans.now ≤ 16 }
        requires term { e < length self.now.plans.now }
        requires within { d < 8 }
        requires first { length before.coordinates ≡ 1 }
        requires count { length before.references + length references.now ≡ all_factors (take (e + 1) self.now.plans.now) }
        requires few { length before.references + length references.now ≤ 8 }
        ensures made { IfOk result (λ all. all.made ≡ before.made ++ union self.now.plans.now d e before coordinates references.now ∷ []) }
        ensures coordinates { IfOk result (λ all. all.coordinates ≡ outputs_of before.made ∷ []) }
        ensures references { IfOk result (λ all. all.references ≡ range_with_len (suc (outputs_of before.made)) (length before.references + length references.now)) }
    {
        let Nest {
            mut made,
            coordinates: first,
            references: met,
        } = before;
        let alloc = made.alloc();
        let count = met.len() + references.len();
        let kind = Kind::Union {
            left: met.len() as u32,
            right: references.len() as u32,
        };
        let ins = union_ins(alloc, first.get(0), met.as_slice(), coordinates, references)?;
        let labels = across_labels(alloc, e as u8, (d + 1) as u8, &self.plans[..e + 1])?;
        let w = made.emit(kind, &ins, &labels)?;
        Ok(Nest {
            made,
            coordinates: Nums::from_vec(vec![in alloc; w]?),
            references: numbers_after(alloc, w, count)?,
        })
    }

    #[tactic(auto, using(crate::proofs::TermSlices::factors_apart))]
    /// Unites the terms before number e, which are united already, with the others one by one.
    fn unite(
        &self,
        d: usize,
        e: usize,
        plans: &[Plan],
        coordinates: &[u64],
        references: &[u64],
        before: Nest,
    ) -> Result<Nest, AllocError>
        requires small { All PlanIsSmall self.now.plans.now }
        requires terms { length self.now.plans.now ≤ 16 }
        requires others { e + length plans.now ≡ length self.now.plans.now }
        requires rest { plans.now ≡ drop e self.now.plans.now }
        requires within { d < 8 }
        requires first { length before.coordinates ≡ 1 }
        requires met { length before.references ≡ all_factors (take e self.now.plans.now) }
        requires coordinates { length coordinates.now ≡ length plans.now }
        requires references { length references.now ≡ all_factors plans.now }
        requires few { all_factors self.now.plans.now ≤ 8 }
        ensures united { IfOk result (λ all. all ≡ united self.now.plans.now d e plans.now coordinates.now references.now before) }
        ensures first { IfOk result (λ all. length all.coordinates ≡ 1) }
        ensures count { IfOk result (λ all. length all.references ≡ all_factors self.now.plans.now) }
    {
        let [plan, others @ ..] = plans else {
            return Ok(before);
        };
        let factors = plan.accesses.len();
        let more = self.union(d, e, before, coordinates[0], &references[..factors])?;
        self.unite(
            d,
            e + 1,
            others,
            &coordinates[1..],
            &references[factors..],
            more,
        )
    }

    /// Unites all terms, of which each has scanned the level below d others.
    fn unite_all(&self, d: usize, scanned: Nest) -> Result<Nest, AllocError>
        requires small { All PlanIsSmall self.now.plans.now }
        requires some { 0 < length self.now.plans.now }
        requires terms { length self.now.plans.now ≤ 16 }
        requires few { all_factors self.now.plans.now ≤ 8 }
        requires within { d < 8 }
        requires coordinates { length scanned.coordinates ≡ length self.now.plans.now }
        requires references { length scanned.references ≡ all_factors self.now.plans.now }
        ensures united { IfOk result (λ all. all ≡ united_terms self.now.plans.now d scanned) }
        ensures first { IfOk result (λ all. length all.coordinates ≡ 1) }
        ensures count { IfOk result (λ all. length all.references ≡ all_factors self.now.plans.now) }
    {
        let Nest {
            made,
            coordinates,
            references,
        } = scanned;
        let alloc = made.alloc();
        let factors = self.plans[0].accesses.len();
        let coordinates = coordinates.as_slice();
        let references = references.as_slice();
        let first = Nest {
            made,
            coordinates: Nums::from_vec(Vec::from_slice(alloc, &coordinates[..1])?),
            references: Nums::from_vec(Vec::from_slice(alloc, &references[..factors])?),
        };
        self.unite(
            d,
            1,
            &self.plans[1..],
            &coordinates[1..],
            &references[factors..],
            first,
        )
    }

    /// Adds the level below d others.
    fn shared_level(&self, d: usize, nest: Nest) -> Result<Nest, AllocError>
        requires small { All PlanIsSmall self.now.plans.now }
        requires some { 0 < length self.now.plans.now }
        requires terms { length self.now.plans.now ≤ 16 }
        requires few { all_factors self.now.plans.now ≤ 8 }
        requires within { d < 8 }
        requires references { length nest.references ≡ all_factors self.now.plans.now }
        ensures level { IfOk result (λ more. more ≡ shared_level self.now.plans.now self.now.last self.now.levels d nest) }
        ensures coordinates { IfOk result (λ more. length more.coordinates ≡ length nest.coordinates + 1) }
        ensures references { IfOk result (λ more. length more.references ≡ all_factors self.now.plans.now) }
    {
        let Nest {
            made,
            coordinates,
            references,
        } = nest;
        let alloc = made.alloc();
        let nothing = Nest {
            made,
            coordinates: Nums::new(alloc),
            references: Nums::new(alloc),
        };
        let scanned = self.scan_terms(d, 0, self.plans, references.as_slice(), nothing)?;
        let all = self.unite_all(d, scanned)?;
        Ok(Nest {
            made: all.made,
            coordinates: joined(coordinates, all.coordinates.as_slice())?,
            references: all.references,
        })
    }

    #[tactic(auto, using(crate::proofs::Counting::shared_more))]
    /// Adds all levels that the terms share, after the root, whose output is each factor's reference before the first.
    pub(crate) fn shared_levels(&self, made: Draft) -> Result<Nest, AllocError>
        requires small { All PlanIsSmall self.now.plans.now }
        requires some { 0 < length self.now.plans.now }
        requires terms { length self.now.plans.now ≤ 16 }
        requires few { all_factors self.now.plans.now ≤ 8 }
        requires levels { self.now.levels ≤ 8 }
        ensures levels { IfOk result (λ nest. nest ≡ shared_levels_of self.now.plans.now self.now.last self.now.levels self.now.levels made) }
        ensures coordinates { IfOk result (λ nest. length nest.coordinates ≡ self.now.levels) }
        ensures references { IfOk result (λ nest. length nest.references ≡ all_factors self.now.plans.now) }
    {
        let alloc = made.alloc();
        let roots = vec![in alloc; 0; all_factors(self.plans)]?;
        let mut nest = Nest {
            made,
            coordinates: Nums::new(alloc),
            references: Nums::from_vec(roots),
        };
        for d in 0..self.levels as usize {
            nest = self.shared_level(d, nest)?;
        }
        Ok(nest)
    }
}

/// The factors of these terms together.
pub(crate) fn all_factors(plans: &[Plan]) -> usize
    requires small { All PlanIsSmall plans.now }
    requires few { length plans.now ≤ 16 }
    ensures count { result ≡ all_factors plans.now }
    ensures few { result ≤ 8 * length plans.now }
{
    match plans {
        [] => 0,
        [plan, others @ ..] => plan.accesses.len() + all_factors(others),
    }
}
