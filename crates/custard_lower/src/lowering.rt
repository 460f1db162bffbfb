//! The blocks of a program, in the order in which they are made.

ghost use Rattle.std.specs.Prelude.{◌≡◌, ◌≤◌, ◌++◌, [], ◌∷◌, true, length, map, drop, IfOk};
ghost use Rattle.sam_model.specs.Accepted.{term_fits};
ghost use Rattle.sam_model.specs.Program.{accepted};
ghost use Rattle.label_rules.specs.Plans.{PlanIsSmall, left_marks};
ghost use Rattle.custard_lower.specs.Lowering.{root, summed_nest, term_levels, with_writers, first_level_tree, part, with_term, with_terms, program_draft};

use crate::drafts::{Draft, Made};
use crate::nests::Nest;
use crate::plans::NumberedPlan;
use crate::reductions::{Levels, free_loops};
use crate::trees::{PrunedTrees, TermTrees};
use crate::unions::{Part, join};
use crate::values::Valued;
use graph::Kind;
use label_rules::{Plan, term_plan};
use sam_base::Items;
use sam_model::{Program, Term};
use std::alloc::{AllocError, Global};
use stream_model::{Attr, Label, Tree};

impl Levels {
    /// The blocks, and what is joined, without them; the tree is that of its first level.
    fn apart(self, tree: Tree) -> (Draft, Part)
        ensures made { result.0 ≡ self.made }
        ensures part { result.1 ≡ part tree self }
    {
        let Levels {
            made,
            coordinates,
            values,
        } = self;
        let part = Part {
            tree,
            coordinates,
            values,
        };
        (made, part)
    }
}

impl<'a> NumberedPlan<'a> {
    /// After the loops of a term, its values, and the sums over its loops that aren't on the left.
    pub fn summed(&self, nest: Nest) -> Result<Levels, AllocError>
        requires small { PlanIsSmall self.now.plan.now }
        requires references { length nest.references ≡ length self.now.plan.now.accesses }
        requires levels { length nest.coordinates ≡ length self.now.plan.now.on_left }
        ensures summed { IfOk result (λ levels. levels ≡ summed_nest self.now.trees self.now.plan.now nest) }
        ensures count { IfOk result (λ levels. length levels.coordinates ≡ left_marks self.now.plan.now.on_left) }
        ensures few { IfOk result (λ levels. length levels.coordinates ≤ 8) }
    {
        let Nest {
            made,
            coordinates,
            references,
        } = nest;
        let Valued { made, values } = self.valued(made, references.as_slice())?;
        let levels = Levels {
            made,
            coordinates,
            values,
        };
        levels.reduced(self.trees, self.plan.on_left.as_slice())
    }
}

/// The blocks of a term, without what has no value.
fn lowered_term(term: u8, plan: &Plan, made: Draft) -> Result<Levels, AllocError>
    requires { PlanIsSmall plan.now }
    ensures lowered { IfOk result (λ levels. levels ≡ term_levels term plan.now made) }
    ensures count { IfOk result (λ levels. length levels.coordinates ≡ left_marks plan.now.on_left) }
    ensures few { IfOk result (λ levels. length levels.coordinates ≤ 8) }
{
    let trees = TermTrees::Own { term };
    let numbered = NumberedPlan { trees, plan };
    let levels = numbered.summed(numbered.nest(made)?)?;
    let gone = free_loops(plan.on_left.as_slice());
    levels.pruned(PrunedTrees::OfTerm { term, gone })
}

/// A draft with the root, whose output is every factor's reference before the first loop.
pub fn rooted(alloc: Global) -> Result<Draft, AllocError>
    ensures { IfOk result (λ made. made ≡ root ∷ []) }
{
    let root = Label {
        tree: Tree::Root,
        attr: Attr::Literal(0),
    };
    let mut made = Draft::new(alloc);
    made.emit(Kind::Root, &[], &[root])?;
    Ok(made)
}

#[tactic(auto, using(crate::proofs::term::Blocks::blocks_more))]
/// A writer for each level, and one for the values.
pub fn with_writers(levels: Levels) -> Result<Draft, AllocError>
    requires { length levels.coordinates ≤ 8 }
    ensures { IfOk result (λ made. made ≡ with_writers levels) }
{
    let Levels {
        mut made,
        coordinates,
        values,
    } = levels;
    for d in 0..coordinates.len() {
        let kind = Kind::WriteLevel {
            level: (d + 1) as u8,
        };
        made.emit(kind, &[coordinates.get(d)], &[])?;
    }
    made.emit(Kind::WriteValue, &[values], &[])?;
    Ok(made)
}

/// The tree of the first level of a term.
fn first_tree(term: u8, plan: &Plan) -> Tree
    requires { PlanIsSmall plan.now }
    ensures { result ≡ first_level_tree term plan.now }
{
    Tree::Reduced {
        term,
        gone: free_loops(plan.on_left.as_slice()),
        prune: 1,
        depth: 1,
    }
}

/// Joins term number n to those before it, whose first level has this tree.
fn joined_term(
    p: &Program,
    n: u8,
    tree: Tree,
    levels: Levels,
    t: &Term,
) -> Result<Levels, AllocError>
    requires accepted { accepted p.now ≡ true }
    requires fits { term_fits p.now.tensors p.now.var_sizes p.now.left t.now ≡ true }
    requires few { length levels.coordinates ≤ 8 }
    requires levels { length levels.coordinates ≡ length p.now.result.order }
    ensures joined { IfOk result (λ more. more ≡ with_term p.now n tree levels t.now) }
    ensures count { IfOk result (λ more. length more.coordinates ≡ length levels.coordinates) }
{
    let plan = term_plan(levels.made.alloc(), p, false, t)?;
    let (made, left) = levels.apart(tree);
    let (made, right) = lowered_term(n, &plan, made)?.apart(first_tree(n, &plan));
    join(n, t.minus, made, &left, &right)
}

#[tactic(auto, using(label_rules::proofs::term::SmallPlans::term_at_fits, label_rules::proofs::term::SmallPlans::few_terms, crate::proofs::join::JoinedTerms::terms_further))]
/// Joins the terms from the second on, each to those before it; the first one's first level has this tree.
fn joined_terms(p: &Program, tree: Tree, levels: Levels) -> Result<Levels, AllocError>
    requires accepted { accepted p.now ≡ true }
    requires few { length levels.coordinates ≤ 8 }
    requires levels { length levels.coordinates ≡ length p.now.result.order }
    ensures joined { IfOk result (λ all. all ≡ with_terms p.now 1 tree levels (drop 1 p.now.terms)) }
    ensures few { IfOk result (λ all. length all.coordinates ≤ 8) }
{
    let mut tree = tree;
    let mut levels = levels;
    for n in 1..p.terms.len() {
        let last = n as u8;
        levels = joined_term(p, last, tree, levels, p.terms.get(n))?;
        tree = Tree::Joined { last, depth: 1 };
    }
    Ok(levels)
}

#[tactic(auto, using(label_rules::proofs::term::SmallPlans::some_term, label_rules::proofs::term::SmallPlans::term_at_fits, crate::proofs::join::JoinedTerms::drafted))]
/// The draft of the graph of a program.
pub(crate) fn draft(alloc: Global, p: &Program) -> Result<Items<Made>, AllocError>
    requires { accepted p.now ≡ true }
    ensures { IfOk result (λ made. made ≡ program_draft p.now) }
{
    let plan = term_plan(alloc, p, true, p.terms.get(0))?;
    let levels = lowered_term(0, &plan, rooted(alloc)?)?;
    let levels = joined_terms(p, first_tree(0, &plan), levels)?;
    Ok(with_writers(levels)?.into_made())
}
