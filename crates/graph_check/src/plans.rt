//! The plans of a program's terms.

ghost use Rattle.std.specs.Prelude.{◌≡◌, true, length, map, IfOk};
ghost use Rattle.sam_model.specs.Lists.{below};
ghost use Rattle.sam_model.specs.Program.{accepted};
ghost use Rattle.label_rules.specs.TermLabels.{plan_at};
ghost use Rattle.graph_check.specs.Known.{PlansKnown};

use crate::rules::LabelRules;
use label_rules::{Plan, term_plan};
use sam_base::Items;
use sam_model::Program;
use std::alloc::{AllocError, Global};

/// The plans of the terms of an accepted program, in their order.
#[tactic(auto, using(label_rules::proofs::term::SmallPlans::term_at_fits))]
fn plans(alloc: Global, p: &Program) -> Result<Items<Plan>, AllocError>
    requires { accepted p.now ≡ true }
    ensures { IfOk result (λ plans. plans ≡ map (plan_at p.now) (below (length p.now.terms))) }
{
    let mut plans = Items::new(alloc);
    for t in 0..p.terms.len() {
        let plan = term_plan(alloc, p, t == 0, p.terms.get(t))?;
        plans.push(plan)?;
    }
    Ok(plans)
}

impl<'a> LabelRules<'a> {
    /// What the rules ask of an accepted program.
    #[tactic(auto, using(label_rules::proofs::term::SmallPlans::few_terms))]
    pub(crate) fn new(alloc: Global, program: &'a Program) -> Result<LabelRules<'a>, AllocError>
        requires { accepted program.now ≡ true }
        ensures known { IfOk result (λ rules. PlansKnown rules) }
        ensures same { IfOk result (λ rules. rules.program.now ≡ program.now) }
    {
        let plans = plans(alloc, program)?;
        let none = Plan {
            on_left: Items::new(alloc),
            accesses: Items::new(alloc),
            coefficient: None,
        };
        Ok(LabelRules {
            program,
            plans,
            none,
            levels: program.result.order.len() as u8,
            last: program.terms.len().saturating_sub(1) as u8,
        })
    }
}
