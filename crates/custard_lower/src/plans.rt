//! A term with the trees that its labels name.

use crate::trees::TermTrees;
use label_rules::Plan;

#[derive(Clone, Copy, Drop)]
pub struct NumberedPlan<'a> {
    pub trees: TermTrees,
    pub plan: &'a Plan,
}
