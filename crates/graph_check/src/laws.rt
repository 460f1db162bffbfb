//! Laws of the rules.

ghost use Rattle.graph_check.specs.Laws.{RulesSuffice, LoweredGraphMeets};

/// A well formed graph that meets the rules on writers and on labels computes the tensor of its program.
pub fn rules_suffice()
    ensures { RulesSuffice }
{}

/// The graph of every accepted program meets these rules.
pub fn lowered_graph_meets()
    ensures { LoweredGraphMeets }
{}
