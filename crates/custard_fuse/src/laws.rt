//! Laws of fused graphs.

ghost use Rattle.custard_fuse.specs.Laws.{FusedGraphCarries, FusedRulesHold};

/// A well formed graph whose labels the rules of fused graphs allow at every block is consistent, and over each channel passes the
/// stream of its label.
pub fn fused_rules_hold()
    ensures { FusedRulesHold }
{}

/// The fused graph of a program is well formed, with allowed labels at every block. Over every list of entries it reads what is stored,
/// its streams fit together, over each channel passes the stream of its label, and what its writers leave lists the result.
pub fn fused_graph_carries()
    ensures { FusedGraphCarries }
{}
