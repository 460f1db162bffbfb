//! The laws of the rules: of their test, of ports, and of whole graphs.

ghost use Rattle.label_rules.specs.Laws.{TestIsExact, PortsAreFilled, RulesHold};

/// The test of a block's labels finds just those that its rule allows.
pub fn test_is_exact()
    ensures { TestIsExact }
{}

/// Labels that are allowed are as many as the block's kind has ports.
pub fn ports_are_filled()
    ensures { PortsAreFilled }
{}

/// A well formed graph with allowed labels at every block is consistent, and over each channel passes the stream of its
/// label.
pub fn rules_hold()
    ensures { RulesHold }
{}
