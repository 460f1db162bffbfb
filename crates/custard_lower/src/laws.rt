//! A law of the lowering.

ghost use Rattle.custard_lower.specs.Laws.{LabelsAllowed};

/// The labels at each block of a program's graph are those that its rule allows.
pub fn labels_are_allowed()
    ensures { LabelsAllowed }
{}
