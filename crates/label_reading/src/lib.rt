//! The label that a text spells.
#![tactic(auto)]

mod reading;
mod words;

ghost use Rattle.label_reading.specs.Laws.{LabelsAreRead, LabelsAreSpelled};

pub use reading::read_label;

/// The text of each label is read as that label, and a label is read only from its own text.
pub fn labels_are_read()
    ensures read { LabelsAreRead }
    ensures spelled { LabelsAreSpelled }
{}
