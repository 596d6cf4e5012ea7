//! Numbers of labels, as `line_memory` asks for them once for each line that it keeps: log_judge answers by the tables of a chart's term.

ghost use Rattle.std.specs.Prelude.{◌≡◌, List};
ghost use Rattle.label_table.specs.Labels.{label_number};
ghost use Rattle.msc_base.specs.declared.label.Label.{Label};

use label_table::LabelTable;
use line_events::LineEvent;
use msc_base::Label;

/// A numbering of labels.
pub trait Numbering: Sized {
    /// The labels that have numbers, each that of its place.
    ghost labels: { Self → List Label };

    /// The number of a label, if it has one. It takes no memory.
    fn number_of(&self, label: &Label) -> Option<u32>
        ensures { result ≡ label_number (labels self.now) label.now };
}

impl Numbering for LabelTable {
    ghost labels = { λ table. table };

    fn number_of(&self, label: &Label) -> Option<u32> {
        self.number_of(label)
    }
}

/// An event with the number of its label, or none where that has none.
#[derive(Drop)]
pub struct NumberedEvent {
    pub event: LineEvent,
    pub number: Option<u32>,
}
