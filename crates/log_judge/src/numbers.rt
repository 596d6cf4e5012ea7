//! The numbers that labels have in a chart's tables, as the reader of a log asks for them: for `judge` and `taking`, and for the judge of sessions.

use event_log::Numbering;
use msc_base::Label;
use std::rc::Rc;
use term_tables::Nets;

/// The tables of a chart's term, shared with the judge: they number labels.
#[derive(Drop)]
pub struct TableNumbers {
    /// The tables.
    pub nets: Rc<Nets>,
}

impl Numbering for TableNumbers {
    ghost labels = { λ numbers. numbers.nets.value.labels };

    fn number_of(&self, label: &Label) -> Option<u32> {
        self.nets.label(label)
    }
}
