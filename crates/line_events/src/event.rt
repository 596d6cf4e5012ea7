//! An event with its line: event_log makes them, and trace_judge and log_judge take them.

ghost use Rattle.std.specs.Prelude.{◌≡◌, IfOk};

use msc_base::{Label, NoMemory};
use std::alloc::Global;
use std::marker::Model;
use std::rc::Rc;

/// What an event says, once for all events of equal lines.
///
/// A contract sees the label.
#[derive(Drop)]
pub struct SharedLabel {
    label: Rc<Label>,
}

impl Model for SharedLabel {
    ghost use Rattle.msc_base.specs.declared.label.Label.{Label};

    ghost Value = { Label };

    ghost view = { λ s. s.label.value };
}

impl SharedLabel {
    /// The label, to be shared.
    pub fn new(alloc: Global, label: Label) -> Result<SharedLabel, NoMemory>
        ensures { IfOk result (λ shared. shared ≡ label) }
    {
        Ok(SharedLabel {
            label: Rc::new(alloc, label)?,
        })
    }

    /// The label.
    pub fn label(&self) -> &Label
        ensures { result.now ≡ self.now }
    {
        &self.label
    }

    /// The same label once more: it is shared, and takes no memory.
    pub fn copy(&self) -> Result<SharedLabel, NoMemory>
        ensures { IfOk result (λ shared. shared ≡ self.now) }
    {
        Ok(SharedLabel {
            label: self.label.clone()?,
        })
    }
}

/// An event, with the number of its line from 1.
#[derive(Drop)]
pub struct LineEvent {
    pub label: SharedLabel,
    pub line: u64,
}
