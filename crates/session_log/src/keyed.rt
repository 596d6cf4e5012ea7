//! An event with the key of its session: SessionReader hands them out.

ghost use Rattle.std.specs.Prelude.{◌≡◌, IfOk};

use event_log::SharedLabel;
use msc_base::{Label, Name, NoMemory};
use std::alloc::Global;
use std::marker::Model;
use std::rc::Rc;

/// The key of a session, once for all events of equal lines.
///
/// A contract sees the bytes of the name.
#[derive(Drop)]
pub struct SharedName {
    name: Rc<Name>,
}

impl Model for SharedName {
    ghost use Rattle.std.specs.Prelude.{ℕ, List};

    ghost Value = { List ℕ };

    ghost view = { λ s. s.name.value };
}

impl SharedName {
    /// The name, to be shared.
    pub fn new(alloc: Global, name: Name) -> Result<SharedName, NoMemory>
        ensures { IfOk result (λ shared. shared ≡ name) }
    {
        Ok(SharedName {
            name: Rc::new(alloc, name)?,
        })
    }

    /// The name.
    pub fn name(&self) -> &Name
        ensures { result.now ≡ self.now }
    {
        &self.name
    }

    /// The same name once more: it is shared, and takes no memory.
    pub fn copy(&self) -> Result<SharedName, NoMemory>
        ensures { IfOk result (λ shared. shared ≡ self.now) }
    {
        Ok(SharedName {
            name: self.name.clone()?,
        })
    }
}

/// What a line says of its event.
#[derive(Drop)]
pub struct KeyedLabel {
    /// The key of its session.
    pub key: SharedName,
    pub label: SharedLabel,
}

impl KeyedLabel {
    /// Both, to be shared.
    pub fn new(alloc: Global, key: Name, label: Label) -> Result<KeyedLabel, NoMemory>
        ensures { IfOk result (λ event. event ≡ record { key = key; label = label }) }
    {
        Ok(KeyedLabel {
            key: SharedName::new(alloc, key)?,
            label: SharedLabel::new(alloc, label)?,
        })
    }

    /// The same once more: it is shared, and takes no memory.
    pub fn copy(&self) -> Result<KeyedLabel, NoMemory>
        ensures { IfOk result (λ event. event ≡ self.now) }
    {
        Ok(KeyedLabel {
            key: self.key.copy()?,
            label: self.label.copy()?,
        })
    }
}

/// An event of a session, with the number of its line from 1.
#[derive(Drop)]
pub struct KeyedEvent {
    /// The key of its session.
    pub key: SharedName,
    pub label: SharedLabel,
    pub line: u64,
}

/// An event with the number of its session and the number of its label.
#[derive(Drop)]
pub struct KeyedNumberedEvent {
    pub event: KeyedEvent,
    /// The number of its session from 0, in the order of the sessions' first lines.
    pub session: usize,
    /// The number of its label, or none where that has none.
    pub number: Option<u32>,
}
