//! An event of a term, by numbers alone: what its label and instances are called stands in the tables (term_tables).

ghost use Rattle.std.specs.Prelude.{◌≡◌};
ghost use Rattle.chart_term.specs.Views.{event_of, stored_event};

/// An event of a term.
#[derive(Clone, Copy, Debug, PartialEq, Eq)]
pub struct Event {
    /// Its number in the chart.
    pub number: u32,
    /// The instance at which it happens, or the smaller of its two.
    pub at: u32,
    /// Its second instance, as that of a creation.
    pub also: Option<u32>,
    /// The number of its label.
    pub label: u32,
}

/// An event as a node stores it: numbers of instances stay below `msc_base::Limits::INSTANCES`, so 16 bits hold them.
#[derive(Clone, Copy)]
pub(crate) struct StoredEvent {
    pub(crate) number: u32,
    pub(crate) label: u32,
    pub(crate) at: u16,
    pub(crate) also: Option<u16>,
}

impl StoredEvent {
    /// The event as it is shown.
    pub(crate) fn shown(&self) -> Event
        ensures { event_of result ≡ stored_event self.now }
    {
        let also = match self.also {
            Some(second) => Some(second as u32),
            None => None,
        };
        Event {
            number: self.number,
            at: self.at as u32,
            also,
            label: self.label,
        }
    }
}
