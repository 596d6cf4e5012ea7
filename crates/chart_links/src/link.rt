//! What a chart says of charts, link by link: `linking` makes them, `tables` and `faults` read them.

ghost use Rattle.std.specs.Prelude.{◌≡◌, ◌++◌, ◌∷◌, [], List, map, OnOk, OnErr};
ghost use Rattle.chart_links.specs.LinkViews.{link_view};
ghost use Rattle.chart_links.specs.Links as plain;

use chart_text::Scope;
use msc_base::{Name, NoMemory, Place};
use std::alloc::Global;
use std::marker::Model;

/// What a chart says of a chart.
#[derive(Clone, Copy)]
pub enum Link<'a> {
    /// A reference at that place, which covers these instances, names the chart, so deep in the nesting of its own (Z.120, clause 7.3).
    Refers(&'a Name, Place, Scope<'a>, u32),
    /// The first name is an instance, which the chart of the second refines, as is said at that place.
    Refines(&'a Name, &'a Name, Place),
}

/// Links, in the order of the text.
#[derive(Drop)]
pub struct LinkList<'a> {
    held: Vec<Link<'a>>,
}

impl<'a> Model for LinkList<'a> {
    ghost Value = { List plain.Link };

    ghost view = { λ l. map link_view l.held.items };
}

impl<'a> LinkList<'a> {
    /// No links. It takes no memory.
    pub fn new(alloc: Global) -> LinkList<'a>
        ensures { result ≡ [] }
    {
        LinkList {
            held: Vec::new(alloc),
        }
    }

    /// Appends a link. After want of memory the list is as it was.
    pub fn push(&mut self, link: Link<'a>) -> Result<(), NoMemory>
        ensures ok { OnOk result (self.new ≡ self.old ++ link_view link.entry ∷ []) }
        ensures err { OnErr result (self.new ≡ self.old) }
    {
        self.held.push(link)?;
        Ok(())
    }

    /// The links as a slice.
    pub fn as_slice(&self) -> &[Link<'a>]
        ensures { map link_view result.now ≡ self.now }
    {
        self.held.as_slice()
    }
}
