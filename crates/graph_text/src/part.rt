//! What stands in the text of a graph, part by part: `walk` makes the list, and rules on graphs go through it.

use msc_tree::{RawGraph, RawLine};

/// What stands in the text of a graph, with how deep it stands in the nesting of its chart.
#[derive(Clone, Copy)]
pub enum GraphPart<'a> {
    /// A graph, or a frame.
    Graph(u32, &'a RawGraph),
    /// A line of one.
    Line(u32, &'a RawLine),
}
