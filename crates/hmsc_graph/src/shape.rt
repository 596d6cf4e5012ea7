//! A graph as it is written, by labels and places: what `net` makes a graph of.

use msc_base::{Items, LabelRefs, Name, Place};

/// A graph as it is written, without the contents of its nodes (Z.120, clause 7.5, high-level MSC).
#[derive(Drop)]
pub struct Shape {
    /// The labels of the lines at which a walk may begin.
    pub starts: LabelRefs,
    /// The lines, in the order of the text.
    pub lines: ShapeLines,
}

/// A line of a graph: a node, and where a walk goes on behind it.
#[derive(Drop)]
pub struct ShapeLine {
    /// The line's label.
    pub label: Name,
    /// Where the label stands.
    pub place: Place,
    /// Whether the line is an `end` line.
    pub ends: bool,
    /// The labels of the next lines.
    pub next: LabelRefs,
}

/// A list of lines.
pub type ShapeLines = Items<ShapeLine>;
