//! Graphs as they are written: lines with labels, nodes, frames.

use crate::RefExpr;
use msc_base::{LabelRefs, Name, Names, Place};

/// The graph of a high-level chart, or a frame of one of its nodes (Z.120, clause 7.5).
#[cycle(graphs)]
#[derive(Drop)]
pub struct RawGraph {
    /// The labels of the lines where a walk starts.
    pub starts: LabelRefs,
    /// Its lines, in the order of the text.
    pub lines: Vec<RawLine>,
}

/// A line of a graph: a node, and where walks go on from it.
#[cycle(graphs)]
#[derive(Drop)]
pub struct RawLine {
    /// The label of the line.
    pub label: Name,
    /// Where the label stands.
    pub place: Place,
    /// The node.
    pub node: NodeKind,
    /// The labels of the lines that a walk goes on to.
    pub next: LabelRefs,
}

/// A node of a graph.
#[cycle(graphs)]
#[derive(Drop)]
pub enum NodeKind {
    /// A walk ends.
    Ends,
    /// Nothing happens.
    Connect,
    /// Conditions.
    Condition(Names),
    /// Charts are referred to.
    Refer(RefExpr),
    /// Walks through all of these graphs, side by side.
    Frames(Vec<RawGraph>),
}
