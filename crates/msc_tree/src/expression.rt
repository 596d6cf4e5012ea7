//! Reference expressions, of references and of the nodes of graphs.

use msc_base::Name;

/// The expression of a reference, or of a graph's node (Z.120, clause 7.3).
#[derive(Drop)]
pub enum RefExpr {
    /// Nothing happens.
    Empty,
    /// The chart of this name.
    Chart(Name),
    /// One of these; at least two.
    Alt(Vec<RefExpr>),
    /// All of these, side by side; at least two.
    Par(Vec<RefExpr>),
    /// All of these, one after another; at least two.
    Seq(Vec<RefExpr>),
    /// This, or nothing.
    Opt(Box<RefExpr>),
    /// This, at least as often as the first bound says, and at most as often as the second, where there is one.
    Loop(u64, Option<u64>, Box<RefExpr>),
}
