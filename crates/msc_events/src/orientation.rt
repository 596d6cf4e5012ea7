//! Whether events are written in columns or behind the names that they cover: for `shared`, and for msc_document.

/// How the events of a chart are written (Z.120, clause 4.2).
#[derive(Clone, Copy, Debug, PartialEq, Eq)]
pub enum Orientation {
    /// In the column of an instance.
    Column,
    /// Behind the names of the instances that they cover.
    Covered,
}
