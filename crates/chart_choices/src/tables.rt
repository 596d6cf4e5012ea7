//! The tables over which the terms of operands are made: for `makers` and `walk`.

use msc_base::NameTable;
use std::alloc::Global;
use term_tables::Nets;

/// The instances and the labels of a chart's expansion by their numbers, with the nets of the walks of its parts so far.
#[derive(Drop)]
pub(crate) struct TermTables {
    /// The names of the instances.
    pub(crate) names: NameTable,
    /// The labels and the nets.
    pub(crate) nets: Nets,
}
