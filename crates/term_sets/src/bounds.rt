//! The bounds of what a memory of sets holds.

/// The bounds of what a memory of sets holds.
#[derive(Clone, Copy, Debug, PartialEq, Eq)]
pub struct Bounds {
    /// The most that a set weighs which is remembered.
    pub light: u64,
    /// The most that all remembered sets weigh together.
    pub held: u64,
    /// The most remembered moves, and the most remembered sets.
    pub rows: u32,
}
