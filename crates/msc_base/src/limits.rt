//! The limits of documents, logs and budgets, each once: the readers, the rules and the judge take them from here.

/// The limits of documents, logs and words.
pub struct Limits;

impl Limits {
    /// The most bytes of a document.
    pub const DOCUMENT_BYTES: u64 = 4_194_304;
    /// The most charts in a document.
    pub const CHARTS: u64 = 4_096;
    /// The most different instance names in a document.
    pub const INSTANCES: u64 = 1_024;
    /// The most bytes of a name.
    pub const NAME_BYTES: u64 = 255;
    /// The deepest nesting in one chart's text.
    pub const NESTING: u64 = 64;
    /// The most node lines in one graph or frame.
    pub const NODE_LINES: u64 = 4_096;
    /// The largest loop bound.
    pub const LOOP_BOUND: u64 = 1_000_000;
    /// The deepest nesting of a chart once its references are expanded.
    pub const EXPANDED_NESTING: u64 = 256;
    /// The largest size of a chart once its references are expanded.
    pub const EXPANDED_SIZE: u64 = 200_000;
    /// The largest sum of the expanded sizes of all charts of a document.
    pub const TOTAL_SIZE: u64 = 2_000_000;
    /// The most bytes of a log.
    pub const LOG_BYTES: u64 = 67_108_864;
    /// The most events of a log.
    pub const LOG_EVENTS: u64 = 1_000_000;
    /// The most bytes of a log's line, without its line end.
    pub const LINE_BYTES: u64 = 4_096;
    /// The largest budget.
    pub const BUDGET_MOST: u64 = 4_000_000;
    /// The budget where none is stated.
    pub const BUDGET_DEFAULT: u64 = 1_000_000;
}
