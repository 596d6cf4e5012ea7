//! What the heads of a chart declare.

use msc_base::Names;
use msc_tree::DeclList;

/// What the heads of a chart declare.
#[derive(Drop)]
pub struct Heads {
    /// Its instances.
    pub decls: DeclList,
    /// Its messages.
    pub messages: Names,
    /// Its timers.
    pub timers: Names,
}
