//! The woven body of a basic chart, level by level, or why it isn't woven: columns that cross, messages without partner,
//! events that don't stand at one instance, and graphs.
#![tactic(auto)]

mod alone;
mod answers;
mod events;
mod exceptions;
pub mod laws;
mod levels;
mod matching;
mod pairing;
mod weaving;

pub use events::PlacedEvent;
pub use exceptions::first_misplaced;
pub use levels::joint_item;
pub use weaving::{WeaveFault, weave};
