//! Which loops have too high a bound, and how large charts are: by their text, and by what they are woven to.
#![tactic(auto)]

mod bounds;
mod graph_bounds;
mod graph_sizes;
mod sizes;
mod ties;

pub use bounds::first_high_bound;
pub use sizes::size;
pub use ties::{tie_gates, ties_gates};
