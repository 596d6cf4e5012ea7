//! How large and how deep charts are once their references are expanded, counted without expanding any, and the charts above the limits.
#![tactic(auto)]

mod extent;
mod extents;
mod limits;
mod own;
mod own_graphs;
mod sized;
pub mod worked;

pub use extent::Extent;
pub use extents::chart_extents;
pub use limits::{ExtentPlaces, extent_places};
pub use own::own_extent;
pub use sized::{SizedChart, sized_charts};
