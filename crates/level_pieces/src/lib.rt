//! What stands on a level of a basic chart as it is written: its pieces with their events numbered, its items with their parts and
//! operands, and the columns that these stand in.
#![tactic(auto)]

mod column_table;
mod columns;
mod counting;
mod covering;
mod covers;
mod items;
mod noting;
mod numbering;
mod operands;
mod pieces;
mod references;

pub use columns::woven_order;
pub use counting::sum_of;
pub use covering::{is_event, item_cover, item_names};
pub use covers::covered;
pub use items::{LevelItems, copied_events_of, copied_reference, level_items};
pub use noting::earlier_of;
pub use operands::{LevelNames, item_operands, operands_of_form};
pub use pieces::{LevelItem, Part, Piece, PieceSide, chart_pieces, lead_of};
