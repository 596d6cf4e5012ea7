//! What no clause says of the readers of documents and logs, and no row of a table shows: tokens with their places, places of
//! labels and gates, orders of items, the weaving of charts, and logs in pieces.
#![tactic(auto)]

#[cfg(test)]
mod charts;
#[cfg(test)]
mod events;
#[cfg(test)]
mod levels;
#[cfg(test)]
mod ordering;
#[cfg(test)]
mod places;
#[cfg(test)]
mod sessions;
#[cfg(test)]
mod tokens;
#[cfg(test)]
mod weaving;
#[cfg(test)]
mod woven;
