//! What no clause says of sets, labels and graphs: outside values of numbers, walks, ways and ends, each call once.
#![tactic(auto)]

#[cfg(test)]
mod blocks;
#[cfg(test)]
mod graphs;
#[cfg(test)]
mod labels;
