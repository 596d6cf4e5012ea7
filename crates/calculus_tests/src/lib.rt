//! What no clause says of the calculus: outside values of weights, permission and steps, each call once.
#![tactic(auto)]

#[cfg(test)]
mod permission;
#[cfg(test)]
mod rows;
#[cfg(test)]
mod samples;
#[cfg(test)]
mod steps;
#[cfg(test)]
mod tables;
#[cfg(test)]
mod terms;
#[cfg(test)]
mod words;
