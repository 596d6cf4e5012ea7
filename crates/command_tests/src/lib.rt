//! What no row of a table reaches of the command: texts of reports, verdicts by terms, and a judge that is fed in pieces.
#![tactic(auto)]

#[cfg(test)]
mod judging;
#[cfg(test)]
mod reports;
#[cfg(test)]
mod traces;
