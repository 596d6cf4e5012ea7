//! The laws of accounts. Each is the contract of a function that does nothing.

ghost use Rattle.certificate_accounts.specs.AccountLaws.{AccountsGoBack};
ghost use Rattle.certificate_accounts.specs.EmptyWays.{WaysAreFound};
ghost use Rattle.certificate_accounts.specs.Examples.{ExamplesGoBack};

/// An account of what is left after an event gives one of the term before it; so the whole way of a log gives an account of the term
/// before the log, and that gives a certificate that holds.
#[tactic(auto, using(crate::proofs::TablesBack::accounts_go_back))]
pub fn accounts_go_back()
    ensures { AccountsGoBack }
{}

/// Walks through nodes without events are found by a search of each net's graph for walks through such nodes.
#[tactic(auto, using(crate::proofs::EmptyWays::ways_are_found))]
pub fn ways_are_found()
    ensures { WaysAreFound }
{}

/// The accounts of a message, of a loop that runs twice and of a walk; and certificates of the message and the walk by the laws.
#[tactic(auto, using(crate::proofs::Examples::examples_go_back))]
pub fn examples_go_back()
    ensures { ExamplesGoBack }
{}
