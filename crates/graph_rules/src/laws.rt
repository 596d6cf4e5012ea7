//! The law of graphs that keep the rules, as the contract of a function that does nothing.

ghost use Rattle.graph_rules.specs.EndingGraphs.{WalksEnd};

/// Where no line of a graph is endless, walks through its net come to an end.
pub fn walks_end()
    ensures { WalksEnd }
{}
