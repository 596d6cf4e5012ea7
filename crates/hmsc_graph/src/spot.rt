//! Where a walk begins and where it leads. Terms of walks (chart_term, term_step) carry both.

ghost use Rattle.std.specs.Prelude.{◌≡◌};
ghost use Rattle.hmsc_graph.specs.Spots.{goal_cmp, goal_of, spot_cmp, spot_of};

use std::cmp::Ordering;

/// Where a walk begins.
#[derive(Clone, Copy, Debug, PartialEq, Eq)]
pub enum Spot {
    /// Before the first edge of the graph.
    Start,
    /// At the node of this number.
    Node(u32),
}

/// Where a walk leads.
#[derive(Clone, Copy, Debug, PartialEq, Eq)]
pub enum Goal {
    /// To the node of this number.
    Node(u32),
    /// To an `end` line.
    End,
    /// Anywhere: a walk under way.
    Any,
}

impl Spot {
    /// The start first, then nodes by their numbers: for the order of terms.
    pub fn compare(self, other: Spot) -> Ordering
        ensures { result ≡ spot_cmp (spot_of self) (spot_of other) }
    {
        match (self, other) {
            (Spot::Start, Spot::Start) => Ordering::Equal,
            (Spot::Start, Spot::Node(_)) => Ordering::Less,
            (Spot::Node(_), Spot::Start) => Ordering::Greater,
            (Spot::Node(first), Spot::Node(second)) => first.cmp(&second),
        }
    }
}

impl Goal {
    /// Nodes first, by their numbers, then an end, then anywhere: for the order of terms.
    pub fn compare(self, other: Goal) -> Ordering
        ensures { result ≡ goal_cmp (goal_of self) (goal_of other) }
    {
        match (self, other) {
            (Goal::Node(first), Goal::Node(second)) => first.cmp(&second),
            (Goal::End, Goal::End) => Ordering::Equal,
            (Goal::Any, Goal::Any) => Ordering::Equal,
            (Goal::Node(_), _) => Ordering::Less,
            (_, Goal::Node(_)) => Ordering::Greater,
            (Goal::End, Goal::Any) => Ordering::Less,
            (Goal::Any, Goal::End) => Ordering::Greater,
        }
    }
}
