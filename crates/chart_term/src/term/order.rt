//! The order and the equality of terms, by codes, then part by part: by them sets of terms (trace_judge) and choices keep each once.

ghost use Rattle.std.specs.Prelude.{◌≡◌, ◌+◌, ◌≤◌, ◌↔◌, IsTrue, length};
ghost use Rattle.chart_term.specs.Comparisons.{ComparesAs, ComparesParts};
ghost use Rattle.chart_term.specs.Order.{event_cmp, pairs_cmp, rank, row_cmp, shape_cmp, tree_cmp};
ghost use Rattle.chart_term.specs.Sizes.{nodes, parts_nodes};
ghost use Rattle.chart_term.specs.Terms.{row_of};
ghost use Rattle.chart_term.specs.Views.{event_of, pairs_of};

use super::{Form, Node, PartList, RowPart, Term};
use crate::Event;
use std::cmp::Ordering;
use term_facts::{compare_counts, compare_maybe};
use tie_list::TieList;

/// How two terms, or two lists, compare.
#[derive(Drop)]
pub(crate) enum Compared<'a> {
    /// In this order.
    Told(Ordering),
    /// As these two do, which stand in them; where these are equal, in this order.
    As(&'a Term, &'a Term, Ordering),
}

/// By number, instances and label.
fn compare_events(event: &Event, other: &Event) -> Ordering
    ensures { result ≡ event_cmp (event_of event.now) (event_of other.now) }
{
    let numbers = event.number.cmp(&other.number);
    let places = event.at.cmp(&other.at);
    let seconds = compare_maybe(event.also, other.also);
    let labels = event.label.cmp(&other.label);
    numbers.then(places.then(seconds.then(labels)))
}

/// Pair by pair.
#[tactic(auto, using(term_facts::proofs::Listing::listing))]
fn compare_ties(pairs: &TieList, others: &TieList) -> Ordering
    ensures { result ≡ pairs_cmp (pairs_of pairs.now) (pairs_of others.now) }
{
    let mut at = 0;
    while at < pairs.len() && at < others.len() {
        let pair = pairs.at(at);
        let other = others.at(at);
        let firsts = pair.first.cmp(&other.first);
        let order = firsts.then(pair.second.cmp(&other.second));
        if order != Ordering::Equal {
            return order;
        }
        at += 1;
    }
    pairs.len().cmp(&others.len())
}

impl Form {
    ghost use Rattle.chart_term.specs.TermViews.{tree_of};

    /// The constructor's place in the table of weights.
    fn rank(&self) -> u8
        ensures { result ≡ rank (tree_of self.now) }
    {
        match self {
            Form::Nil => 0,
            Form::Event(_) => 1,
            Form::Seq(_) => 2,
            Form::Par(_) => 3,
            Form::Choice(_) => 4,
            Form::Tied(_, _) => 5,
            Form::Loop(_) => 6,
            Form::Walk(_) => 7,
        }
    }
}

impl Term {
    /// By code, by constructor, then by the parts in their order. It goes down the heaviest parts of lists, and below ties, in a
    /// loop, so that the stack grows with the logarithm of the weight. Most terms that differ have different codes, so a set mostly
    /// compares one number.
    #[cycle(compare)]
    pub(crate) fn compare(&self, other: &Term) -> Ordering
        ensures { result ≡ tree_cmp self.now other.now }
    {
        let mut first = self;
        let mut second = other;
        let mut behind = Ordering::Equal;
        loop {
            let codes = first.facts().code.cmp(&second.facts().code);
            if codes != Ordering::Equal {
                return codes;
            }
            match first.compare_light(second) {
                Compared::Told(order) => return order.then(behind),
                Compared::As(inner, other_inner, order) => {
                    first = inner;
                    second = other_inner;
                    behind = order.then(behind);
                }
            }
        }
    }

    /// By constructor, then by the parts but for the heaviest.
    #[cycle(compare)]
    #[tactic(auto, using(crate::proofs::Comparing::comparing))]
    fn compare_light<'a>(&'a self, other: &'a Term) -> Compared<'a>
        ensures { ComparesAs (shape_cmp self.now other.now) (nodes self.now) result }
    {
        let node: &'a Node = &self.node;
        let other_node: &'a Node = &other.node;
        match (&node.form, &other_node.form) {
            (Form::Nil, Form::Nil) => Compared::Told(Ordering::Equal),
            (Form::Event(event), Form::Event(second)) => {
                Compared::Told(compare_events(&event.shown(), &second.shown()))
            }
            (Form::Seq(parts), Form::Seq(others)) => parts.compare_light(others),
            (Form::Par(parts), Form::Par(others)) => parts.compare_light(others),
            (Form::Choice(parts), Form::Choice(others)) => parts.compare_light(others),
            (Form::Tied(inner, pairs), Form::Tied(second, others)) => {
                match compare_ties(pairs, others) {
                    Ordering::Equal => Compared::As(inner, second, Ordering::Equal),
                    order => Compared::Told(order),
                }
            }
            (Form::Loop(parts), Form::Loop(others)) => {
                let counts = parts
                    .lower
                    .cmp(&others.lower)
                    .then(compare_counts(parts.upper, others.upper));
                match parts.body.compare(&others.body).then(counts) {
                    Ordering::Equal => parts.row.compare_light(&others.row),
                    order => Compared::Told(order),
                }
            }
            (Form::Walk(parts), Form::Walk(others)) => {
                let nets = parts.net.cmp(&others.net);
                let spots = parts.from.compare(others.from);
                let goals = parts.to.compare(others.to);
                let blocks = parts.block.compare_instances(&others.block);
                Compared::Told(nets.then(spots.then(goals.then(blocks))))
            }
            (first, second) => Compared::Told(first.rank().cmp(&second.rank())),
        }
    }
}

impl RowPart {
    ghost use Rattle.chart_term.specs.Order.{part_cmp};
    ghost use Rattle.chart_term.specs.Rows.{part_of};
    ghost use Rattle.chart_term.specs.Sizes.{part_nodes};

    /// Gaps first, by their blocks; then begun turns.
    #[cycle(compare)]
    fn compare(&self, other: &RowPart) -> Ordering
        ensures { result ≡ part_cmp (part_of self.now) (part_of other.now) }
    {
        match (self, other) {
            (RowPart::Gap(block), RowPart::Gap(second)) => block.compare_instances(second),
            (RowPart::Gap(_), RowPart::Turn(_)) => Ordering::Less,
            (RowPart::Turn(_), RowPart::Gap(_)) => Ordering::Greater,
            (RowPart::Turn(turn), RowPart::Turn(second)) => turn.compare(second),
        }
    }
}

impl PartList {
    /// The parts of both lists from one place up to another, one by one, gaps before begun turns; where a list ends before that, by
    /// the lengths.
    #[cycle(compare)]
    #[tactic(auto, using(crate::proofs::Comparing::comparing))]
    fn compare_parts(&self, other: &PartList, from: usize, to: usize) -> Ordering
        requires behind { from ≤ to }
        requires within { from ≤ length self.now }
        requires other_within { from ≤ length other.now }
        ensures { ComparesParts self.now other.now from to result }
    {
        let count = self.len();
        let other_count = other.len();
        let mut at = from;
        while at < to && at < count && at < other_count {
            let order = self.at(at).compare(other.at(at));
            if order != Ordering::Equal {
                return order;
            }
            at += 1;
        }
        if at == to {
            return Ordering::Equal;
        }
        count.cmp(&other_count)
    }

    /// Part by part, gaps before begun turns, but for the heaviest of those that both have.
    #[cycle(compare)]
    #[tactic(auto, using(crate::proofs::Comparing::comparing))]
    fn compare_light<'a>(&'a self, other: &'a PartList) -> Compared<'a>
        ensures { ComparesAs (row_cmp (row_of self.now) (row_of other.now)) (parts_nodes self.now) result }
    {
        let shared = self.len().min(other.len());
        if shared == 0 {
            return Compared::Told(self.len().cmp(&other.len()));
        }
        let mut heavy = 0;
        let mut most = 0;
        for at in 0..shared {
            if let RowPart::Turn(turn) = self.at(at) {
                if turn.weight() > most {
                    heavy = at;
                    most = turn.weight();
                }
            }
        }
        let front = self.compare_parts(other, 0, heavy);
        if front != Ordering::Equal {
            return Compared::Told(front);
        }
        let end = self.len().max(other.len());
        let behind = self.compare_parts(other, heavy + 1, end);
        match (self.at(heavy), other.at(heavy)) {
            (RowPart::Turn(turn), RowPart::Turn(second)) => Compared::As(turn, second, behind),
            (part, second) => Compared::Told(part.compare(second).then(behind)),
        }
    }
}

impl Term {
    /// Whether the terms are equal. It takes no memory.
    pub fn same(&self, other: &Term) -> bool
        ensures { IsTrue result ↔ (self.now ≡ other.now) }
    {
        let node: &Node = &self.node;
        let other_node: &Node = &other.node;
        match (&node.form, &other_node.form) {
            (Form::Event(event), Form::Event(second)) => {
                event.number == second.number
                    && event.label == second.label
                    && event.at == second.at
                    && event.also == second.also
            }
            _ => self.weight() == other.weight() && self.compare(other) == Ordering::Equal,
        }
    }
}

impl PartialEq for Term {
    ghost use Rattle.std.specs.Cmp.{eq_by_cmp_equiv, partial_equiv_from_equiv};
    ghost use Rattle.std.specs.Ordering.{eq_by_cmp};
    ghost use Rattle.chart_term.specs.Order.{tree_cmp};
    ghost use Rattle.chart_term.specs.OrderLaws.{tree_total};

    ghost eq = { eq_by_cmp tree_cmp };

    ghost laws = { partial_equiv_from_equiv (eq_by_cmp_equiv tree_total) };

    fn eq(&self, other: &Term) -> bool {
        self.compare(other) == Ordering::Equal
    }
}

impl Eq for Term {
    ghost use Rattle.std.specs.Cmp.{eq_by_cmp_equiv};
    ghost use Rattle.chart_term.specs.OrderLaws.{tree_total};

    ghost laws = { eq_by_cmp_equiv tree_total };
}

impl PartialOrd for Term {
    ghost use Rattle.std.specs.Cmp.{partial_order_from_total};
    ghost use Rattle.std.specs.Ordering.{as_partial_cmp};
    ghost use Rattle.chart_term.specs.Order.{tree_cmp};
    ghost use Rattle.chart_term.specs.OrderLaws.{tree_total};

    ghost partial_cmp = { as_partial_cmp tree_cmp };

    ghost laws = { partial_order_from_total tree_total };

    fn partial_cmp(&self, other: &Term) -> Option<Ordering> {
        Some(self.compare(other))
    }
}

impl Ord for Term {
    ghost use Rattle.std.specs.Prelude.{refl};
    ghost use Rattle.chart_term.specs.Order.{tree_cmp};
    ghost use Rattle.chart_term.specs.OrderLaws.{tree_total};

    ghost cmp = { tree_cmp };

    ghost total = { tree_total };

    ghost matches_partial_cmp = { λ x y. refl };

    ghost matches_eq = { λ x y. refl };

    fn cmp(&self, other: &Term) -> Ordering {
        self.compare(other)
    }
}
