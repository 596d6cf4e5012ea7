//! Which terms of an outline can be without events: told from the last to the first, so that a term's parts are told before it.

ghost use Rattle.std.specs.Prelude.{◌≡◌, ◌≤◌, ◌<◌, ◌+◌, ◌-◌, ◌↔◌, ◌⊎◌, ℕ, suc, Bool, List, false, length, slice_get, true, IfOk, IsTrue, OnOk, Some};
ghost use Rattle.std.proofs.Common.{get_or};
ghost use Rattle.bit_sets.specs.NodeSets.{HasAllNodes};
ghost use Rattle.chart_term.specs.Properties.{IsBelow};
ghost use Rattle.chart_term.specs.Tables.{net_count, net_of, terms_over, Tables};
ghost use Rattle.chart_term.specs.Terms.{Tree};
ghost use Rattle.hmsc_graph.specs.Nets.{size_of, IsNet};
ghost use Rattle.msc_base.specs.Lists.{IsIn};
ghost use Rattle.certificates.specs.Certificates.{HasEmpty};
ghost use Rattle.certificates.specs.CertificateLaws.{IsUnbegun};
ghost use Rattle.empty_terms.specs.Answers.{AreAllYes, AreNodesTold, ArePartsTold, AreToldFrom, AreWalksTold, AreYes, IsOneYes};
ghost use Rattle.empty_terms.specs.ChartTerms.{IsChartTerm};
ghost use Rattle.empty_terms.specs.Outlines.{AreAllUnbegun, AreBelowFrom, ArePartsKnown, IsOutline, parts_in};
ghost use Rattle.empty_terms.specs.Passing.{HasEmptyWalk};

use crate::Outline;
use bit_sets::NodeSet;
use chart_term::{Look, Term};
use hmsc_graph::{Goal, Spot, has_walk};
use msc_base::NoMemory;
use std::alloc::Global;
use term_tables::Nets;

/// The answer at that index.
fn answer_at(answers: &[bool], index: usize) -> bool
    requires { index < length answers.now }
    ensures { result ≡ get_or answers.now index false }
{
    answers[index]
}

/// Whether so many answers from the first one on are all yes.
fn all_are(answers: &[bool], first: usize, count: usize) -> bool
    requires { (j : ℕ) → j < count → first + j < length answers.now }
    ensures { IsTrue result ↔ AreAllYes answers.now first count }
{
    for part in 0..count {
        if !answer_at(answers, first + part) {
            return false;
        }
    }
    true
}

/// Whether one of so many answers from the first one on is yes.
fn one_is(answers: &[bool], first: usize, count: usize) -> bool
    requires { (j : ℕ) → j < count → first + j < length answers.now }
    ensures { IsTrue result ↔ IsOneYes answers.now first count }
{
    for part in 0..count {
        if answer_at(answers, first + part) {
            return true;
        }
    }
    false
}

/// Whether the term can be without events, where that is told of its parts, from this number on, and of walks through its nets.
fn is_empty(term: &Term, first: usize, answers: &[bool], walks: &[bool]) -> bool
    requires unbegun { IsUnbegun term.now }
    requires below { IsBelow (length walks.now) term.now }
    requires parts { (j : ℕ) → j < length (parts_in term.now) → first + j < length answers.now }
    ensures { (w : Tables) → AreWalksTold (terms_over w) walks.now → ArePartsTold (terms_over w) answers.now first (parts_in term.now)
        → IsTrue result ↔ HasEmpty (terms_over w) term.now }
{
    match term.look() {
        Look::Nil => true,
        Look::Event { .. } => false,
        Look::Seq(parts) => all_are(answers, first, parts.len()),
        Look::Par(parts) => all_are(answers, first, parts.len()),
        Look::Choice(parts) => one_is(answers, first, parts.len()),
        Look::Tied(_, _) => answer_at(answers, first),
        Look::Loop { lower, .. } => lower == 0 || answer_at(answers, first),
        Look::Walk { net, .. } => answer_at(walks, net as usize),
    }
}

/// Tells of the terms from the first number up to the second.
fn tell(outline: &Outline, walks: &[bool], from: usize, to: usize, answers: &mut Vec<bool>)
    requires to { to ≤ length outline.now.terms }
    requires whole { length outline.now.firsts.items ≡ length outline.now.terms }
    requires answers { length answers.old.items ≡ length outline.now.terms }
    requires known { ArePartsKnown outline.now.terms outline.now.firsts.items }
    requires unbegun { AreAllUnbegun outline.now.terms }
    requires below { AreBelowFrom (length walks.now) from outline.now.terms }
    ensures count { length answers.new.items ≡ length answers.old.items }
    ensures told { (w : Tables) → AreWalksTold (terms_over w) walks.now → AreToldFrom (terms_over w) outline.now.terms answers.old.items to
        → AreToldFrom (terms_over w) outline.now.terms answers.new.items from }
{
    let mut number = to;
    while number > from {
        number -= 1;
        let answer = is_empty(
            outline.term(number),
            outline.first(number),
            answers.as_slice(),
            walks,
        );
        answers[number] = answer;
    }
}

/// Adds the node where the answer is yes.
fn add_where(nodes: &mut NodeSet, node: u32, answer: bool)
    requires { node < nodes.old.size }
    ensures size { nodes.new.size ≡ nodes.old.size }
    ensures nodes { (n : ℕ) → IsIn n nodes.new.nodes ↔ (IsIn n nodes.old.nodes ⊎ ((n ≡ node) × IsTrue answer)) }
{
    if answer {
        nodes.add(node);
    }
}

/// The nodes of the net whose terms can be without events.
fn empty_nodes(
    alloc: Global,
    nets: &Nets,
    net: u32,
    root: usize,
    answers: &[bool],
) -> Result<NodeSet, NoMemory>
    requires net { net < net_count nets.now.tables }
    requires nodes { root + size_of (net_of nets.now.tables net) ≤ length answers.now }
    ensures size { IfOk result (λ nodes. nodes.size ≡ size_of (net_of nets.now.tables net)) }
    ensures net { IfOk result (λ nodes. IsNet (net_of nets.now.tables net)) }
    ensures nodes { IfOk result (λ nodes. AreYes answers.now root (size_of (net_of nets.now.tables net)) nodes.nodes) }
{
    let size = nets.net(net).size();
    let mut nodes = NodeSet::empty(alloc, size)?;
    for node in 0..size {
        let can = answer_at(answers, root + node as usize);
        add_where(&mut nodes, node, can);
    }
    Ok(nodes)
}

/// Whether a walk through the net can be without events, where that is told of the terms of its nodes.
fn has_empty_walk(
    alloc: Global,
    nets: &Nets,
    net: u32,
    root: usize,
    answers: &[bool],
) -> Result<bool, NoMemory>
    requires net { net < net_count nets.now.tables }
    requires nodes { root + size_of (net_of nets.now.tables net) ≤ length answers.now }
    ensures { IfOk result (λ has. AreNodesTold nets.now.tables net root answers.now → IsTrue has ↔ HasEmptyWalk (terms_over nets.now.tables) net) }
{
    let nodes = empty_nodes(alloc, nets, net, root, answers)?;
    has_walk(alloc, nets.net(net), Spot::Start, Goal::End, &nodes)
}

/// So many answers of no.
fn none_told(alloc: Global, count: usize) -> Result<Vec<bool>, NoMemory>
    ensures { IfOk result (λ answers. length answers.items ≡ count) }
{
    let mut answers = Vec::new(alloc);
    answers.resize(count, false)?;
    Ok(answers)
}

/// Tells of the nodes of the net, and of what stands behind them up to the end, and then of walks through the net.
fn tell_net(
    alloc: Global,
    nets: &Nets,
    outline: &Outline,
    net: u32,
    end: usize,
    answers: &mut Vec<bool>,
    walks: &mut Vec<bool>,
) -> Result<usize, NoMemory>
    requires outline { (x : Tree) × IsOutline nets.now.tables x outline.now }
    requires net { net < net_count nets.now.tables }
    requires walks { length walks.old.items ≡ net }
    requires end { end ≤ length outline.now.terms }
    requires answers { length answers.old.items ≡ length outline.now.terms }
    ensures start { IfOk result (λ start. start ≤ length outline.now.terms) }
    ensures count { OnOk result (length answers.new.items ≡ length answers.old.items) }
    ensures walks { OnOk result (length walks.new.items ≡ length walks.old.items + 1) }
    ensures told { IfOk result (λ start. AreWalksTold (terms_over nets.now.tables) walks.old.items
        → AreToldFrom (terms_over nets.now.tables) outline.now.terms answers.old.items end
        → AreToldFrom (terms_over nets.now.tables) outline.now.terms answers.new.items start × AreWalksTold (terms_over nets.now.tables) walks.new.items) }
{
    let root = outline.root(net);
    tell(outline, walks.as_slice(), root, end, answers);
    let has = has_empty_walk(alloc, nets, net, root, answers.as_slice())?;
    walks.push(has)?;
    Ok(root)
}

/// For each term of an outline whether it has a finished pattern without events.
///
/// It fails only for want of memory. It takes the time of all terms of the outline, each of them once, and of a search through
/// each net.
pub fn empty_parts(alloc: Global, nets: &Nets, outline: &Outline) -> Result<Vec<bool>, NoMemory>
    requires { (x : Tree) × IsOutline nets.now.tables x outline.now }
    ensures count { IfOk result (λ answers. length answers.items ≡ length outline.now.terms) }
    ensures told { IfOk result (λ answers. AreToldFrom (terms_over nets.now.tables) outline.now.terms answers.items 0) }
{
    let mut answers = none_told(alloc, outline.terms.len())?;
    let mut walks = Vec::new(alloc);
    let mut end = outline.terms.len();
    for net in 0..nets.count() {
        end = tell_net(alloc, nets, outline, net, end, &mut answers, &mut walks)?;
    }
    tell(outline, walks.as_slice(), 0, end, &mut answers);
    Ok(answers)
}

/// Whether the term has a finished pattern without events.
///
/// It fails only for want of memory. It takes the time of all parts of the term and of the nets, each of them once, but for a
/// logarithm in long lists of parts, and of a search through each net; its depth takes no stack.
pub fn can_be_empty(alloc: Global, nets: &Nets, term: &Term) -> Result<bool, NoMemory>
    requires { IsChartTerm nets.now.tables term.now }
    ensures { IfOk result (λ there. IsTrue there ↔ HasEmpty (terms_over nets.now.tables) term.now) }
{
    let outline = Outline::of(alloc, nets, term)?;
    let answers = empty_parts(alloc, nets, &outline)?;
    let can = answer_at(answers.as_slice(), 0);
    Ok(can)
}
