//! One step of reading: what a task becomes, by the next line where it wants one.

ghost use Rattle.std.specs.List.{list_any};
ghost use Rattle.std.specs.Prelude.{◌≡◌, ◌==◌, ◌<◌, ◌≤◌, ◌+◌, ◌-◌, ◌↔◌, ◌⊎◌, ℕ, suc, false, length, true, IfOk, IfSome, IfNone, IsTrue, List, None, Some};
ghost use Rattle.std.proofs.Common.{get_or};
ghost use Rattle.chart_term.specs.TermMeanings.{NetTerms, UpTo};
ghost use Rattle.chart_term.specs.Tables.{Tables, terms_over};
ghost use Rattle.chart_term.specs.Terms.{Tree};
ghost use Rattle.hmsc_graph.specs.Graphs.{behind};
ghost use Rattle.hmsc_graph.specs.Nets.{size_of};
ghost use Rattle.hmsc_graph.specs.Spots.{spot_of, IsSpotBelow};
ghost use Rattle.chart_term.specs.Tables.{net_count, net_of, node_of};
ghost use Rattle.msc_base.specs.Lists.{IsIn};
ghost use Rattle.empty_terms.specs.Outlines.{AreAllUnbegun, ArePartsKnown, IsAt, IsOutline};
ghost use Rattle.certificates.specs.Lines.{Line, EmptyLine, EventLine, PartsLine, BranchLine, InnerLine, TurnsLine, WalkLine, NodeLine};
ghost use Rattle.certificate_checking.specs.Forms.{mode_of};
ghost use Rattle.certificate_texts.specs.Texts.{line_of};
ghost use Rattle.certificate_checking.specs.Tasks.{IsQuietStep, IsStepBy, IsSure, row_of, wants_line};

use crate::form::{Joined, choice_in, event_in, is_tie, join_in, loop_in, walk_in};
use certificate_texts::CertificateLine;
use empty_terms::Outline;
use hmsc_graph::Spot;
use pattern_marks::Mark;
use term_tables::Nets;

/// What is to be read yet.
#[derive(Clone, Copy)]
pub(crate) enum Task {
    /// A certificate of the term of this number.
    Term(usize),
    /// Certificates of so many terms from this number on, one behind the other.
    Row {
        /// The number of the first.
        first: usize,
        /// How many there are.
        count: usize,
    },
    /// Certificates of so many terms from this number on, side by side.
    Beside {
        /// The number of the first.
        first: usize,
        /// How many there are.
        count: usize,
    },
    /// The same, of terms that stand beside one that is read: the first mark says so.
    Others {
        /// The number of the first.
        first: usize,
        /// How many there are.
        count: usize,
    },
    /// So many turns of the term of this number.
    Turns {
        /// The number of the loop's operand.
        body: usize,
        /// How many turns there are.
        count: u64,
    },
    /// So many stops of a walk.
    Stops {
        /// The net.
        net: u32,
        /// Where the walk is.
        from: Spot,
        /// How many stops there are.
        count: u64,
    },
    /// Nothing but this mark.
    Mark(Mark),
}

/// What a task becomes.
#[derive(Clone, Copy)]
pub(crate) struct Step {
    /// The mark that is told.
    pub(crate) mark: Option<Mark>,
    /// What is to be read first.
    pub(crate) first: Option<Task>,
    /// What is to be read then.
    pub(crate) then: Option<Task>,
}

impl Step {
    /// Nothing is left to read.
    fn done() -> Step
        ensures { result ≡ record { mark = None; first = None; then = None } }
    {
        Step {
            mark: None,
            first: None,
            then: None,
        }
    }

    /// The mark is told, and nothing is left to read.
    fn told(mark: Mark) -> Step
        ensures { result ≡ record { mark = Some mark; first = None; then = None } }
    {
        Step {
            mark: Some(mark),
            first: None,
            then: None,
        }
    }

    /// This is left to read.
    fn to(first: Task) -> Step
        ensures { result ≡ record { mark = None; first = Some first; then = None } }
    {
        Step {
            mark: None,
            first: Some(first),
            then: None,
        }
    }

    /// Both are left to read.
    fn both(first: Task, then: Task) -> Step
        ensures { result ≡ record { mark = None; first = Some first; then = Some then } }
    {
        Step {
            mark: None,
            first: Some(first),
            then: Some(then),
        }
    }

    /// The mark is told, and both are left to read.
    fn marked(mark: Mark, first: Task, then: Task) -> Step
        ensures { result ≡ record { mark = Some mark; first = Some first; then = Some then } }
    {
        Step {
            mark: Some(mark),
            first: Some(first),
            then: Some(then),
        }
    }
}

/// What a task becomes that wants no line. Nothing, where a term has no number.
pub(crate) fn quiet_step(outline: &Outline, task: Task) -> Option<Step>
    ensures { wants_line task ≡ false → (w : NetTerms) → IsQuietStep w outline.now.terms task result }
{
    match task {
        Task::Row { first, count } => row_step(outline, first, count),
        Task::Beside { first, count } => beside_step(outline, first, count),
        Task::Others { first, count } => Some(Step::marked(
            Mark::Next,
            Task::Beside { first, count },
            Task::Mark(Mark::Close),
        )),
        Task::Turns { body, count } => turns_step(outline, body, count),
        Task::Mark(mark) => Some(Step::told(mark)),
        Task::Term(_) | Task::Stops { .. } => None,
    }
}

/// The first of a row.
fn row_step(outline: &Outline, first: usize, count: usize) -> Option<Step>
    ensures { (w : NetTerms) → IsQuietStep w outline.now.terms (Task.Row first count) result }
{
    if count == 0 {
        return Some(Step::done());
    }
    if first >= outline.terms.len() {
        return None;
    }
    let rest = Task::Row {
        first: first + 1,
        count: count - 1,
    };
    Some(Step::both(Task::Term(first), rest))
}

/// The first of those side by side.
fn beside_step(outline: &Outline, first: usize, count: usize) -> Option<Step>
    ensures { (w : NetTerms) → IsQuietStep w outline.now.terms (Task.Beside first count) result }
{
    if count == 0 {
        return Some(Step::done());
    }
    if first >= outline.terms.len() {
        return None;
    }
    let others = Task::Others {
        first: first + 1,
        count: count - 1,
    };
    Some(Step::marked(Mark::Open, Task::Term(first), others))
}

/// The first of some turns.
fn turns_step(outline: &Outline, body: usize, count: u64) -> Option<Step>
    ensures { (w : NetTerms) → IsQuietStep w outline.now.terms (Task.Turns body count) result }
{
    if body >= outline.terms.len() {
        return None;
    }
    if count == 0 {
        return Some(Step::done());
    }
    let rest = Task::Turns {
        body,
        count: count - 1,
    };
    Some(Step::both(Task::Term(body), rest))
}

/// Whether the task wants a line.
pub(crate) fn wants_line(task: Task) -> bool
    ensures { result ≡ wants_line task }
{
    match task {
        Task::Term(_) | Task::Stops { .. } => true,
        _ => false,
    }
}

/// What a certificate of the term of this number is, that begins with this line, if there is one.
pub(crate) fn term_step(
    outline: &Outline,
    answers: &[bool],
    number: usize,
    line: CertificateLine,
) -> Option<Step>
    requires whole { length outline.now.firsts.items ≡ length outline.now.terms }
    requires known { ArePartsKnown outline.now.terms outline.now.firsts.items }
    ensures { (w : Tables) → IsSure w outline.now answers.now → IsStepBy (terms_over w) outline.now.terms (Task.Term number) (line_of line) result }
{
    if number >= outline.terms.len() || number >= answers.len() {
        return None;
    }
    match line {
        CertificateLine::Empty => empty_step(outline, answers, number),
        CertificateLine::Event(place) => event_step(outline, number, place),
        CertificateLine::Parts(count) => parts_step(outline, number, count),
        CertificateLine::Branch(index) => branch_step(outline, number, index),
        CertificateLine::Inner => inner_step(outline, number),
        CertificateLine::Turns(count) => loop_step(outline, answers, number, count),
        CertificateLine::Walk(count) => walk_step(outline, number, count),
        CertificateLine::Node(_) => None,
    }
}

/// No event, where the term can be without.
fn empty_step(outline: &Outline, answers: &[bool], number: usize) -> Option<Step>
    requires number { number < length outline.now.terms }
    requires answers { number < length answers.now }
    ensures { (w : Tables) → IsSure w outline.now answers.now → IsStepBy (terms_over w) outline.now.terms (Task.Term number) EmptyLine result }
{
    let _ = outline;
    if answer_at(answers, number) {
        return Some(Step::done());
    }
    None
}

/// The event that the term is.
#[tactic(auto, using(crate::proofs::EachStep::each))]
fn event_step(outline: &Outline, number: usize, place: u64) -> Option<Step>
    requires { number < length outline.now.terms }
    ensures { (w : NetTerms) → IsStepBy w outline.now.terms (Task.Term number) (EventLine place) result }
{
    match event_in(outline.term(number)) {
        Some(event) => Some(Step::told(Mark::Event { event, place })),
        None => None,
    }
}

/// The parts, if there are so many.
fn parts_step(outline: &Outline, number: usize, count: u64) -> Option<Step>
    requires number { number < length outline.now.terms }
    requires whole { length outline.now.firsts.items ≡ length outline.now.terms }
    requires known { ArePartsKnown outline.now.terms outline.now.firsts.items }
    ensures { (w : NetTerms) → IsStepBy w outline.now.terms (Task.Term number) (PartsLine count) result }
{
    let first = outline.first(number);
    match join_in(outline.term(number)) {
        Some(joined) => {
            if joined.count as u64 != count {
                return None;
            }
            let step = joined_step(joined, first);
            Some(step)
        }
        None => None,
    }
}

/// The parts of a join, of which the first has this number.
fn joined_step(joined: Joined, first: usize) -> Step
    ensures { result ≡ record { mark = None; first = Some (row_of (mode_of joined.is_beside) first joined.count); then = None } }
{
    let count = joined.count;
    if joined.is_beside {
        return Step::to(Task::Beside { first, count });
    }
    Step::to(Task::Row { first, count })
}

/// The part of a choice of this index, counted from 1.
fn branch_step(outline: &Outline, number: usize, index: u64) -> Option<Step>
    requires number { number < length outline.now.terms }
    requires whole { length outline.now.firsts.items ≡ length outline.now.terms }
    requires known { ArePartsKnown outline.now.terms outline.now.firsts.items }
    ensures { (w : NetTerms) → IsStepBy w outline.now.terms (Task.Term number) (BranchLine index) result }
{
    let size = outline.terms.len();
    let first = outline.first(number);
    match choice_in(outline.term(number)) {
        Some(count) => {
            if index == 0 {
                return None;
            }
            if index > count as u64 {
                return None;
            }
            let part = part_of(first, (index - 1) as usize, size);
            Some(Step::to(Task::Term(part)))
        }
        None => None,
    }
}

/// The number of the part that so many parts stand before, where all numbers are below the size.
fn part_of(first: usize, left: usize, size: usize) -> usize
    requires { first + left < size }
    ensures { result ≡ first + left }
{
    let _ = size;
    first + left
}

/// What is below the tie.
fn inner_step(outline: &Outline, number: usize) -> Option<Step>
    requires number { number < length outline.now.terms }
    requires whole { length outline.now.firsts.items ≡ length outline.now.terms }
    requires known { ArePartsKnown outline.now.terms outline.now.firsts.items }
    ensures { (w : NetTerms) → IsStepBy w outline.now.terms (Task.Term number) InnerLine result }
{
    if !is_tie(outline.term(number)) {
        return None;
    }
    let inner = Task::Term(outline.first(number));
    let end = Task::Mark(Mark::CloseTie(number));
    Some(Step::marked(Mark::OpenTie, inner, end))
}

/// So many turns of the loop, if there can be so many.
fn loop_step(outline: &Outline, answers: &[bool], number: usize, count: u64) -> Option<Step>
    requires number { number < length outline.now.terms }
    requires whole { length outline.now.firsts.items ≡ length outline.now.terms }
    ensures { (w : Tables) → IsSure w outline.now answers.now → IsStepBy (terms_over w) outline.now.terms (Task.Term number) (TurnsLine count) result }
{
    let body = outline.first(number);
    match loop_in(outline.term(number)) {
        Some(counts) => {
            if !is_up_to(counts.upper, count) {
                return None;
            }
            if !are_enough(answers, body, counts.lower, count) {
                return None;
            }
            Some(Step::to(Task::Turns { body, count }))
        }
        None => None,
    }
}

/// Whether the number is at most the upper count.
fn is_up_to(upper: Option<u64>, count: u64) -> bool
    ensures { IsTrue result ↔ UpTo upper count }
{
    match upper {
        Some(upper) => count <= upper,
        None => true,
    }
}

/// Whether there are as many turns as the lower count, or turns can be without events.
fn are_enough(answers: &[bool], body: usize, lower: u64, count: u64) -> bool
    ensures { IsTrue result ↔ ((lower ≤ count) ⊎ IsTrue (get_or answers.now body false)) }
{
    lower <= count || answer_at(answers, body)
}

/// The answer at that index, no behind the last.
fn answer_at(answers: &[bool], index: usize) -> bool
    ensures { result ≡ get_or answers.now index false }
{
    index < answers.len() && answers[index]
}

/// So many stops of the walk.
fn walk_step(outline: &Outline, number: usize, count: u64) -> Option<Step>
    requires { number < length outline.now.terms }
    ensures { (w : NetTerms) → AreAllUnbegun outline.now.terms → IsStepBy w outline.now.terms (Task.Term number) (WalkLine count) result }
{
    match walk_in(outline.term(number)) {
        Some(net) => {
            let from = Spot::Start;
            Some(Step::to(Task::Stops { net, from, count }))
        }
        None => None,
    }
}

/// Some stops of a walk.
#[derive(Clone, Copy)]
pub(crate) struct Stops {
    /// The net.
    pub(crate) net: u32,
    /// Where the walk is.
    pub(crate) from: Spot,
    /// How many stops there are.
    pub(crate) count: u64,
}

/// The stop at the node of this line, if the walk can go there, and end there if it is the last.
pub(crate) fn stop_step(
    nets: &Nets,
    outline: &Outline,
    stops: Stops,
    line: CertificateLine,
) -> Option<Step>
    requires { (x : Tree) × IsOutline nets.now.tables x outline.now }
    ensures { IsStepBy (terms_over nets.now.tables) outline.now.terms (Task.Stops stops.net stops.from stops.count) (line_of line) result }
{
    match line {
        CertificateLine::Node(node) => {
            if stops.count == 0 {
                return None;
            }
            if !is_behind(nets, stops.net, stops.from, node) {
                return None;
            }
            let size = outline.terms.len();
            let part = part_of(outline.root(stops.net), node as usize, size);
            step_to(nets, stops, node, part)
        }
        _ => None,
    }
}

/// Whether the node comes next behind the spot.
#[tactic(auto, using(crate::proofs::Stops::no_net_there))]
fn is_behind(nets: &Nets, net: u32, from: Spot, node: u64) -> bool
    ensures is { IsTrue result ↔ IsIn node (behind (net_of nets.now.tables net) (spot_of from)) }
    ensures net { IsTrue result → net < net_count nets.now.tables }
    ensures node { IsTrue result → node < size_of (net_of nets.now.tables net) }
{
    if net >= nets.count() {
        return false;
    }
    let net = nets.net(net);
    if !is_spot(from, net.size()) {
        return false;
    }
    is_among(net.behind(from), node)
}

/// Whether the node is one of these.
fn is_one_of(nodes: &[u32], node: u64) -> bool
    ensures { result ≡ list_any (λ m. m == node) nodes.now }
{
    nodes.iter().any(|other| u64::from(*other) == node)
}

/// The same, by the nodes themselves.
fn is_among(nodes: &[u32], node: u64) -> bool
    ensures { IsTrue result ↔ IsIn node nodes.now }
{
    is_one_of(nodes, node)
}

/// Whether the spot is the start, or one of so many nodes.
fn is_spot(from: Spot, size: u32) -> bool
    ensures { IsTrue result ↔ IsSpotBelow size from }
{
    match from {
        Spot::Start => true,
        Spot::Node(node) => node < size,
    }
}

/// The number of a node of a net of this size.
fn number_in(size: u32, node: u64) -> u32
    requires { node < size }
    ensures { result ≡ node }
{
    node.min(u64::from(size)) as u32
}

/// The stop at the node, whose term has this number: the walk ends there if it is the last.
fn step_to(nets: &Nets, stops: Stops, node: u64, part: usize) -> Option<Step>
    requires net { stops.net < net_count nets.now.tables }
    requires node { node < size_of (net_of nets.now.tables stops.net) }
    requires some { 0 < stops.count }
    ensures { (ts : List Tree) → IsIn node (behind (net_of nets.now.tables stops.net) (spot_of stops.from)) → IsAt ts part (node_of nets.now.tables stops.net node)
        → IsStepBy (terms_over nets.now.tables) ts (Task.Stops stops.net stops.from stops.count) (NodeLine node) result }
{
    let net = nets.net(stops.net);
    let node = number_in(net.size(), node);
    if stops.count > 1 {
        let rest = Task::Stops {
            net: stops.net,
            from: Spot::Node(node),
            count: stops.count - 1,
        };
        return Some(Step::both(Task::Term(part), rest));
    }
    if net.is_end(node) {
        return Some(Step::to(Task::Term(part)));
    }
    None
}
