//! Graphs, made from labelled lines and asked for nodes and edges. term_tables keeps them. Nodes have no content here.

ghost use Rattle.std.specs.Prelude.{◌≡◌, ◌≤◌, ◌<◌, ◌↔◌, ℕ, None, [], fold, get_or, length, replicate, true, IfOk, IfErr, OnOk, IsTrue};
ghost use Rattle.hmsc_graph.specs.Graphs.{Net as GraphValue, End, arrives, behind};
ghost use Rattle.msc_base.specs.Lists.{IsIn};
ghost use Rattle.hmsc_graph.specs.Labels.{fault_of, graph_in, with_label};
ghost use Rattle.hmsc_graph.specs.declared.net.NetFault.TheVariants.{NoMemory};
ghost use Rattle.hmsc_graph.specs.Nets.{IsNet, graph_of, size_of};
ghost use Rattle.hmsc_graph.specs.Spots.{spot_of, IsSpotBelow};
ghost use Rattle.hmsc_graph.specs.Reversals.{AreBefore, AreEdgesBack, HasEdges, HasEnd};
ghost use Rattle.hmsc_graph.specs.Shapes.{IsGraphOf, IsFaulty, IsFaultOf, named_by};
ghost use Rattle.msc_base.specs.declared.limits.TheConstants.Limits.{NODE_LINES};
ghost use Rattle.msc_base.specs.declared.place.Place.{Place as PlaceValue};

use crate::labels::{Labels, numbers_of};
use crate::{Shape, Spot};
use msc_base::{NameTable, NoMemory, NumberList, Place, comes_before};
use std::alloc::Global;
use std::marker::Model;

/// Why a shape has no graph.
#[derive(Clone, Copy, Debug, PartialEq, Eq)]
pub enum NetFault {
    /// No line has the label that stands here.
    UnknownLabel(Place),
    /// A line before the one here has its label.
    TwiceLabel(Place),
    /// Want of memory.
    NoMemory,
}

impl From<NoMemory> for NetFault {
    ghost from_gives = { λ _ e. e ≡ NoMemory };

    fn from(_: NoMemory) -> Self {
        NetFault::NoMemory
    }
}

/// A graph, whose nodes are the lines of a shape, numbered from 0 in the order of the text.
#[derive(Drop)]
pub struct Net {
    starts: NumberList,
    /// For each node the nodes that come next.
    next: Vec<NumberList>,
    /// For each node whether it is an `end` line.
    ends: Vec<bool>,
    /// For each node the nodes behind which it comes next.
    back: Vec<NumberList>,
    /// The nodes behind which an `end` line comes next.
    before_ends: NumberList,
}

impl Model for Net {
    ghost use Rattle.hmsc_graph.specs.Graphs.{Net as Graph};
    ghost use Rattle.hmsc_graph.specs.Nets.{graph_of};
    ghost use Rattle.hmsc_graph.specs.Reversals.{IsStored};

    ghost Value = { Graph };

    ghost view = { λ n. graph_of n.starts n.next.items n.ends.items };

    ghost invariant = { λ n. IsStored (graph_of n.starts n.next.items n.ends.items) n.back.items n.before_ends };
}

/// The fault of the earlier place, and at one place that of an unknown label.
fn earlier_fault(unknown: Option<Place>, twice: Option<Place>) -> Option<NetFault>
    ensures { result ≡ fault_of unknown twice }
{
    match (unknown, twice) {
        (Some(unknown), Some(twice)) if comes_before(twice, unknown) => {
            Some(NetFault::TwiceLabel(twice))
        }
        (Some(unknown), _) => Some(NetFault::UnknownLabel(unknown)),
        (None, Some(twice)) => Some(NetFault::TwiceLabel(twice)),
        (None, None) => None,
    }
}

/// The graph of the lines, without the edges to labels that the table lacks. The earliest of these is kept in `unknown`.
fn graph(
    alloc: Global,
    table: &NameTable,
    shape: &Shape,
    unknown: &mut Option<Place>,
) -> Result<Net, NoMemory>
    requires lines { length shape.now.lines ≤ NODE_LINES }
    requires table { length table.now ≤ length shape.now.lines }
    requires none { unknown.old ≡ None }
    ensures graph { IfOk result (λ net. net ≡ graph_in table.now shape.now) }
    ensures unknown { OnOk result (unknown.new ≡ fold (with_label table.now) None (named_by shape.now)) }
    ensures net { IfOk result (λ net. IsNet net) }
{
    let starts = numbers_of(alloc, table, shape.starts.as_slice(), unknown)?;
    let mut next = Vec::new(alloc);
    let mut ends = Vec::new(alloc);
    for line in shape.lines.as_slice() {
        let numbers = numbers_of(alloc, table, line.next.as_slice(), unknown)?;
        next.push(numbers)?;
        ends.push(line.ends)?;
    }
    Net::of(alloc, starts, next, ends)
}

impl Net {
    /// The graph of these parts.
    fn of(
        alloc: Global,
        starts: NumberList,
        next: Vec<NumberList>,
        ends: Vec<bool>,
    ) -> Result<Net, NoMemory>
        requires { IsNet (graph_of starts next.items ends.items) }
        ensures { IfOk result (λ net. net ≡ graph_of starts next.items ends.items) }
    {
        let back = edges_back(alloc, &next)?;
        let before_ends = before_ends(alloc, &next, &ends)?;
        Ok(Net {
            starts,
            next,
            ends,
            back,
            before_ends,
        })
    }

    /// The graph of the shape. It is refused at the first label that no line has, or that a line before its own has.
    pub fn build(alloc: Global, shape: &Shape) -> Result<Net, NetFault>
        requires { length shape.now.lines ≤ NODE_LINES }
        ensures ok { IfOk result (λ net. IsGraphOf shape.now net) }
        ensures only { IfOk result (λ net. (other : GraphValue) → IsGraphOf shape.now other → other ≡ net) }
        ensures net { IfOk result (λ net. IsNet net) }
        ensures faultless { OnOk result ((place : PlaceValue) → IsFaulty shape.now place → ⊥) }
        ensures fault { IfErr result (λ fault. IsFaultOf shape.now fault) }
    {
        let labels = Labels::of(alloc, shape.lines.as_slice())?;
        let mut unknown = None;
        let net = graph(alloc, &labels.table, shape, &mut unknown)?;
        match earlier_fault(unknown, labels.twice) {
            Some(fault) => Err(fault),
            None => Ok(net),
        }
    }

    /// How many nodes the graph has. It takes no memory.
    pub fn size(&self) -> u32
        ensures size { result ≡ size_of self.now }
        ensures net { IsNet self.now }
    {
        self.ends.len() as u32
    }

    /// Whether the node is an `end` line. It takes no memory.
    pub fn is_end(&self, node: u32) -> bool
        requires { node < size_of self.now }
        ensures { result ≡ arrives self.now End node }
    {
        self.ends[node as usize]
    }

    /// The nodes that come next behind the spot. It takes no memory.
    pub fn behind(&self, from: Spot) -> &[u32]
        requires { IsSpotBelow (size_of self.now) from }
        ensures nodes { result.now ≡ behind self.now (spot_of from) }
        ensures net { IsNet self.now }
    {
        match from {
            Spot::Start => self.starts.as_slice(),
            Spot::Node(node) => self.next[node as usize].as_slice(),
        }
    }

    /// For each node the nodes that come next.
    pub(crate) fn next(&self) -> &[NumberList]
        ensures next { result.now ≡ self.now.next }
        ensures net { IsNet self.now }
    {
        self.next.as_slice()
    }

    /// For each node the nodes behind which it comes next.
    pub(crate) fn back(&self) -> &[NumberList]
        ensures each { length result.now ≡ size_of self.now }
        ensures edges { AreEdgesBack self.now.next (size_of self.now) result.now }
        ensures net { IsNet self.now }
    {
        self.back.as_slice()
    }

    /// The nodes behind which an `end` line comes next.
    pub(crate) fn before_ends(&self) -> &[u32]
        ensures { AreBefore self.now End result.now }
    {
        self.before_ends.as_slice()
    }

    /// The numbers of the `end` lines.
    pub(crate) fn end_nodes(&self, alloc: Global) -> Result<NumberList, NoMemory>
        ensures nodes { IfOk result (λ nodes. (m : ℕ) → IsIn m nodes ↔ (arrives self.now End m ≡ true)) }
        ensures below { IfOk result (λ nodes. (m : ℕ) → IsIn m nodes → m < size_of self.now) }
    {
        let mut nodes = NumberList::new(alloc);
        for node in 0..self.size() {
            if self.is_end(node) {
                nodes.push(node)?;
            }
        }
        Ok(nodes)
    }
}

/// For each node the nodes behind which it comes next.
fn edges_back(alloc: Global, next: &[NumberList]) -> Result<Vec<NumberList>, NoMemory>
    requires few { length next.now ≤ NODE_LINES }
    requires below { (k m : ℕ) → IsIn m (get_or next.now k []) → m < length next.now }
    ensures each { IfOk result (λ back. length back.items ≡ length next.now) }
    ensures edges { IfOk result (λ back. AreEdgesBack next.now (length next.now) back.items) }
{
    let mut back = empty_lists(alloc, next.len() as u32)?;
    for node in 0..next.len() as u32 {
        add_edges(&mut back, node, next[node as usize].as_slice())?;
    }
    Ok(back)
}

/// The nodes behind which an `end` line comes next.
fn before_ends(alloc: Global, next: &[NumberList], ends: &[bool]) -> Result<NumberList, NoMemory>
    requires few { length next.now ≤ NODE_LINES }
    requires below { (k m : ℕ) → IsIn m (get_or next.now k []) → m < length ends.now }
    ensures { IfOk result (λ nodes. (m : ℕ) → IsIn m nodes ↔ ((m < length next.now) × HasEnd ends.now (get_or next.now m []))) }
{
    let mut nodes = NumberList::new(alloc);
    for node in 0..next.len() as u32 {
        if has_end(next[node as usize].as_slice(), ends) {
            nodes.push(node)?;
        }
    }
    Ok(nodes)
}

/// Whether one of the nodes is an `end` line.
fn has_end(nodes: &[u32], ends: &[bool]) -> bool
    requires { (m : ℕ) → IsIn m nodes.now → m < length ends.now }
    ensures { IsTrue result ↔ HasEnd ends.now nodes.now }
{
    for node in nodes {
        if ends[*node as usize] {
            return true;
        }
    }
    false
}

/// So many empty lists.
fn empty_lists(alloc: Global, count: u32) -> Result<Vec<NumberList>, NoMemory>
    ensures { IfOk result (λ lists. lists.items ≡ replicate count []) }
{
    let mut lists = Vec::new(alloc);
    for _ in 0..count {
        lists.push(NumberList::new(alloc))?;
    }
    Ok(lists)
}

/// Adds the node to the list of each of these nodes.
fn add_edges(back: &mut [NumberList], node: u32, next: &[u32]) -> Result<(), NoMemory>
    requires { (m : ℕ) → IsIn m next.now → m < length back.old }
    ensures { OnOk result (HasEdges back.old node next.now back.new) }
{
    for to in next {
        back[*to as usize].push(node)?;
    }
    Ok(())
}
