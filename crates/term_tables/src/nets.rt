//! The tables of labels and nets, where term_step and trace_judge look numbers up. A net names earlier ones alone.

ghost use Rattle.std.specs.Prelude.{◌≡◌, ◌<◌, ℕ, ◌++◌, ◌∷◌, [], nat_lt, length, Contains, Some, slice_get, IfSome, IfNone, IfOk, OnOk, OnErr};
ghost use Rattle.msc_base.specs.Stored.{most_numbered};
ghost use Rattle.hmsc_graph.specs.Nets.{size_of};
ghost use Rattle.hmsc_graph.specs.Spots.{goal_of, spot_of};
ghost use Rattle.term_tables.specs.NetValues.{label_number};
ghost use Rattle.term_tables.specs.Fitting.{fits, goal_fits, spot_fits, walk_fits};
ghost use Rattle.chart_term.specs.Spreads.{spread_of, touch};
ghost use Rattle.chart_term.specs.Tables.{net_count, net_of, nodes_of, node_of};
ghost use Rattle.chart_term.specs.Terms.{has};

use crate::fits::term_fits;
use crate::touched::{add_all, add_term};
use bit_sets::Block;
use chart_term::{Term, TermList};
use hmsc_graph::{Goal, Net, Spot};
use label_table::LabelTable;
use msc_base::{Label, NoMemory};
use std::alloc::Global;
use std::marker::Model;

/// A net as it is stored.
#[derive(Drop)]
pub(crate) struct StoredNet {
    pub(crate) net: Net,
    /// The term of each node.
    pub(crate) nodes: TermList,
    /// The instances of the events of the net, and of the nets that it names.
    pub(crate) spread: Block,
}

/// The labels and the nets of a chart's terms, each by its number.
#[derive(Drop)]
pub struct Nets {
    alloc: Global,
    labels: LabelTable,
    /// The nets, of which each names only those before it.
    stored: Vec<StoredNet>,
}

impl Model for Nets {
    ghost use Rattle.term_tables.specs.NetTables.{AreStored, tables_of};
    ghost use Rattle.term_tables.specs.NetValues.{NetsValue};

    ghost Value = { NetsValue };

    ghost use Rattle.std.specs.Coded.{codes};
    ghost use Rattle.chart_term.specs.Codes.{coded_tree};

    ghost coded = { Prim.hlevel (codes, coded_tree) };

    ghost view = { λ n. record { labels = n.labels; tables = tables_of n.stored.items } };

    ghost invariant = { λ n. AreStored n.stored.items };
}

#[tactic(auto, using(crate::proofs::Tabling::tabling))]
impl Nets {
    /// Tables without labels and nets. It takes no memory.
    pub fn new(alloc: Global) -> Nets
        ensures { result ≡ record { labels = []; tables = [] } }
    {
        Nets {
            alloc,
            labels: LabelTable::new(alloc),
            stored: Vec::new(alloc),
        }
    }

    /// Tables of these labels, without nets. It takes no memory.
    pub fn of_labels(alloc: Global, labels: LabelTable) -> Nets
        ensures { result ≡ record { labels = labels; tables = [] } }
    {
        Nets {
            alloc,
            labels,
            stored: Vec::new(alloc),
        }
    }

    /// Appends a label, and gives its number. After want of memory the tables are as they were, and
    /// the label is dropped.
    pub fn add_label(&mut self, label: Label) -> Result<u32, NoMemory>
        requires few { length self.old.labels < most_numbered }
        requires new { Contains self.old.labels label → ⊥ }
        ensures number { IfOk result (λ number. number ≡ length self.old.labels) }
        ensures ok { OnOk result (self.new ≡ record self.old { labels = self.old.labels ++ label ∷ [] }) }
        ensures err { OnErr result (self.new ≡ self.old) }
    {
        self.labels.add(label)
    }

    /// How many labels the tables have. It takes no memory.
    pub fn labels(&self) -> u32
        ensures { result ≡ length self.now.labels }
    {
        self.labels.len()
    }

    /// The label of that number. It takes no memory.
    pub fn label_at(&self, number: u32) -> &Label
        requires { number < length self.now.labels }
        ensures label { slice_get self.now.labels number ≡ Some result.now }
        ensures number { label_number self.now.labels result.now ≡ Some number }
    {
        self.labels.at(number)
    }

    /// How many nets the tables have. It takes no memory.
    pub fn count(&self) -> u32
        ensures { result ≡ net_count self.now.tables }
    {
        self.stored.len() as u32
    }

    /// The number of a label, if the table has it. It takes no memory.
    pub fn label(&self, label: &Label) -> Option<u32>
        ensures number { result ≡ label_number self.now.labels label.now }
        ensures present { IfSome result (λ number. slice_get self.now.labels number ≡ Some label.now) }
        ensures absent { IfNone result (Contains self.now.labels label.now → ⊥) }
    {
        self.labels.number_of(label)
    }

    /// Appends a net with the term of each of its nodes, and gives its number. After want of memory
    /// the tables are as they were, and the net is dropped.
    pub fn add_net(&mut self, net: Net, nodes: TermList) -> Result<u32, NoMemory>
        requires few { net_count self.old.tables < most_numbered }
        requires sized { size_of net ≡ length nodes }
        ensures number { IfOk result (λ number. number ≡ net_count self.old.tables) }
        ensures ok { OnOk result (self.new ≡ record self.old { tables = record { net = net; nodes = nodes } ∷ self.old.tables }) }
        ensures err { OnErr result (self.new ≡ self.old) }
    {
        let number = self.stored.len() as u32;
        let mut spread = Block::empty(self.alloc);
        add_all(&self.stored, &nodes, &mut spread)?;
        self.stored.push(StoredNet { net, nodes, spread })?;
        Ok(number)
    }

    /// The net of that number. It takes no memory.
    pub fn net(&self, net: u32) -> &Net
        requires { net < net_count self.now.tables }
        ensures net { result.now ≡ net_of self.now.tables net }
        ensures sized { size_of result.now ≡ length (nodes_of self.now.tables net) }
    {
        &self.stored[net as usize].net
    }

    /// The instances of the events of the net, and of the nets that it names. It takes no memory.
    pub fn spread(&self, net: u32) -> &Block
        requires { net < net_count self.now.tables }
        ensures { (n : ℕ) → has result.now.instances n ≡ has (spread_of self.now.tables net) n }
    {
        &self.stored[net as usize].spread
    }

    /// The term of a node of the net. It takes no memory.
    pub fn node(&self, net: u32, node: u32) -> &Term
        requires net { net < net_count self.now.tables }
        requires node { node < length (nodes_of self.now.tables net) }
        ensures { result.now ≡ node_of self.now.tables net node }
    {
        self.stored[net as usize].nodes.at(node as usize)
    }

    /// Whether each label number and each net number in the term, in its loop operands and begun
    /// turns, is in the tables, and each node number of a walk is below the size of its net. It
    /// takes no memory.
    pub fn fits(&self, term: &Term) -> bool
        ensures { result ≡ fits self.now term.now }
    {
        term_fits(self, term)
    }

    /// The instances of the events of the term, of its loop operands, begun turns and nets.
    pub fn touched(&self, alloc: Global, term: &Term) -> Result<Block, NoMemory>
        ensures { IfOk result (λ block. (n : ℕ) → has block.instances n ≡ has (touch (spread_of self.now.tables) term.now) n) }
    {
        let mut block = Block::empty(alloc);
        add_term(&self.stored, term, &mut block)?;
        Ok(block)
    }

    /// Whether a label has that number.
    pub(crate) fn has_label(&self, label: u32) -> bool
        ensures { result ≡ nat_lt label (length self.now.labels) }
    {
        label < self.labels.len()
    }

    /// Whether there is such a net, and the walk is at its nodes.
    pub(crate) fn has_ends(&self, net: u32, from: Spot, to: Goal) -> bool
        ensures { result ≡ walk_fits self.now.tables net (spot_of from) (goal_of to) }
    {
        if net as usize >= self.stored.len() {
            return false;
        }
        let size = self.net(net).size();
        has_spot(size, from) && has_goal(size, to)
    }
}

/// Whether the spot is the start, or one of so many nodes.
fn has_spot(size: u32, spot: Spot) -> bool
    ensures { result ≡ spot_fits size (spot_of spot) }
{
    match spot {
        Spot::Start => true,
        Spot::Node(node) => node < size,
    }
}

/// Whether the goal is one of so many nodes, an end or anywhere.
fn has_goal(size: u32, goal: Goal) -> bool
    ensures { result ≡ goal_fits size (goal_of goal) }
{
    match goal {
        Goal::Node(node) => node < size,
        Goal::End | Goal::Any => true,
    }
}
