//! A term with its parts and the terms of its nets by numbers, each term before its parts.

ghost use Rattle.std.specs.Prelude.{◌≡◌, ◌≤◌, ◌<◌, ◌+◌, ◌-◌, ◌++◌, ◌∷◌, [], ℕ, suc, length, slice_get, IfOk, OnOk, Some};
ghost use Rattle.chart_term.specs.NormalForms.{begun};
ghost use Rattle.chart_term.specs.PartLists.{AreTurns};
ghost use Rattle.chart_term.specs.Tables.{net_count, node_of, nodes_of, Tables};
ghost use Rattle.chart_term.specs.Terms.{Tree};
ghost use Rattle.empty_terms.specs.ChartTerms.{IsChartTerm};
ghost use Rattle.empty_terms.specs.Outlines.{AreFrom, ArePartsKnown, Grows, HasNodes, IsAt, IsOutline, IsOutlined, parts_in};

use chart_term::{Look, PartList, Term, TermList};
use msc_base::NoMemory;
use std::alloc::Global;
use term_tables::Nets;

/// The terms of a term and its nets by numbers: the term itself has the number 0, the parts of each term stand in a row behind it,
/// and so do the nodes of each net. What is in it is said by `IsOutline` of `specs/`.
#[derive(Drop)]
pub struct Outline {
    /// The terms by their numbers.
    pub terms: TermList,
    /// For each term the number of its first part.
    pub firsts: Vec<usize>,
    /// For each net the number of the term of its first node, the newest net first.
    pub roots: Vec<usize>,
}

/// Appends the turns.
fn push_turns(alloc: Global, parts: &PartList, terms: &mut TermList) -> Result<(), NoMemory>
    requires { AreTurns parts.now }
    ensures { OnOk result (terms.new ≡ terms.old ++ begun parts.now) }
{
    for index in 0..parts.len() {
        terms.push(parts.term_at(index).copy(alloc)?)?;
    }
    Ok(())
}

/// Appends the parts of the term.
fn push_parts(alloc: Global, term: &Term, terms: &mut TermList) -> Result<(), NoMemory>
    ensures { OnOk result (terms.new ≡ terms.old ++ parts_in term.now) }
{
    match term.look() {
        Look::Nil | Look::Event { .. } | Look::Walk { .. } => Ok(()),
        Look::Seq(parts) => push_turns(alloc, parts, terms),
        Look::Par(parts) => push_turns(alloc, parts, terms),
        Look::Choice(parts) => push_turns(alloc, parts, terms),
        Look::Tied(inner, _) => terms.push(inner.copy(alloc)?),
        Look::Loop { body, .. } => terms.push(body.copy(alloc)?),
    }
}

/// Numbers the parts of the first term whose parts have no numbers yet.
fn look_into(alloc: Global, terms: &mut TermList, firsts: &mut Vec<usize>) -> Result<(), NoMemory>
    requires left { length firsts.old.items < length terms.old }
    requires known { ArePartsKnown terms.old firsts.old.items }
    ensures known { OnOk result (ArePartsKnown terms.new firsts.new.items) }
    ensures count { OnOk result (length firsts.new.items ≡ length firsts.old.items + 1) }
    ensures grows { OnOk result (Grows (length firsts.old.items) terms.old terms.new) }
{
    let term = terms.at(firsts.len()).copy(alloc)?;
    firsts.push(terms.len())?;
    push_parts(alloc, &term, terms)
}

/// Numbers the parts of all terms, and those of the parts.
fn number_parts(
    alloc: Global,
    terms: &mut TermList,
    firsts: &mut Vec<usize>,
) -> Result<(), NoMemory>
    requires few { length firsts.old.items ≤ length terms.old }
    requires known { ArePartsKnown terms.old firsts.old.items }
    ensures known { OnOk result (ArePartsKnown terms.new firsts.new.items) }
    ensures whole { OnOk result (length firsts.new.items ≡ length terms.new) }
    ensures grows { OnOk result (Grows (length firsts.old.items) terms.old terms.new) }
{
    for _ in 0..u64::MAX {
        if firsts.len() == terms.len() {
            return Ok(());
        }
        look_into(alloc, terms, firsts)?;
    }
    Err(NoMemory)
}

/// Appends the terms of the nodes of a net.
fn push_nodes(alloc: Global, nets: &Nets, net: u32, terms: &mut TermList) -> Result<(), NoMemory>
    requires { net < net_count nets.now.tables }
    ensures { OnOk result (HasNodes nets.now.tables net terms.old terms.new) }
{
    for node in 0..nets.net(net).size() {
        terms.push(nets.node(net, node).copy(alloc)?)?;
    }
    Ok(())
}

impl Outline {
    /// The outline of the term without its nets.
    fn of_term(alloc: Global, term: &Term) -> Result<Outline, NoMemory>
        ensures outlined { IfOk result (λ outline. (w : Tables) → IsChartTerm w term.now → IsOutlined w term.now outline) }
        ensures none { IfOk result (λ outline. outline.roots.items ≡ []) }
    {
        let mut terms = TermList::new(alloc);
        let mut firsts = Vec::new(alloc);
        terms.push(term.copy(alloc)?)?;
        number_parts(alloc, &mut terms, &mut firsts)?;
        Ok(Outline {
            terms,
            firsts,
            roots: Vec::new(alloc),
        })
    }

    /// Adds the newest net that isn't there yet.
    fn add_net(&mut self, alloc: Global, nets: &Nets, net: u32) -> Result<(), NoMemory>
        requires next { net + suc (length self.old.roots.items) ≡ net_count nets.now.tables }
        requires whole { length self.old.firsts.items ≡ length self.old.terms }
        requires known { ArePartsKnown self.old.terms self.old.firsts.items }
        ensures outlined { OnOk result ((x : Tree) → IsChartTerm nets.now.tables x → IsOutlined nets.now.tables x self.old → IsOutlined nets.now.tables x self.new) }
        ensures each { OnOk result (length self.new.roots.items ≡ length self.old.roots.items + 1) }
    {
        self.roots.push(self.terms.len())?;
        push_nodes(alloc, nets, net, &mut self.terms)?;
        number_parts(alloc, &mut self.terms, &mut self.firsts)
    }

    /// The outline of the term over the nets.
    ///
    /// It fails only for want of memory. It takes the time of all parts of the term and of the nets, each of them once, but for a
    /// logarithm in long lists of parts.
    pub fn of(alloc: Global, nets: &Nets, term: &Term) -> Result<Outline, NoMemory>
        requires { IsChartTerm nets.now.tables term.now }
        ensures { IfOk result (IsOutline nets.now.tables term.now) }
    {
        let mut outline = Outline::of_term(alloc, term)?;
        for behind in 0..nets.count() {
            outline.add_net(alloc, nets, nets.count() - 1 - behind)?;
        }
        Ok(outline)
    }

    /// The term of that number. It takes no memory.
    pub fn term(&self, number: usize) -> &Term
        requires { number < length self.now.terms }
        ensures { IsAt self.now.terms number result.now }
    {
        self.terms.at(number)
    }

    /// The number of the first part of the term of that number. It takes no memory.
    pub fn first(&self, number: usize) -> usize
        requires { number < length self.now.firsts.items }
        ensures { slice_get self.now.firsts.items number ≡ Some result }
    {
        self.firsts[number]
    }

    /// The number of the term of the net's first node. It takes no memory.
    pub fn root(&self, net: u32) -> usize
        requires { net < length self.now.roots.items }
        ensures { slice_get self.now.roots.items (length self.now.roots.items - suc net) ≡ Some result }
    {
        self.roots[self.roots.len() - 1 - net as usize]
    }
}
