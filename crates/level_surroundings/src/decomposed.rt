//! The decomposed instances of a chart, and the charts that refine them: for `refining`, and for expanded_charts.

ghost use Rattle.std.specs.Option.{option_copied};
ghost use Rattle.std.specs.Prelude.{◌≡◌, ◌++◌, ◌∷◌, [], List, None, false, true, IfOk, OnOk};
ghost use Rattle.msc_base.specs.NameTables.{with_name};
ghost use Rattle.msc_meaning.specs.Refinements.{is_decomposed};
ghost use Rattle.msc_meaning.specs.Tables.{refinement, refinements, refinements_of};
ghost use Rattle.msc_meaning.specs.Views.{node_view};
ghost use Rattle.msc_tree.specs.declared.chart.Decl.{Decl};
ghost use Rattle.level_surroundings.specs.DecomposedInstances.{HasCharts, HasInstances, refinements_view};

use msc_base::{Name, NameTable, NoMemory};
use msc_meaning::EventNode;
use msc_tree::Decl;
use std::alloc::Global;
use std::collections::HashMap;
use std::marker::Model;

/// A decomposed instance, and the name of the chart that refines it.
#[derive(Clone, Copy)]
pub struct Refinement<'a> {
    pub instance: &'a Name,
    pub chart: &'a Name,
}

/// By the names of instances, the first chart that a declaration of each names.
type Charts<'a> = HashMap<&'a [u8], &'a Name>;

/// The decomposed instances of a chart, in the order in which they are declared. Where there is none it takes no memory.
#[derive(Drop)]
pub struct Decomposed<'a> {
    list: Vec<Refinement<'a>>,
    names: NameTable,
}

impl<'a> Model for Decomposed<'a> {
    ghost use Rattle.std.specs.Prelude.{List};
    ghost use Rattle.msc_meaning.specs.Tables.{Refinement as PlainRefinement};
    ghost use Rattle.level_surroundings.specs.DecomposedInstances.{HasInstances, refinements_view};

    ghost Value = { List PlainRefinement };

    ghost view = { λ d. refinements_view d.list.items };

    ghost invariant = { λ d. HasInstances d.names (refinements_view d.list.items) };
}

/// Whether the declaration names no chart.
fn is_plain(decl: &Decl) -> bool
    ensures { result ≡ true → decl.now.refined ≡ None }
{
    decl.refined.is_none()
}

/// Whether it is known that no instance is decomposed.
fn none_refined(decls: &[Decl]) -> bool
    ensures { result ≡ true → refinements decls.now ≡ [] }
{
    for decl in decls {
        if !is_plain(decl) {
            return false;
        }
    }
    true
}

/// Puts what a declaration says before what is there.
fn add_chart<'a>(charts: &mut Charts<'a>, decl: &'a Decl) -> Result<(), NoMemory>
    ensures { OnOk result ((others : List Decl) → HasCharts charts.old others → HasCharts charts.new (decl.now ∷ others)) }
{
    match &decl.refined {
        None => Ok(()),
        Some(chart) => {
            charts.insert(decl.name.bytes(), chart)?;
            Ok(())
        }
    }
}

/// The charts that these declarations name.
fn charts_of<'a>(alloc: Global, decls: &'a [Decl]) -> Result<Charts<'a>, NoMemory>
    ensures { IfOk result (λ charts. HasCharts charts decls.now) }
{
    let mut charts = HashMap::new(alloc);
    let mut index = decls.len();
    while index > 0 {
        index -= 1;
        add_chart(&mut charts, &decls[index])?;
    }
    Ok(charts)
}

/// Appends the instance, where a chart refines it.
fn push_refinement<'a>(
    list: &mut Vec<Refinement<'a>>,
    instance: &'a Name,
    chart: Option<&'a Name>,
) -> Result<(), NoMemory>
    ensures { OnOk result (refinements_view list.new.items ≡ refinements_view list.old.items ++ refinement instance.now (option_copied chart.entry)) }
{
    match chart {
        None => Ok(()),
        Some(chart) => {
            list.push(Refinement { instance, chart })?;
            Ok(())
        }
    }
}

/// Appends the instance of a declaration where it stands first, and a chart refines it.
fn add_refinement<'a>(
    alloc: Global,
    list: &mut Vec<Refinement<'a>>,
    seen: &mut NameTable,
    charts: &Charts<'a>,
    decl: &'a Decl,
) -> Result<(), NoMemory>
    ensures seen { OnOk result (seen.new ≡ with_name seen.old decl.now.name) }
    ensures list { OnOk result ((decls : List Decl) → HasCharts charts.now decls → refinements_view list.old.items ≡ refinements_of decls seen.old → refinements_view list.new.items ≡ refinements_of decls seen.new) }
{
    if seen.has(decl.name.bytes()) {
        return Ok(());
    }
    seen.add(alloc, decl.name.bytes())?;
    let chart = charts.get(&decl.name.bytes()).copied();
    push_refinement(list, &decl.name, chart)
}

/// The decomposed instances that these declare.
fn listed<'a>(alloc: Global, decls: &'a [Decl]) -> Result<Vec<Refinement<'a>>, NoMemory>
    ensures { IfOk result (λ list. refinements_view list.items ≡ refinements decls.now) }
{
    let charts = charts_of(alloc, decls)?;
    let mut seen = NameTable::new(alloc);
    let mut list = Vec::new(alloc);
    for decl in decls {
        add_refinement(alloc, &mut list, &mut seen, &charts, decl)?;
    }
    Ok(list)
}

/// The names of these instances.
#[tactic(auto, using(crate::proofs::RefinementFacts::instances_more))]
fn names_of(alloc: Global, list: &[Refinement<'_>]) -> Result<NameTable, NoMemory>
    ensures { IfOk result (λ names. HasInstances names (refinements_view list.now)) }
{
    let mut names = NameTable::new(alloc);
    for refinement in list {
        names.add(alloc, refinement.instance.bytes())?;
    }
    Ok(names)
}

impl<'a> Decomposed<'a> {
    /// The decomposed instances that these declare.
    pub fn of(alloc: Global, decls: &'a [Decl]) -> Result<Decomposed<'a>, NoMemory>
        ensures { IfOk result (λ decomposed. decomposed ≡ refinements decls.now) }
    {
        if none_refined(decls) {
            return Ok(Decomposed {
                list: Vec::new(alloc),
                names: NameTable::new(alloc),
            });
        }
        let list = listed(alloc, decls)?;
        let names = names_of(alloc, list.as_slice())?;
        Ok(Decomposed { list, names })
    }

    /// Whether there is none.
    pub fn is_empty(&self) -> bool
        ensures none { result ≡ true → self.now ≡ [] }
        ensures some { result ≡ false → self.now ≡ [] → ⊥ }
    {
        self.list.is_empty()
    }

    /// Them, in their order.
    pub fn list(&self) -> &[Refinement<'a>]
        ensures { refinements_view result.now ≡ self.now }
    {
        self.list.as_slice()
    }

    /// Whether the event is one of theirs.
    pub fn has(&self, node: &EventNode) -> bool
        ensures { result ≡ is_decomposed self.now (node_view node.now) }
    {
        self.names.has(node.at.bytes())
    }
}
