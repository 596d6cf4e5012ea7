//! All labels with which a set goes on, in their order.

ghost use Rattle.std.specs.Prelude.{◌≡◌, ◌<◌, ◌+◌, length, OnOk, IfOk};
ghost use Rattle.chart_term.specs.Properties.{Each};
ghost use Rattle.trace_judge.specs.Sets.{IsSoundFor};
ghost use Rattle.next_labels.specs.Found.{Finds, IsFoundUpTo};
ghost use Rattle.next_labels.specs.Marks.{AreMarks};
ghost use Rattle.next_labels.specs.NextLabels.{AreNextLabels};

use crate::marking::marks_of;
use crate::order::ListedLabel;
use bit_sets::NodeSet;
use msc_base::{LabelList, NoMemory};
use std::alloc::Global;
use std::collections::BTreeSet;
use term_sets::TermSet;
use term_tables::Nets;

/// Adds the label of that number, where it is marked as one with which the set goes on.
#[tactic(auto, using(crate::proofs::FoundLabels::finding))]
fn add_label(
    alloc: Global,
    nets: &Nets,
    set: &TermSet,
    marks: &NodeSet,
    number: u32,
    found: &mut BTreeSet<ListedLabel>,
) -> Result<(), NoMemory>
    requires marks { AreMarks nets.now set.now marks.now }
    requires there { number < length nets.now.labels }
    requires found { IsFoundUpTo nets.now set.now number found.old.keys }
    ensures { OnOk result (IsFoundUpTo nets.now set.now (number + 1) found.new.keys) }
{
    let _ = set;
    if !marks.has(number) {
        return Ok(());
    }
    let label = nets.label_at(number).copy(alloc)?;
    found.insert(ListedLabel::new(label))?;
    Ok(())
}

/// The labels as a list, in their order.
fn list_of(alloc: Global, found: BTreeSet<ListedLabel>) -> Result<LabelList, NoMemory>
    ensures { IfOk result (λ list. list ≡ found.keys) }
{
    let mut list = LabelList::new(alloc);
    for label in found {
        list.push(label.into_label())?;
    }
    Ok(list)
}

/// The labels with which the set goes on: those after an event with which something is left of it, each once, in the order of labels.
#[tactic(auto, using(crate::proofs::FoundLabels::finding))]
pub fn next_labels(alloc: Global, nets: &Nets, set: &TermSet) -> Result<LabelList, NoMemory>
    requires { Each (IsSoundFor nets.now) set.now }
    ensures { IfOk result (AreNextLabels nets.now set.now) }
{
    let marks = marks_of(alloc, nets, set)?;
    let mut found = BTreeSet::new(alloc);
    for number in 0..nets.labels() {
        add_label(alloc, nets, set, &marks, number, &mut found)?;
    }
    list_of(alloc, found)
}
