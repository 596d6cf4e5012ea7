//! The instances at which operands may begin: for `walk`.

ghost use Rattle.std.specs.Prelude.{◌≡◌, [], ◌∷◌, IfOk, OnOk};
ghost use Rattle.std.specs.Cmp.Lexicographic.{slice_cmp};
ghost use Rattle.std.specs.List.Sorted.{IsStrictlySortedBy};
ghost use Rattle.std.specs.Ordering.{nat_cmp};
ghost use Rattle.expansion_tree.specs.Views.{expansion_view, expansions_view};
ghost use Rattle.choice_parts.specs.ChoiceParts.{part_behind as plain_behind, part_list};
ghost use Rattle.choice_terms.specs.JudgedParts.{IsJudgedPart};
ghost use Rattle.chart_choices.specs.Making.{AddsMakers, AreReady, EachJudged, HaveAdded, IsAdded};

use crate::instance::Instance;
use crate::tables::TermTables;
use choice_parts::part_behind;
use expansion_terms::term_of;
use expansion_tree::Expansion;
use msc_base::{Label, Names, NoMemory, Pair};
use next_labels::next_labels;
use std::alloc::Global;
use std::collections::BTreeSet;
use term_sets::TermSet;

/// The instances that were found so far.
pub(crate) type Makers = BTreeSet<Instance>;

/// No instances yet. It takes no memory.
pub(crate) fn no_makers(alloc: Global) -> Makers
    ensures { result.keys ≡ [] }
{
    Makers::new(alloc)
}

/// Adds the instance of a label.
fn add_instance(alloc: Global, label: &Label, makers: &mut Makers) -> Result<(), NoMemory>
    ensures { OnOk result (IsAdded label.now.at makers.old.keys makers.new.keys) }
{
    let name = label.at.copy(alloc)?;
    makers.insert(Instance::new(name))?;
    Ok(())
}

/// Adds the instances of the labels.
fn add_instances(alloc: Global, labels: &[Label], makers: &mut Makers) -> Result<(), NoMemory>
    requires { IsStrictlySortedBy (slice_cmp nat_cmp) makers.old.keys }
    ensures { OnOk result (HaveAdded labels.now makers.old.keys makers.new.keys) }
{
    for label in labels {
        add_instance(alloc, label, makers)?;
    }
    Ok(())
}

/// Adds the instances at which what the part stands for may begin: those of the labels with which its term goes on. A term whose weight
/// has no number takes more memory than there is.
fn add_makers(
    alloc: Global,
    tables: &mut TermTables,
    part: &Expansion,
    makers: &mut Makers,
) -> Result<(), NoMemory>
    requires judged { IsJudgedPart tables.old.names tables.old.nets.labels (expansion_view part.now) }
    requires ready { AreReady tables.old }
    requires rising { IsStrictlySortedBy (slice_cmp nat_cmp) makers.old.keys }
    ensures { OnOk result (AddsMakers tables.old tables.new (expansion_view part.now ∷ []) makers.old.keys makers.new.keys) }
{
    let term = term_of(alloc, &mut tables.nets, part)?;
    if term.weight() == u64::MAX {
        return Err(NoMemory);
    }
    let set = TermSet::single(alloc, term)?;
    let labels = next_labels(alloc, &tables.nets, &set)?;
    add_instances(alloc, labels.as_slice(), makers)
}

/// Adds those of operands.
pub(crate) fn add_all_makers(
    alloc: Global,
    tables: &mut TermTables,
    operands: &[Expansion],
    makers: &mut Makers,
) -> Result<(), NoMemory>
    requires judged { EachJudged tables.old.names tables.old.nets.labels (part_list (expansions_view operands.now)) }
    requires ready { AreReady tables.old }
    requires rising { IsStrictlySortedBy (slice_cmp nat_cmp) makers.old.keys }
    ensures { OnOk result (AddsMakers tables.old tables.new (part_list (expansions_view operands.now)) makers.old.keys makers.new.keys) }
{
    for operand in operands {
        add_makers(alloc, tables, operand, makers)?;
    }
    Ok(())
}

/// Adds those of what stands behind an exception on a level of these pairs.
pub(crate) fn add_behind(
    alloc: Global,
    tables: &mut TermTables,
    behind: &[Expansion],
    pairs: &[Pair],
    makers: &mut Makers,
) -> Result<(), NoMemory>
    requires judged { IsJudgedPart tables.old.names tables.old.nets.labels (plain_behind (expansions_view behind.now) pairs.now) }
    requires ready { AreReady tables.old }
    requires rising { IsStrictlySortedBy (slice_cmp nat_cmp) makers.old.keys }
    ensures { OnOk result (AddsMakers tables.old tables.new (plain_behind (expansions_view behind.now) pairs.now ∷ []) makers.old.keys makers.new.keys) }
{
    let part = part_behind(alloc, behind, pairs)?;
    add_makers(alloc, tables, &part, makers)
}

/// Their names, in their order.
pub(crate) fn names_of(alloc: Global, makers: Makers) -> Result<Names, NoMemory>
    ensures { IfOk result (λ names. names ≡ makers.keys) }
{
    let mut names = Names::new(alloc);
    for instance in makers {
        names.push(instance.into_name())?;
    }
    Ok(names)
}
