//! The instances and labels of events under numbers.

ghost use Rattle.std.specs.List.{position};
ghost use Rattle.std.specs.Prelude.{◌≡◌, ◌<◌, Some, IfOk, OnOk};
ghost use Rattle.std.specs.Str.{bytes_eq};
ghost use Rattle.msc_base.specs.NameTables.{with_name};
ghost use Rattle.label_table.specs.Labels.{label_number};
ghost use Rattle.expanded_charts.specs.Numbering.{with_label};

use label_table::LabelTable;
use msc_base::{Label, Name, NameTable, NoMemory};
use std::alloc::Global;

/// The instances and the labels of the events of an expansion, each once, in the order in which they first stand.
#[derive(Drop)]
pub struct Numbering {
    /// The names of the instances.
    pub names: NameTable,
    /// The labels.
    pub labels: LabelTable,
}

/// The number of an instance, which has one from then on.
pub(crate) fn number_name(
    alloc: Global,
    names: &mut NameTable,
    name: &Name,
) -> Result<u32, NoMemory>
    ensures names { OnOk result (names.new ≡ with_name names.old name.now) }
    ensures number { IfOk result (λ number. position (bytes_eq name.now) names.new ≡ Some number) }
{
    names.add(alloc, name.bytes())?;
    match names.number_of(name.bytes()) {
        Some(number) => {
            if number > u32::MAX as usize {
                return Err(NoMemory);
            }
            Ok(number as u32)
        }
        None => unreachable!(),
    }
}

/// The number of a label, which has one from then on.
pub(crate) fn number_label(labels: &mut LabelTable, label: Label) -> Result<u32, NoMemory>
    ensures labels { OnOk result (labels.new ≡ with_label labels.old label) }
    ensures number { IfOk result (λ number. label_number labels.new label ≡ Some number) }
{
    if let Some(number) = labels.number_of(&label) {
        return Ok(number);
    }
    if labels.len() == u32::MAX {
        return Err(NoMemory);
    }
    let number = labels.add(label)?;
    Ok(number)
}
