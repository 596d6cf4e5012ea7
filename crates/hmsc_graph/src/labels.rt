//! The labels of lines by number, the earliest that stands twice, the earliest that no line has: for `net` alone.

ghost use Rattle.std.specs.Prelude.{◌≡◌, ◌≤◌, [], None, length, IfOk, OnOk, filter_map, fold};
ghost use Rattle.msc_base.specs.declared.limits.TheConstants.Limits.{NODE_LINES};
ghost use Rattle.hmsc_graph.specs.Labels.{with_line, with_label, number_in};

use crate::ShapeLine;
use msc_base::{LabelRef, NameTable, NoMemory, NumberList, Place, earlier_place};
use std::alloc::Global;

/// The labels of lines, each once, and the earliest line whose label a line before it has.
#[derive(Drop)]
pub(crate) struct Labels {
    pub(crate) table: NameTable,
    pub(crate) twice: Option<Place>,
}

impl Labels {
    /// Takes in the label of one more line.
    fn add(&mut self, alloc: Global, line: &ShapeLine) -> Result<(), NoMemory>
        ensures { OnOk result (self.new ≡ with_line self.old line.now) }
    {
        let label = line.label.bytes();
        if self.table.number_of(label).is_some() {
            self.twice = earlier_place(self.twice, line.place);
            return Ok(());
        }
        self.table.add(alloc, label)
    }

    /// The labels of the lines.
    pub(crate) fn of(alloc: Global, lines: &[ShapeLine]) -> Result<Labels, NoMemory>
        ensures { IfOk result (λ labels. labels ≡ fold with_line (record { table = []; twice = None }) lines.now) }
    {
        let mut labels = Labels {
            table: NameTable::new(alloc),
            twice: None,
        };
        for line in lines {
            labels.add(alloc, line)?;
        }
        Ok(labels)
    }
}

/// The numbers of the labels that the table has. The earliest of the others is kept in `unknown`, if none there is earlier.
pub(crate) fn numbers_of(
    alloc: Global,
    table: &NameTable,
    labels: &[LabelRef],
    unknown: &mut Option<Place>,
) -> Result<NumberList, NoMemory>
    requires { length table.now ≤ NODE_LINES }
    ensures numbers { IfOk result (λ numbers. numbers ≡ filter_map (number_in table.now) labels.now) }
    ensures unknown { OnOk result (unknown.new ≡ fold (with_label table.now) unknown.old labels.now) }
{
    let mut numbers = NumberList::new(alloc);
    for label in labels {
        match table.number_of(label.name.bytes()) {
            Some(number) => numbers.push(number as u32)?,
            None => *unknown = earlier_place(*unknown, label.place),
        }
    }
    Ok(numbers)
}
