//! Whether an event number stands in a term, for `ties`, which drops pairs that name no event below them.

ghost use Rattle.std.specs.Prelude.{◌≡◌};
ghost use Rattle.chart_term.specs.NormalForms.{numbers, numbers_row};
ghost use Rattle.chart_term.specs.Rows.{parts_of};
ghost use Rattle.chart_term.specs.Sizes.{nodes, parts_nodes};
ghost use Rattle.chart_term.specs.Soughts.{IsSought};
ghost use Rattle.chart_term.specs.Terms.{has, row_of};

use super::{Form, Node, PartList, RowPart, Stretch, StretchForm, Term};

/// Whether a number stands in a list, as far as it is told without a look into the last part.
#[derive(Drop)]
pub(crate) enum Sought<'a> {
    /// Whether it does.
    Told(bool),
    /// It does exactly if it stands in this last part.
    In(&'a Term),
}

impl Term {
    /// Whether an event of the term, of its loop operands or begun turns has the number. It takes
    /// no memory, looks only at parts whose range of numbers has it, and goes down the last parts
    /// of lists, and below ties, in a loop.
    #[cycle(numbers)]
    pub fn has_number(&self, number: u32) -> bool
        ensures { result ≡ has (numbers self.now) number }
    {
        let mut term = self;
        loop {
            match term.seek(number) {
                Sought::Told(has) => return has,
                Sought::In(last) => term = last,
            }
        }
    }

    /// The same, but that a last part is left to whom it is told.
    #[cycle(numbers)]
    #[tactic(auto, using(crate::proofs::Numbering::numbering))]
    fn seek(&self, number: u32) -> Sought<'_>
        ensures { IsSought (numbers self.now) number (nodes self.now) result }
    {
        if !self.facts().spans(number) {
            return Sought::Told(false);
        }
        let node: &Node = &self.node;
        match &node.form {
            Form::Nil | Form::Walk(_) => Sought::Told(false),
            Form::Event(event) => Sought::Told(event.number == number),
            Form::Seq(parts) => parts.seek(number),
            Form::Par(parts) => parts.seek(number),
            Form::Choice(parts) => parts.seek(number),
            Form::Tied(inner, _) => Sought::In(inner),
            Form::Loop(parts) => {
                Sought::Told(parts.body.has_number(number) || parts.row.has_number(number))
            }
        }
    }
}

impl RowPart {
    ghost use Rattle.chart_term.specs.Numbers.{part_numbers};
    ghost use Rattle.chart_term.specs.Rows.{part_of};

    #[cycle(numbers)]
    fn has_number(&self, number: u32) -> bool
        ensures { result ≡ has (part_numbers (part_of self.now)) number }
    {
        match self {
            RowPart::Gap(_) => false,
            RowPart::Turn(turn) => turn.has_number(number),
        }
    }
}

/// Whether the number stands in one of these parts of a leaf; a last part is left to whom it is told.
#[cycle(numbers)]
#[tactic(auto, using(crate::proofs::Numbering::numbering))]
fn seek_in(parts: &[RowPart], number: u32) -> Sought<'_>
    ensures { IsSought (numbers_row (row_of (parts_of parts.now))) number (parts_nodes (parts_of parts.now)) result }
{
    let Some((last, fronts)) = parts.split_last() else {
        return Sought::Told(false);
    };
    for part in fronts {
        if part.has_number(number) {
            return Sought::Told(true);
        }
    }
    match last {
        RowPart::Gap(_) => Sought::Told(false),
        RowPart::Turn(turn) => Sought::In(turn),
    }
}

impl PartList {
    /// Whether the number stands in one of the parts.
    #[cycle(numbers)]
    fn has_number(&self, number: u32) -> bool
        ensures { result ≡ has (numbers_row (row_of self.now)) number }
    {
        match self.seek(number) {
            Sought::Told(has) => has,
            Sought::In(last) => last.has_number(number),
        }
    }

    /// The same, but that a last part is left to whom it is told.
    #[cycle(numbers)]
    #[tactic(auto, using(crate::proofs::Numbering::numbering))]
    fn seek(&self, number: u32) -> Sought<'_>
        ensures { IsSought (numbers_row (row_of self.now)) number (parts_nodes self.now) result }
    {
        if !self.facts().spans(number) {
            return Sought::Told(false);
        }
        let node: &Stretch = &self.root;
        match &node.form {
            StretchForm::Leaf(parts) => seek_in(parts.as_slice(), number),
            StretchForm::Fork(first, second) => {
                if first.has_number(number) {
                    Sought::Told(true)
                } else {
                    second.seek(number)
                }
            }
        }
    }
}
