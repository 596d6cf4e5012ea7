//! Rows and parts side by side in normal form, opened and without empty parts. term_step rebuilds terms by them.

ghost use Rattle.std.specs.Prelude.{◌≡◌, ◌++◌, ◌∷◌, [], map, IfOk};
ghost use Rattle.msc_base.specs.Patterns.{seq, par};
ghost use Rattle.chart_term.specs.Modes.{mode_of};
ghost use Rattle.chart_term.specs.NormalForms.{begun, open_part, join_of, join_all};
ghost use Rattle.chart_term.specs.PartLists.{AreTurns};
ghost use Rattle.chart_term.specs.Rows.{parts_of};
ghost use Rattle.chart_term.specs.Terms.{Turn};

use crate::{Look, PartList, RowPart, Term, TermList};
use msc_base::NoMemory;
use std::alloc::Global;

/// How parts are joined.
#[derive(Clone, Copy, Debug, PartialEq, Eq)]
enum Mode {
    /// In weak sequence.
    Seq,
    /// Side by side.
    Par,
}

/// Turns of the opened parts: first those in the list, then those in the run.
#[derive(Drop)]
struct Opened {
    list: PartList,
    run: Vec<RowPart>,
}

impl Opened {
    /// All turns as one list.
    fn whole(self, alloc: Global) -> Result<PartList, NoMemory>
        ensures { IfOk result (λ list. list ≡ self.list ++ parts_of self.run.items) }
    {
        let run = PartList::from_vec(alloc, self.run)?;
        PartList::concat(alloc, &self.list, &run)
    }

    /// With the turns of a list behind the others.
    fn with_list(self, alloc: Global, turns: &PartList) -> Result<Opened, NoMemory>
        ensures { IfOk result (λ opened. opened.list ++ parts_of opened.run.items ≡ (self.list ++ parts_of self.run.items) ++ turns.now) }
    {
        let whole = self.whole(alloc)?;
        Ok(Opened {
            list: PartList::concat(alloc, &whole, turns)?,
            run: Vec::new(alloc),
        })
    }

    /// With the part behind the others, opened where it is a join of this kind.
    #[tactic(auto, using(crate::proofs::Turns::turns))]
    fn with_part(self, alloc: Global, mode: Mode, part: &Term) -> Result<Opened, NoMemory>
        ensures { IfOk result (λ opened. opened.list ++ parts_of opened.run.items ≡ (self.list ++ parts_of self.run.items) ++ map Turn (open_part (mode_of mode) part.now)) }
    {
        match (mode, part.look()) {
            (_, Look::Nil) => Ok(self),
            (Mode::Seq, Look::Seq(parts)) => self.with_list(alloc, parts),
            (Mode::Par, Look::Par(parts)) => self.with_list(alloc, parts),
            _ => {
                let mut run = self.run;
                run.push(RowPart::Turn(part.copy(alloc)?))?;
                Ok(Opened {
                    list: self.list,
                    run,
                })
            }
        }
    }
}

/// The join of turns that are open: of none it is empty, of one that one.
#[tactic(auto, using(crate::proofs::Turns::turns))]
fn join_of(alloc: Global, mode: Mode, turns: PartList) -> Result<Term, NoMemory>
    requires { AreTurns turns }
    ensures { IfOk result (λ term. term ≡ join_of (mode_of mode) (begun turns)) }
{
    if turns.len() > 1 {
        return match mode {
            Mode::Seq => Term::seq_of(alloc, turns),
            Mode::Par => Term::par_of(alloc, turns),
        };
    }
    if turns.is_empty() {
        return Term::nil(alloc);
    }
    turns.term_at(0).copy(alloc)
}

/// The join of the parts in normal form.
#[tactic(auto, using(crate::proofs::Turns::turns))]
fn join(alloc: Global, mode: Mode, parts: &TermList) -> Result<Term, NoMemory>
    ensures { IfOk result (λ term. term ≡ join_all (mode_of mode) parts.now) }
{
    let mut opened = Opened {
        list: PartList::empty(alloc)?,
        run: Vec::new(alloc),
    };
    for part in parts.as_slice() {
        opened = opened.with_part(alloc, mode, part)?;
    }
    join_of(alloc, mode, opened.whole(alloc)?)
}

/// The parts in weak sequence, in normal form: parts that are such rows are opened, and empty
/// parts dropped; of no part it is empty, of one that one.
pub fn seq(alloc: Global, parts: TermList) -> Result<Term, NoMemory>
    ensures { IfOk result (λ term. term ≡ join_all seq parts) }
{
    join(alloc, Mode::Seq, &parts)
}

/// The parts side by side, in normal form: parts that stand side by side themselves are opened,
/// and empty parts dropped; of no part it is empty, of one that one.
pub fn par(alloc: Global, parts: TermList) -> Result<Term, NoMemory>
    ensures { IfOk result (λ term. term ≡ join_all par parts) }
{
    join(alloc, Mode::Par, &parts)
}

/// The turns in weak sequence, where they are open already: none of them is empty or such a row; of
/// no turn it is empty, of one that one. It looks at one of the turns at most.
pub fn seq_of(alloc: Global, turns: PartList) -> Result<Term, NoMemory>
    requires { AreTurns turns }
    ensures { IfOk result (λ term. term ≡ join_of seq (begun turns)) }
{
    join_of(alloc, Mode::Seq, turns)
}

/// The turns side by side, where they are open already: none of them is empty or such a join; of no
/// turn it is empty, of one that one. It looks at one of the turns at most.
pub fn par_of(alloc: Global, turns: PartList) -> Result<Term, NoMemory>
    requires { AreTurns turns }
    ensures { IfOk result (λ term. term ≡ join_of par (begun turns)) }
{
    join_of(alloc, Mode::Par, turns)
}
