//! What permission leaves of a term, and of the parts of a join: what stays as it is isn't made anew. For `permission` and term_step.

ghost use Rattle.std.specs.Prelude.{◌≡◌, ◌++◌, ◌+◌, ◌<◌, ◌∷◌, List, Option, None, Some, [], IfOk, drop, take, length, true, false};
ghost use Rattle.chart_term.specs.NormalForms.{begun, open_part};
ghost use Rattle.chart_term.specs.PartLists.{AreTurns};
ghost use Rattle.chart_term.specs.Rows.{parts_of};
ghost use Rattle.chart_term.specs.Terms.{Tree, Part};
ghost use Rattle.term_permission.specs.Lefts.{left_of, mode_of, and_app, ArePartsLeft, IsKept, IsOpened, IsSame};

use chart_term::{Look, PartList, PartLook, RowPart, Term, push_copies};
use msc_base::NoMemory;
use std::alloc::Global;

/// What permission leaves of a term.
#[derive(Drop)]
pub enum Left {
    /// Permission fails.
    Fails,
    /// The term as it is.
    Unchanged,
    /// Another term.
    Changed(Term),
}

impl Left {
    /// Where nothing may be left, or another term is.
    pub(crate) fn of(left: Option<Term>) -> Left
        ensures { (x : Tree) → left_of result x ≡ left }
    {
        match left {
            None => Left::Fails,
            Some(term) => Left::Changed(term),
        }
    }
}

impl Left {
    /// Whether it may be another term.
    pub(crate) fn is_changed(&self) -> bool
        ensures { (x : Tree) → result ≡ false → IsSame (left_of self.now x) x }
    {
        match self {
            Left::Fails => false,
            Left::Unchanged => false,
            Left::Changed(_) => true,
        }
    }
}

/// The parts that what is left of a term comes to in a join of this kind, if anything is left.
pub(crate) fn opened_after(
    alloc: Global,
    joint: Joint,
    term: &Term,
    left: Left,
) -> Result<Option<PartList>, NoMemory>
    ensures { IfOk result (λ parts. IsOpened (mode_of joint) (left_of left term.now) parts) }
{
    match left {
        Left::Fails => Ok(None),
        Left::Unchanged => {
            let parts = opened(alloc, joint, term)?;
            Ok(Some(parts))
        }
        Left::Changed(left) => {
            let parts = opened(alloc, joint, &left)?;
            Ok(Some(parts))
        }
    }
}

/// What is left of the term, if anything is.
pub(crate) fn whole(alloc: Global, term: &Term, left: Left) -> Result<Option<Term>, NoMemory>
    ensures { IfOk result (λ whole. whole ≡ left_of left term.now) }
{
    match left {
        Left::Fails => Ok(None),
        Left::Unchanged => Ok(Some(term.copy(alloc)?)),
        Left::Changed(left) => Ok(Some(left)),
    }
}

/// What permission leaves of the parts of a join, opened.
#[derive(Drop)]
pub enum PartsLeft {
    /// Permission fails for one.
    Fails,
    /// All parts as they are.
    Unchanged,
    /// Other parts.
    Changed(PartList),
}

impl PartsLeft {
    /// Whether permission fails for one.
    pub(crate) fn fails(&self) -> bool
        ensures { (o : Option (List Tree)) (ps : List Part) → result ≡ true → ArePartsLeft o ps self.now → o ≡ None }
    {
        match self {
            PartsLeft::Fails => true,
            PartsLeft::Unchanged => false,
            PartsLeft::Changed(_) => false,
        }
    }
}

/// How parts are joined.
#[derive(Clone, Copy)]
pub enum Joint {
    /// In weak sequence.
    Row,
    /// Side by side.
    Aside,
}

/// The list of this turn alone.
fn alone(alloc: Global, term: &Term) -> Result<PartList, NoMemory>
    ensures turns { IfOk result (λ parts. AreTurns parts) }
    ensures parts { IfOk result (λ parts. begun parts ≡ term.now ∷ []) }
{
    let turn = RowPart::Turn(term.copy(alloc)?);
    let parts = PartList::one(alloc, turn)?;
    Ok(parts)
}

/// The parts that a term comes to in a join of this kind.
#[tactic(auto, using(crate::proofs::Joins::joins))]
pub(crate) fn opened(alloc: Global, joint: Joint, term: &Term) -> Result<PartList, NoMemory>
    ensures turns { IfOk result (λ parts. AreTurns parts) }
    ensures parts { IfOk result (λ parts. begun parts ≡ open_part (mode_of joint) term.now) }
{
    match term.look() {
        Look::Nil => PartList::empty(alloc),
        Look::Seq(parts) => match joint {
            Joint::Row => parts.copy(alloc),
            Joint::Aside => alone(alloc, term),
        },
        Look::Par(parts) => match joint {
            Joint::Row => alone(alloc, term),
            Joint::Aside => parts.copy(alloc),
        },
        Look::Event { .. } => alone(alloc, term),
        Look::Choice(_) => alone(alloc, term),
        Look::Tied(_, _) => alone(alloc, term),
        Look::Loop { .. } => alone(alloc, term),
        Look::Walk { .. } => alone(alloc, term),
    }
}

/// The parts that are left, where permission doesn't fail.
pub fn kept(alloc: Global, parts: &PartList, left: PartsLeft) -> Result<Option<PartList>, NoMemory>
    requires { AreTurns parts.now }
    ensures { IfOk result (λ kept. (o : Option (List Tree)) → ArePartsLeft o parts.now left → IsKept o kept) }
{
    match left {
        PartsLeft::Fails => Ok(None),
        PartsLeft::Unchanged => Ok(Some(parts.copy(alloc)?)),
        PartsLeft::Changed(parts) => Ok(Some(parts)),
    }
}

/// What is left of the parts of both lists.
#[tactic(auto, using(crate::proofs::Joins::joins))]
pub(crate) fn both(
    alloc: Global,
    first: &PartList,
    before: PartsLeft,
    second: &PartList,
    behind: PartsLeft,
) -> Result<PartsLeft, NoMemory>
    requires first { AreTurns first.now }
    requires second { AreTurns second.now }
    ensures { IfOk result (λ left. (o p : Option (List Tree)) → ArePartsLeft o first.now before → ArePartsLeft p second.now behind → ArePartsLeft (and_app o p) (first.now ++ second.now) left) }
{
    match (before, behind) {
        (PartsLeft::Fails, _) => Ok(PartsLeft::Fails),
        (_, PartsLeft::Fails) => Ok(PartsLeft::Fails),
        (PartsLeft::Unchanged, PartsLeft::Unchanged) => Ok(PartsLeft::Unchanged),
        (PartsLeft::Unchanged, PartsLeft::Changed(behind)) => {
            Ok(PartsLeft::Changed(PartList::concat(alloc, first, &behind)?))
        }
        (PartsLeft::Changed(before), PartsLeft::Unchanged) => {
            Ok(PartsLeft::Changed(PartList::concat(alloc, &before, second)?))
        }
        (PartsLeft::Changed(before), PartsLeft::Changed(behind)) => {
            Ok(PartsLeft::Changed(PartList::concat(alloc, &before, &behind)?))
        }
    }
}

/// The kept parts, then what a part leaves, then those that stood behind it.
#[tactic(auto, using(crate::proofs::Joins::joins))]
pub fn replaced(
    alloc: Global,
    joint: Joint,
    before: &PartList,
    left: &Term,
    parts: &PartList,
    index: usize,
) -> Result<PartList, NoMemory>
    requires before { AreTurns before.now }
    requires turns { AreTurns parts.now }
    requires index { index < length parts.now }
    ensures turns { IfOk result (λ whole. AreTurns whole) }
    ensures whole { IfOk result (λ whole. begun whole ≡ begun before.now ++ (open_part (mode_of joint) left.now ++ begun (drop (index + 1) parts.now))) }
{
    let _count = parts.len();
    let opened = opened(alloc, joint, left)?;
    let behind = parts.behind(alloc, index + 1)?;
    let front = PartList::concat(alloc, before, &opened)?;
    let whole = PartList::concat(alloc, &front, &behind)?;
    Ok(whole)
}

/// The parts but for that of the index, as one list.
fn without(alloc: Global, parts: &[RowPart], index: usize) -> Result<PartList, NoMemory>
    requires { index < length parts.now }
    ensures { IfOk result (λ list. list ≡ parts_of (take index parts.now ++ drop (index + 1) parts.now)) }
{
    let mut others = Vec::with_capacity(alloc, parts.len())?;
    push_copies(alloc, &parts[..index], &mut others)?;
    push_copies(alloc, &parts[index + 1..], &mut others)?;
    PartList::from_vec(alloc, others)
}

/// The parts, where that of the index is replaced by what it leaves. Where it leaves nothing and the parts are one leaf, they are copied
/// once.
pub fn put_in(
    alloc: Global,
    joint: Joint,
    left: &Term,
    parts: &PartList,
    index: usize,
) -> Result<PartList, NoMemory>
    requires turns { AreTurns parts.now }
    requires index { index < length parts.now }
    ensures turns { IfOk result (λ whole. AreTurns whole) }
    ensures whole { IfOk result (λ whole. begun whole ≡ begun (take index parts.now) ++ (open_part (mode_of joint) left.now ++ begun (drop (index + 1) parts.now))) }
{
    match (left.look(), parts.look()) {
        (Look::Nil, PartLook::Leaf(items)) => without(alloc, items, index),
        _ => {
            let before = parts.front(alloc, index)?;
            replaced(alloc, joint, &before, left, parts, index)
        }
    }
}
