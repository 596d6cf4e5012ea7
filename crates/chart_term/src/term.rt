//! Terms as shared nodes, and the constructors that make each node as it is; contracts see `Term` as a plain tree.

ghost use Rattle.std.specs.Prelude.{◌≡◌, ◌<◌, ◌∷◌, ℕ, [], false, length, min, IfOk, Some, MatchOption};
ghost use Rattle.std.specs.Option.{ForSome};
ghost use Rattle.msc_base.specs.Stored.{most_stored};
ghost use Rattle.chart_term.specs.Facts.{HasFacts, holds_walk, instances, misses};
ghost use Rattle.chart_term.specs.PartLists.{AreTurns, Lacks};
ghost use Rattle.chart_term.specs.Terms.{Nil, Event as EventTree, Join, Choice, Loop, Walk, Tied, has, trees, row_of, weight};
ghost use Rattle.msc_base.specs.Patterns.{seq, par};
ghost use Rattle.hmsc_graph.specs.Spots.{spot_of, goal_of};
ghost use Rattle.chart_term.specs.NormalForms.{begun, open_choice};
ghost use Rattle.chart_term.specs.Views.{pairs_of};

mod changes;
mod joining;
mod numbers;
mod order;
mod parts;
mod search;

pub use self::parts::push_copies;
use crate::Look;
use crate::event::StoredEvent;
use bit_sets::Block;
use hmsc_graph::{Goal, Spot};
use msc_base::{Limits, NoMemory};
use std::alloc::Global;
use std::marker::Model;
use std::rc::Rc;
use term_facts::Facts;
use tie_list::TieList;

/// A term of a chart: a process that stands for a set of patterns.
///
/// A contract sees the plain tree. The nodes are shared, and each stores facts of its contents.
#[cycle(term)]
pub struct Term {
    node: Rc<Node>,
}

/// A node of a term.
#[cycle(term)]
#[derive(Drop)]
pub(crate) struct Node {
    form: Form,
    facts: Facts,
}

/// A chart has a node for each event, and a set of terms many of them.
const _: () = prove!(size_of::<Node>() == 80);

/// What a node is made of.
#[cycle(term)]
#[derive(Drop)]
pub(crate) enum Form {
    Nil,
    Event(StoredEvent),
    Seq(PartList),
    Par(PartList),
    Choice(PartList),
    Tied(Term, TieList),
    Loop(Box<LoopForm>),
    Walk(Box<WalkForm>),
}

/// What a loop is made of.
#[cycle(term)]
#[derive(Drop)]
pub(crate) struct LoopForm {
    body: Term,
    lower: u64,
    upper: Option<u64>,
    row: PartList,
}

/// What a walk is made of.
#[derive(Drop)]
pub(crate) struct WalkForm {
    net: u32,
    from: Spot,
    to: Goal,
    block: Block,
}

/// A part of a loop's row, of a sequence or of a choice: the latter two have turns alone.
#[cycle(term)]
#[derive(Drop)]
pub enum RowPart {
    /// Where turns may begin that avoid these instances. Events of the block have no meaning here.
    Gap(Block),
    /// A turn that has begun.
    Turn(Term),
}

/// A list of parts, as a balanced tree of shared nodes.
///
/// A contract sees the plain list. Each node stores facts of the parts below it.
#[cycle(term)]
#[derive(Drop)]
pub struct PartList {
    root: Rc<Stretch>,
}

/// A node of a list: a stretch of its parts.
#[cycle(term)]
#[derive(Drop)]
pub(crate) struct Stretch {
    form: StretchForm,
    count: usize,
    height: u8,
    has_gap: bool,
    facts: Facts,
}

/// What a stretch is made of.
#[cycle(term)]
#[derive(Drop)]
pub(crate) enum StretchForm {
    Leaf(Vec<RowPart>),
    Fork(PartList, PartList),
}

/// A loop down the last parts and below the ties, so that a term that is deep there takes no stack for its depth.
impl Drop for Term {
    #[cycle(drop)]
    fn drop(mut self) {
        loop {
            let Term { node } = self;
            let Some(inside) = Rc::into_inner(node) else {
                return;
            };
            let Node { form, facts: _ } = inside;
            let mut parts = match form {
                Form::Seq(parts) => parts,
                Form::Par(parts) => parts,
                Form::Choice(parts) => parts,
                Form::Tied(inner, _) => {
                    self = inner;
                    continue;
                }
                _ => return,
            };
            loop {
                let PartList { root } = parts;
                let Some(stretch) = Rc::into_inner(root) else {
                    return;
                };
                let Stretch {
                    form,
                    count: _,
                    height: _,
                    has_gap: _,
                    facts: _,
                } = stretch;
                match form {
                    StretchForm::Leaf(mut items) => match items.pop() {
                        Some(RowPart::Turn(last)) => {
                            self = last;
                            break;
                        }
                        _ => return,
                    },
                    StretchForm::Fork(_, second) => parts = second,
                }
            }
        }
    }
}

impl Model for Node {
    ghost use Rattle.std.specs.Prelude.{◌*◌};
    ghost use Rattle.chart_term.specs.Terms.{Tree};
    ghost use Rattle.chart_term.specs.Codes.{coded_tree};

    ghost Value = { Tree };

    ghost coded = { coded_tree };

    ghost use Rattle.chart_term.specs.Facts.{HasFacts};
    ghost use Rattle.chart_term.specs.Sizes.{nodes, begun-nodes, nodes_row-row_of};
    ghost use Rattle.std.proofs.Common.{arith};
    ghost use Rattle.chart_term.specs.TermViews.{IsFull, tree_of};

    ghost view = { λ t. tree_of t.form };

    ghost invariant = { λ t. HasFacts (tree_of t.form) t.facts × IsFull t.form };

    ghost size = { λ t. nodes t * 2 };

    ghost size_decreases = { λ a h. Prim.grind (arith, begun-nodes, nodes_row-row_of) };
}

impl Model for Term {
    ghost use Rattle.std.specs.Prelude.{◌+◌, ◌*◌};
    ghost use Rattle.chart_term.specs.Terms.{Tree};
    ghost use Rattle.chart_term.specs.Codes.{coded_tree};

    ghost Value = { Tree };

    ghost coded = { coded_tree };

    ghost use Rattle.std.proofs.Common.{arith};
    ghost use Rattle.chart_term.specs.Sizes.{nodes};

    ghost view = { λ t. t.node.value };

    ghost size = { λ t. nodes t * 2 + 1 };

    ghost size_decreases = { λ a h. Prim.grind arith };
}

impl Model for Stretch {
    ghost use Rattle.std.specs.Prelude.{List, ◌≡◌, ◌*◌, length};
    ghost use Rattle.std.specs.Coded.{coded_list};
    ghost use Rattle.chart_term.specs.Terms.{Part, row_of};
    ghost use Rattle.chart_term.specs.Codes.{coded_part};

    ghost Value = { List Part };

    ghost coded = { coded_list coded_part };

    ghost use Rattle.chart_term.specs.Facts.{RowHasFacts};
    ghost use Rattle.chart_term.specs.NormalForms.{has_gap as gap_in};
    ghost use Rattle.chart_term.specs.Sizes.{parts_nodes};
    ghost use Rattle.chart_term.specs.TermViews.{AreFilled, held_parts};

    ghost view = { λ a. held_parts a.form };

    ghost invariant = { λ a. AreFilled a.form × (a.count ≡ length (held_parts a.form)) × (a.has_gap ≡ gap_in (held_parts a.form)) × RowHasFacts (row_of (held_parts a.form)) a.facts };

    ghost size = { λ ps. parts_nodes ps * 2 };

    ghost use Rattle.chart_term.specs.Falls.{stretch_falls};

    ghost size_decreases = { λ a h. stretch_falls a.form h.0 };
}

impl Model for PartList {
    ghost use Rattle.std.specs.Prelude.{List, ◌+◌, ◌*◌};
    ghost use Rattle.std.specs.Coded.{coded_list};
    ghost use Rattle.chart_term.specs.Terms.{Part};
    ghost use Rattle.chart_term.specs.Codes.{coded_part};

    ghost Value = { List Part };

    ghost coded = { coded_list coded_part };

    ghost use Rattle.std.proofs.Common.{arith};
    ghost use Rattle.chart_term.specs.Sizes.{parts_nodes};

    ghost view = { λ a. a.root.value };

    ghost size = { λ ps. parts_nodes ps * 2 + 1 };

    ghost size_decreases = { λ a h. Prim.grind arith };
}

impl Term {
    ghost use Rattle.chart_term.specs.Looks.{Shows};

    /// A term of this node.
    fn share(alloc: Global, node: Node) -> Result<Term, NoMemory>
        ensures { IfOk result (λ term. term ≡ node) }
    {
        Ok(Term {
            node: Rc::new(alloc, node)?,
        })
    }

    /// The empty process.
    pub fn nil(alloc: Global) -> Result<Term, NoMemory>
        ensures { IfOk result (λ term. term ≡ Nil) }
    {
        let mut facts = Facts::none(alloc);
        facts.add_weight(1);
        let form = Form::Nil;
        Term::share(alloc, Node { form, facts })
    }

    /// An event with its one or two instances.
    pub fn event(
        alloc: Global,
        number: u32,
        at: u32,
        also: Option<u32>,
        label: u32,
    ) -> Result<Term, NoMemory>
        requires at { at < Limits.INSTANCES }
        requires also { ForSome also (λ second. (at < second) × (second < Limits.INSTANCES)) }
        ensures { IfOk result (λ term.
            term ≡ EventTree (record { number = number; at = at; also = also; label = label })) }
    {
        let facts = Facts::of_event(alloc, number, at, also, label)?;
        let second = match also {
            Some(second) => Some(second as u16),
            None => None,
        };
        let form = Form::Event(StoredEvent {
            number,
            label,
            at: at as u16,
            also: second,
        });
        Term::share(alloc, Node { form, facts })
    }

    /// The loop, as it is.
    #[tactic(auto, using(crate::proofs::Gathering::gathering))]
    pub fn loop_of(
        alloc: Global,
        body: Term,
        lower: u64,
        upper: Option<u64>,
        row: PartList,
    ) -> Result<Term, NoMemory>
        ensures { IfOk result (λ term. term ≡ Loop body lower upper (row_of row)) }
    {
        let mut facts = row.facts().copy(alloc)?;
        facts.add(body.facts())?;
        facts.add_weight(1);
        let parts = LoopForm {
            body,
            lower,
            upper,
            row,
        };
        let form = Form::Loop(Box::new(alloc, parts)?);
        Term::share(alloc, Node { form, facts })
    }

    /// The turns one after another, as they are.
    #[tactic(auto, using(crate::proofs::Gathering::gathering))]
    pub(crate) fn seq_of(alloc: Global, parts: PartList) -> Result<Term, NoMemory>
        requires { AreTurns parts }
        ensures { IfOk result (λ term. term ≡ Join seq (trees (begun parts))) }
    {
        let mut facts = parts.facts().copy(alloc)?;
        facts.add_weight(1);
        let form = Form::Seq(parts);
        Term::share(alloc, Node { form, facts })
    }

    /// The turns side by side, as they are.
    #[tactic(auto, using(crate::proofs::Gathering::gathering))]
    pub(crate) fn par_of(alloc: Global, parts: PartList) -> Result<Term, NoMemory>
        requires { AreTurns parts }
        ensures { IfOk result (λ term. term ≡ Join par (trees (begun parts))) }
    {
        let mut facts = parts.facts().copy(alloc)?;
        facts.add_weight(1);
        let form = Form::Par(parts);
        Term::share(alloc, Node { form, facts })
    }

    /// The choice of the turns, as they are.
    #[tactic(auto, using(crate::proofs::Gathering::gathering))]
    pub(crate) fn choice_of(alloc: Global, parts: PartList) -> Result<Term, NoMemory>
        requires turns { AreTurns parts }
        requires some { 0 < length parts }
        ensures { IfOk result (λ term. term ≡ Choice (trees (begun parts))) }
    {
        let mut facts = parts.facts().copy(alloc)?;
        facts.add_weight(1);
        let form = Form::Choice(parts);
        Term::share(alloc, Node { form, facts })
    }

    /// The term below a tie of these pairs, as they are.
    pub fn tie_of(alloc: Global, inner: Term, pairs: TieList) -> Result<Term, NoMemory>
        ensures { IfOk result (λ term. term ≡ Tied inner (pairs_of pairs)) }
    {
        let mut facts = inner.facts().copy(alloc)?;
        facts.add_weight(pairs.len() as u64);
        facts.add_weight(1);
        let form = Form::Tied(inner, pairs);
        Term::share(alloc, Node { form, facts })
    }

    /// The walk, as it is.
    pub fn walk_of(
        alloc: Global,
        net: u32,
        from: Spot,
        to: Goal,
        block: Block,
    ) -> Result<Term, NoMemory>
        ensures { IfOk result (λ term.
            term ≡ Walk net (spot_of from) (goal_of to) block.instances) }
    {
        let facts = Facts::of_walk(alloc);
        let parts = WalkForm {
            net,
            from,
            to,
            block,
        };
        let form = Form::Walk(Box::new(alloc, parts)?);
        Term::share(alloc, Node { form, facts })
    }

    /// The parts of the term. It takes no memory.
    pub fn look(&self) -> Look<'_>
        ensures { Shows self.now result }
    {
        let node: &Node = &self.node;
        match &node.form {
            Form::Nil => Look::Nil,
            Form::Event(event) => {
                let shown = event.shown();
                Look::Event {
                    number: shown.number,
                    at: shown.at,
                    also: shown.also,
                    label: shown.label,
                }
            }
            Form::Seq(parts) => Look::Seq(parts),
            Form::Par(parts) => Look::Par(parts),
            Form::Choice(parts) => Look::Choice(parts),
            Form::Tied(inner, pairs) => Look::Tied(inner, pairs),
            Form::Loop(parts) => Look::Loop {
                body: &parts.body,
                lower: parts.lower,
                upper: parts.upper,
                row: &parts.row,
            },
            Form::Walk(parts) => Look::Walk {
                net: parts.net,
                from: parts.from,
                to: parts.to,
                block: &parts.block,
            },
        }
    }

    /// The parts of a choice, of which there is one at least, and all are turns.
    pub(crate) fn choice_parts(&self) -> Option<&PartList>
        ensures { MatchOption result (open_choice self.now ≡ self.now ∷ [])
            (λ parts. (open_choice self.now ≡ begun parts.now) × AreTurns parts.now × (0 < length parts.now)) }
    {
        let node: &Node = &self.node;
        match &node.form {
            Form::Choice(parts) => Some(parts),
            _ => None,
        }
    }

    /// The same term once more: its node is shared.
    pub fn copy(&self, alloc: Global) -> Result<Term, NoMemory>
        ensures { IfOk result (λ term. term ≡ self.now) }
    {
        let _ = alloc;
        Ok(Term {
            node: self.node.clone()?,
        })
    }

    /// The facts that the node stores. It takes no memory.
    pub fn facts(&self) -> &Facts
        ensures { HasFacts self.now result.now }
    {
        let node: &Node = &self.node;
        &node.facts
    }

    /// Whether no event of the block can hit the term: no walk stands in it, no instance of the
    /// block is one of its events', and no event number of the block lies from the least to the
    /// greatest of theirs. It takes no memory.
    #[tactic(auto, using(crate::proofs::Gathering::gathering))]
    pub fn misses(&self, block: &Block) -> bool
        ensures { result ≡ misses block.now self.now }
    {
        self.facts().misses(block)
    }

    /// Whether an event with the label may stand in the term: false only where no walk is in it, and
    /// no event of it, of its loop operands or begun turns has the label. It takes no memory.
    #[tactic(auto, using(crate::proofs::Passing::passing))]
    pub fn may_have(&self, label: u32) -> bool
        ensures { result ≡ false → Lacks label self.now }
    {
        self.facts().may_have(label)
    }

    /// The instances of the events of the term, of its loop operands and begun turns; nets aren't
    /// looked into. It takes no memory.
    pub fn instances(&self) -> &Block
        ensures { (n : ℕ) → has result.now.instances n ≡ has (instances self.now) n }
    {
        &self.facts().instances
    }

    /// Whether a walk stands in the term, in a loop operand of it or in a begun turn. It takes no memory.
    pub fn holds_walk(&self) -> bool
        ensures { result ≡ holds_walk self.now }
    {
        self.facts().holds_walk
    }

    /// The weight, or the largest `u64` where the weight is larger. It takes no memory.
    pub fn weight(&self) -> u64
        ensures { result ≡ min (weight self.now) most_stored }
    {
        self.facts().weight
    }
}
