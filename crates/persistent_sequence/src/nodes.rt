//! The nodes of a sequence; a contract sees the list of its items.

ghost use Rattle.std.specs.Prelude.{◌≡◌, ◌++◌, ◌<◌, ◌==◌, [], length, IfOk, IfSome};

use crate::Summed;
use crate::joining::push_copies;
use msc_base::NoMemory;
use std::alloc::Global;
use std::marker::Model;
use std::rc::Rc;

/// How many items a leaf holds at most.
pub(crate) const LEAF: usize = 16;

/// A sequence of items.
#[cycle(sequence)]
#[derive(Drop)]
pub struct Sequence<T: Summed> {
    root: Rc<Node<T>>,
}

/// A node.
#[cycle(sequence)]
#[derive(Drop)]
struct Node<T: Summed> {
    form: Form<T>,
    count: usize,
    height: u8,
    facts: T::Facts,
}

/// What a node is made of.
#[cycle(sequence)]
#[derive(Drop)]
enum Form<T: Summed> {
    Leaf(Vec<T>),
    Fork(Sequence<T>, Sequence<T>),
}

/// What a look at a sequence shows: the items of a leaf, or the parts of a fork.
#[derive(Drop)]
pub enum Look<'a, T, S> {
    /// Items that lie side by side in memory.
    Leaf(&'a [T]),
    /// Both parts, neither of which is empty.
    Fork(&'a S, &'a S),
}

impl<T: Summed> Model for Node<T> {
    ghost use Rattle.std.specs.Prelude.{List, ◌≡◌, ◌*◌, length};

    ghost Value = { List T };

    ghost use Rattle.persistent_sequence.specs.Contents.{items_of, IsFull};
    ghost use Rattle.std.proofs.Common.{arith, length-append};

    ghost view = { λ a. items_of a.form };

    ghost invariant = { λ a. (a.count ≡ length (items_of a.form)) × IsFull a.form × T.describes (items_of a.form) a.facts };

    ghost size = { λ xs. length xs * 2 };

    ghost size_decreases = { λ a h. Prim.grind (arith, length-append) };
}

impl<T: Summed> Model for Sequence<T> {
    ghost use Rattle.std.specs.Prelude.{List, ◌*◌, ◌+◌, length};

    ghost Value = { List T };

    ghost use Rattle.std.proofs.Common.{arith};

    ghost view = { λ a. a.root.value };

    ghost size = { λ xs. length xs * 2 + 1 };

    ghost size_decreases = { λ a h. Prim.grind arith };
}

/// The facts of these items.
fn facts_of<T: Summed>(alloc: Global, items: &[T]) -> Result<T::Facts, NoMemory>
    ensures { IfOk result (λ facts. T.describes items.now facts) }
{
    let mut facts = T::none(alloc);
    for item in items {
        item.add(&mut facts)?;
    }
    Ok(facts)
}

impl<T: Summed> Sequence<T> {
    ghost use Rattle.persistent_sequence.specs.Looks.{Shows};

    /// The sequence of no items.
    pub fn empty(alloc: Global) -> Result<Sequence<T>, NoMemory>
        ensures { IfOk result (λ whole. whole ≡ []) }
    {
        Sequence::leaf(alloc, Vec::new(alloc))
    }

    /// A sequence of this node.
    fn share(alloc: Global, node: Node<T>) -> Result<Sequence<T>, NoMemory>
        ensures { IfOk result (λ whole. whole ≡ node) }
    {
        Ok(Sequence {
            root: Rc::new(alloc, node)?,
        })
    }

    /// The items as one leaf.
    pub(crate) fn leaf(alloc: Global, items: Vec<T>) -> Result<Sequence<T>, NoMemory>
        ensures { IfOk result (λ whole. whole ≡ items.items) }
    {
        let facts = facts_of(alloc, items.as_slice())?;
        let count = items.len();
        let form = Form::Leaf(items);
        Sequence::share(
            alloc,
            Node {
                form,
                count,
                height: 0,
                facts,
            },
        )
    }

    /// Both below a fork.
    pub(crate) fn fork(
        alloc: Global,
        first: Sequence<T>,
        second: Sequence<T>,
    ) -> Result<Sequence<T>, NoMemory>
        requires first { 0 < length first }
        requires second { 0 < length second }
        ensures { IfOk result (λ whole. whole ≡ first ++ second) }
    {
        let facts = T::join(alloc, first.facts(), second.facts())?;
        let count = match first.len().checked_add(second.len()) {
            Some(count) => count,
            None => return Err(NoMemory),
        };
        let height = first.height().max(second.height()).saturating_add(1);
        let form = Form::Fork(first, second);
        Sequence::share(
            alloc,
            Node {
                form,
                count,
                height,
                facts,
            },
        )
    }

    /// How many items the sequence has.
    pub fn len(&self) -> usize
        ensures { result ≡ length self.now }
    {
        let node: &Node<T> = &self.root;
        node.count
    }

    /// Whether there is no item.
    pub fn is_empty(&self) -> bool
        ensures { result ≡ (length self.now == 0) }
    {
        self.len() == 0
    }

    /// How many levels of forks stand above the lowest leaf's.
    pub(crate) fn height(&self) -> u8 {
        let node: &Node<T> = &self.root;
        node.height
    }

    /// The same sequence once more: its nodes are shared. It takes no memory.
    pub fn copy(&self) -> Result<Sequence<T>, NoMemory>
        ensures { IfOk result (λ whole. whole ≡ self.now) }
    {
        Ok(Sequence {
            root: self.root.clone()?,
        })
    }

    /// The stored facts.
    pub fn facts(&self) -> &T::Facts
        ensures { T.describes self.now result.now }
    {
        let node: &Node<T> = &self.root;
        &node.facts
    }

    /// The items of a leaf, or the parts of a fork.
    pub fn look(&self) -> Look<'_, T, Sequence<T>>
        ensures { Shows self.now result }
    {
        let node: &Node<T> = &self.root;
        match &node.form {
            Form::Leaf(items) => Look::Leaf(items.as_slice()),
            Form::Fork(first, second) => Look::Fork(first, second),
        }
    }

    /// The items of both as one leaf, where they are two leaves that are small enough.
    pub(crate) fn merged(
        alloc: Global,
        first: &Sequence<T>,
        second: &Sequence<T>,
    ) -> Result<Option<Sequence<T>>, NoMemory>
        ensures { IfOk result (λ merged. IfSome merged (λ whole. whole ≡ first.now ++ second.now)) }
    {
        if first.len().saturating_add(second.len()) > LEAF {
            return Ok(None);
        }
        match (first.look(), second.look()) {
            (Look::Leaf(front), Look::Leaf(back)) => {
                let mut items = Vec::with_capacity(alloc, LEAF)?;
                push_copies(alloc, front, &mut items)?;
                push_copies(alloc, back, &mut items)?;
                Ok(Some(Sequence::leaf(alloc, items)?))
            }
            _ => Ok(None),
        }
    }
}
