//! Where the gates of a level lead to: for `refined_far`, and for expanded_charts.

ghost use Rattle.std.specs.Option.{option_copied};
ghost use Rattle.std.specs.Prelude.{◌≡◌, IfOk};
ghost use Rattle.level_surroundings.specs.GateWays.{ways_view};
ghost use Rattle.msc_meaning.specs.FarEnds.{gates_inside, gates_referred, no_gates};

use crate::called::CalledGates;
use crate::far_ends::FarEnds;
use crate::joins::JoinTable;
use msc_base::{Name, NoMemory};
use std::alloc::Global;
use std::rc::Rc;

/// Where the gates of a level lead to.
#[cycle(ways)]
#[derive(Drop)]
pub enum Ways<'a> {
    /// Nowhere.
    Nowhere,
    /// Out of an inline expression or a reference.
    Through(Rc<Way<'a>>),
}

/// An inline expression or a reference, through which gates lead.
#[cycle(ways)]
#[derive(Drop)]
pub struct Way<'a> {
    /// What its level says of its gates.
    level: CalledGates<'a>,
    /// Its name, where it has one.
    name: Option<&'a Name>,
    /// The joins of a reference; an inline expression has none.
    joins: Option<JoinTable<'a>>,
    /// Where the gates of its level lead to.
    outside: Ways<'a>,
}

/// What a level is given from around it.
#[derive(Clone, Copy)]
pub struct Given<'b, 'a> {
    /// Where its own gates lead to.
    pub ways: &'b Ways<'a>,
    /// The far ends that decomposition gives to its events.
    pub far: &'b FarEnds<'a>,
}

/// What the items of a level are given.
#[derive(Clone, Copy)]
pub struct Level<'b, 'a> {
    /// What it says of the gates of its references and inline expressions.
    pub called: &'b CalledGates<'a>,
    /// What it is given from around it.
    pub given: Given<'b, 'a>,
}

impl<'a> Ways<'a> {
    /// The same once more. It takes no memory.
    fn share(&self) -> Result<Ways<'a>, NoMemory>
        ensures { IfOk result (λ ways. ways_view ways ≡ ways_view self.now) }
    {
        match self {
            Ways::Nowhere => Ok(Ways::Nowhere),
            Ways::Through(way) => {
                let way = way.clone()?;
                Ok(Ways::Through(way))
            }
        }
    }

    /// Where the gates of the operands of an inline expression lead to, of a level whose gates lead there.
    pub fn inside(
        &self,
        alloc: Global,
        level: &CalledGates<'a>,
        name: Option<&'a Name>,
    ) -> Result<Ways<'a>, NoMemory>
        ensures { IfOk result (λ ways. ways_view ways ≡ gates_inside level.now (option_copied name.entry) (ways_view self.now)) }
    {
        if level.is_none() || name.is_none() {
            let same = self.share()?;
            return Ok(same);
        }
        let level = level.share()?;
        let outside = self.share()?;
        let way = Rc::new(
            alloc,
            Way {
                level,
                name,
                joins: None,
                outside,
            },
        )?;
        Ok(Ways::Through(way))
    }

    /// Where the gates of the charts of a reference lead to, on a level whose gates lead there.
    pub fn referred(
        &self,
        alloc: Global,
        level: &CalledGates<'a>,
        name: Option<&'a Name>,
        joins: &JoinTable<'a>,
    ) -> Result<Ways<'a>, NoMemory>
        ensures { IfOk result (λ ways. ways_view ways ≡ gates_referred level.now (option_copied name.entry) joins.now (ways_view self.now)) }
    {
        if joins.is_empty() && (level.is_none() || name.is_none()) {
            return Ok(Ways::Nowhere);
        }
        let level = level.share()?;
        let joins = joins.share()?;
        let outside = self.share()?;
        let way = Rc::new(
            alloc,
            Way {
                level,
                name,
                joins: Some(joins),
                outside,
            },
        )?;
        Ok(Ways::Through(way))
    }
}

/// The instance that the gate leads to, where a caller further out is known.
pub fn leads_to<'a>(ways: &Ways<'a>, gate: &'a [u8]) -> Option<&'a Name>
    ensures { option_copied result ≡ ways_view ways.now gate.now }
{
    match ways {
        Ways::Nowhere => None,
        Ways::Through(way) => match way.level.caller_of(way.name, gate) {
            Some(caller) => Some(caller),
            None => match &way.joins {
                None => leads_to(&way.outside, gate),
                Some(joins) => match joins.passed_to(gate) {
                    None => None,
                    Some(outer) => leads_to(&way.outside, outer.bytes()),
                },
            },
        },
    }
}
