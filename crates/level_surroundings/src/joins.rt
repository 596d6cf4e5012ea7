//! The joins of a reference by its gates: for `ways`, and for expanded_charts.

ghost use Rattle.std.specs.Option.{option_copied};
ghost use Rattle.std.specs.Prelude.{◌≡◌, ◌∷◌, [], List, true, IfOk, OnOk};
ghost use Rattle.level_surroundings.specs.HeldGates.{HasLeads};
ghost use Rattle.msc_meaning.specs.Calls.{passed_to};
ghost use Rattle.msc_tree.specs.declared.reference.Join.{Join};

use msc_base::{Name, NoMemory};
use msc_tree::{Join, JoinEnd};
use std::alloc::Global;
use std::collections::HashMap;
use std::marker::Model;
use std::rc::Rc;

/// By the gates of a reference, the gates of the level that its joins make of them.
type Leads<'a> = HashMap<&'a [u8], &'a Name>;

/// The joins of a reference. Where there is none it takes no memory.
#[derive(Drop)]
pub struct JoinTable<'a> {
    joins: &'a [Join],
    leads: Option<Rc<Leads<'a>>>,
}

impl<'a> Model for JoinTable<'a> {
    ghost use Rattle.std.specs.Prelude.{List};
    ghost use Rattle.msc_tree.specs.declared.reference.Join.{Join};
    ghost use Rattle.level_surroundings.specs.HeldGates.{AreLeads};

    ghost Value = { List Join };

    ghost view = { λ t. t.joins.now };

    ghost invariant = { λ t. AreLeads t.leads t.joins.now };
}

/// Puts a join before those that are there.
fn add_lead<'a>(leads: &mut Leads<'a>, join: &'a Join) -> Result<(), NoMemory>
    ensures { OnOk result ((others : List Join) → HasLeads leads.old others → HasLeads leads.new (join.now ∷ others)) }
{
    match &join.to {
        JoinEnd::Env(gate) => {
            leads.insert(join.gate.bytes(), gate)?;
            Ok(())
        }
        JoinEnd::Reference(_, _) => Ok(()),
    }
}

/// What these joins make of gates.
fn leads_of<'a>(alloc: Global, joins: &'a [Join]) -> Result<Leads<'a>, NoMemory>
    ensures { IfOk result (λ leads. HasLeads leads joins.now) }
{
    let mut leads = HashMap::new(alloc);
    let mut index = joins.len();
    while index > 0 {
        index -= 1;
        add_lead(&mut leads, &joins[index])?;
    }
    Ok(leads)
}

impl<'a> JoinTable<'a> {
    /// These joins.
    pub fn of(alloc: Global, joins: &'a [Join]) -> Result<JoinTable<'a>, NoMemory>
        ensures { IfOk result (λ table. table ≡ joins.now) }
    {
        if joins.is_empty() {
            return Ok(JoinTable { joins, leads: None });
        }
        let leads = leads_of(alloc, joins)?;
        let leads = Rc::new(alloc, leads)?;
        Ok(JoinTable {
            joins,
            leads: Some(leads),
        })
    }

    /// Whether there is none.
    pub fn is_empty(&self) -> bool
        ensures { result ≡ true → self.now ≡ [] }
    {
        self.joins.is_empty()
    }

    /// The same once more. It takes no memory.
    pub fn share(&self) -> Result<JoinTable<'a>, NoMemory>
        ensures { IfOk result (λ table. table ≡ self.now) }
    {
        let leads = match &self.leads {
            None => None,
            Some(leads) => Some(leads.clone()?),
        };
        Ok(JoinTable {
            joins: self.joins,
            leads,
        })
    }

    /// The gate of the level that the joins make of a gate of the reference.
    pub fn passed_to(&self, gate: &'a [u8]) -> Option<&'a Name>
        ensures { option_copied result ≡ passed_to self.now gate.now }
    {
        match &self.leads {
            None => None,
            Some(leads) => leads.get(&gate).copied(),
        }
    }
}
