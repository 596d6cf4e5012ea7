//! The general orderings of an event in a box, which takes less room where there are none: few events have any.

ghost use Rattle.std.specs.Prelude.{◌≡◌, IfOk, option_copied};

use msc_base::{Items, Name, Names, NoMemory, copy_name, copy_names};
use std::alloc::Global;
use std::marker::Model;

/// How an event stands in general orderings (Z.120, clause 4.6).
#[derive(Drop)]
pub struct GeneralOrder {
    /// The name by which they know it, where it has one.
    pub event_name: Option<Name>,
    /// The events that it comes before.
    pub earlier_than: Names,
    /// The events that it comes after.
    pub later_than: Names,
}

/// The same in a block of its own, where there is anything of it.
#[derive(Drop)]
pub struct BoxedOrder {
    held: Option<Box<GeneralOrder>>,
}

impl Model for BoxedOrder {
    ghost use Rattle.msc_tree.specs.Orders.{order_of};
    ghost use Rattle.msc_tree.specs.declared.general_order.GeneralOrder.{GeneralOrder};

    ghost Value = { GeneralOrder };

    ghost view = { λ b. order_of b.held };
}

impl BoxedOrder {
    ghost use Rattle.msc_tree.specs.Orders.{no_order, with_name};

    /// No name and no events. It takes no memory.
    pub fn none() -> BoxedOrder
        ensures { result ≡ no_order }
    {
        BoxedOrder { held: None }
    }

    /// The order in a box, where there is anything of it.
    pub fn of(alloc: Global, order: GeneralOrder) -> Result<BoxedOrder, NoMemory>
        ensures { IfOk result (λ boxed. boxed ≡ order) }
    {
        if order.event_name.is_none()
            && order.earlier_than.len() == 0
            && order.later_than.len() == 0
        {
            return Ok(BoxedOrder::none());
        }
        Ok(BoxedOrder {
            held: Some(Box::new(alloc, order)?),
        })
    }

    /// The name, where there is one.
    pub fn event_name(&self) -> Option<&Name>
        ensures { option_copied result ≡ self.now.event_name }
    {
        match &self.held {
            Some(order) => order.event_name.as_ref(),
            None => None,
        }
    }

    /// The events that it comes before.
    pub fn earlier_than(&self) -> &[Name]
        ensures { result.now ≡ self.now.earlier_than }
    {
        match &self.held {
            Some(order) => order.earlier_than.as_slice(),
            None => &[],
        }
    }

    /// The events that it comes after.
    pub fn later_than(&self) -> &[Name]
        ensures { result.now ≡ self.now.later_than }
    {
        match &self.held {
            Some(order) => order.later_than.as_slice(),
            None => &[],
        }
    }

    /// The same order of an event of this name.
    pub fn named(self, alloc: Global, event_name: Option<Name>) -> Result<BoxedOrder, NoMemory>
        ensures { IfOk result (λ boxed. boxed ≡ with_name event_name self) }
    {
        match self.held {
            Some(held) => {
                let order = Box::into_inner(held);
                BoxedOrder::of(
                    alloc,
                    GeneralOrder {
                        event_name,
                        ..order
                    },
                )
            }
            None => BoxedOrder::of(
                alloc,
                GeneralOrder {
                    event_name,
                    earlier_than: Items::new(alloc),
                    later_than: Items::new(alloc),
                },
            ),
        }
    }

    /// The same order once more. It fails only for want of memory.
    pub fn copy(&self, alloc: Global) -> Result<BoxedOrder, NoMemory>
        ensures { IfOk result (λ copied. copied ≡ self.now) }
    {
        match &self.held {
            Some(order) => {
                let copied = GeneralOrder {
                    event_name: copy_name(alloc, &order.event_name)?,
                    earlier_than: copy_names(alloc, order.earlier_than.as_slice())?,
                    later_than: copy_names(alloc, order.later_than.as_slice())?,
                };
                Ok(BoxedOrder {
                    held: Some(Box::new(alloc, copied)?),
                })
            }
            None => Ok(BoxedOrder::none()),
        }
    }
}
