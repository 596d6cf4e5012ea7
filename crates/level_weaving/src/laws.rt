//! The laws of woven bodies. Each is the contract of a function that does nothing.

ghost use Rattle.level_weaving.specs.Laws.{WovenBodyIsOne};
ghost use Rattle.level_weaving.specs.TextOrder.{TextIsOrder};

/// A level is woven to one body at most.
pub fn woven_body_is_one()
    ensures { WovenBodyIsOne }
{}

/// A level of events and coregions in one column each is woven in the order of its text, and its columns never cross.
pub fn text_is_order()
    ensures { TextIsOrder }
{}
