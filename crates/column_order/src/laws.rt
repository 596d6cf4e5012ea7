//! The laws of woven lists. Each is the contract of a function that does nothing.

ghost use Rattle.column_order.specs.Laws.{CrossedIsOne, NeverWovenAndCrossed, TextIsWoven, WovenIsOne};

/// At most one list is woven.
pub fn woven_list_is_one()
    ensures { WovenIsOne }
{}

/// Where a list is woven the columns don't cross.
pub fn woven_or_crossed()
    ensures { NeverWovenAndCrossed }
{}

/// Columns cross at one item.
pub fn crossed_at_one()
    ensures { CrossedIsOne }
{}

/// Where each column is in the order of the text, that order is the woven list.
pub fn text_order_is_woven()
    ensures { TextIsWoven }
{}
