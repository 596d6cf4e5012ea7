//! The law. It is the contract of a function that does nothing.

ghost use Rattle.chart_choices.specs.Listed.{ChoiceListsAreOne};

/// There is one list of a chart's choices.
pub fn choice_lists_are_one()
    ensures { ChoiceListsAreOne }
{}
