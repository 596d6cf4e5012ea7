//! The rules on worked tables. Each is the contract of a function that does nothing.

ghost use Rattle.refinement_rules.specs.Worked.{HasLocal, HasMoreInside, HasOtherMessages, Shares};

/// An instance sends a message that its refining chart doesn't have.
pub fn messages_differ()
    ensures { HasOtherMessages }
{}

/// A shared item, and a refining chart with an instance of the chart, of a chart that it references, and of another refining chart.
pub fn instances_are_shared()
    ensures { Shares }
{}

/// A refining chart that there isn't, and one with an event with the environment in an operand, and in a chart that it references.
pub fn charts_have_more_inside()
    ensures { HasMoreInside }
{}

/// An action of a decomposed instance, and a reference that covers one.
pub fn instances_have_local_events()
    ensures { HasLocal }
{}
