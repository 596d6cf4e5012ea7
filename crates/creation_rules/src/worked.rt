//! The rules on worked charts. Each is the contract of a function that does nothing.

ghost use Rattle.creation_rules.specs.Worked.{CreationsAreBroken, NoneIsBroken, PlacesAreBroken, StopsAreBroken};

/// An instance is created, acts and stops; and of two columns that of the child may end in front of its creation.
pub fn no_rule_is_broken()
    ensures { NoneIsBroken }
{}

/// A creation and a stop in an operand, and a creation in a coregion.
pub fn creations_stand_elsewhere()
    ensures { PlacesAreBroken }
{}

/// A child that is created again, one that is the creator, and one that is decomposed.
pub fn children_may_not_be_created()
    ensures { CreationsAreBroken }
{}

/// Events, a second stop and a reference behind a stop, in columns of each level.
pub fn instances_go_on()
    ensures { StopsAreBroken }
{}
