//! The laws of gathered charts. Each is the contract of a function that does nothing.

ghost use Rattle.level_gathering.specs.GatheringLaws.{EachLevelHasItsReferences, GatheredTableIsOne};

/// Charts are gathered to one table, with one list of references.
pub fn gathered_table_is_one()
    ensures { GatheredTableIsOne }
{}

/// There are as many lists of references as the body has levels.
pub fn each_level_has_its_references()
    ensures { EachLevelHasItsReferences }
{}
