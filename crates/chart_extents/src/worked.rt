//! What worked charts come to. Each is the contract of a function that does nothing.

ghost use Rattle.chart_extents.specs.Worked.{ActionsAreSmall, FramesAddUp, UsesAddUp};

/// A chart of one action has size 5 and nesting 3.
pub fn an_action_comes_to_five()
    ensures { ActionsAreSmall }
{}

/// A chart that refers twice to another comes to 5 and twice what that comes to.
pub fn each_use_counts()
    ensures { UsesAddUp }
{}

/// A graph that names another chart in a frame comes to what its lines and those of the frame do, and what that comes to, six levels down.
pub fn frames_count()
    ensures { FramesAddUp }
{}
