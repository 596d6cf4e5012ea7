//! The rules on worked charts. Each is the contract of a function that does nothing.

ghost use Rattle.chart_links.specs.Worked.{CoversAll, LeavesOneOut, NamesItself, NodesName};

/// A reference in a column leaves an instance uncovered that the chart and its caller have.
pub fn a_column_leaves_an_instance_out()
    ensures { LeavesOneOut }
{}

/// A reference behind `all` covers each instance, and no rule is broken.
pub fn all_instances_are_covered()
    ensures { CoversAll }
{}

/// A chart that names itself is recursive, and its expanded instances are its own.
pub fn a_chart_names_itself()
    ensures { NamesItself }
{}

/// The nodes of a graph and of its frames name charts, each with the place of its line, and how deep it stands.
pub fn nodes_name_charts()
    ensures { NodesName }
{}
