//! The earliest places at which parts of items break a rule: `part_faults`.

ghost use Rattle.std.specs.Prelude.{◌≡◌, IfOk, OnOk};
ghost use Rattle.msc_base.specs.Places.{IsLeast};
ghost use Rattle.msc_instances.specs.Instances.{instances};
ghost use Rattle.msc_tree.specs.Views.{chart_view, content_view};
ghost use Rattle.shared_parts.specs.PartRules.{ChartBreaksPartRule, ContentBreaksPartRule};
ghost use Rattle.shared_parts.specs.Noting.{AreNoted, noted};
ghost use Rattle.shared_parts.specs.declared.faults.PartRule as code;
ghost use Rattle.shared_parts.specs.declared.faults.PartRule.TheVariants.{NotShared, OperandsDiffer};

use crate::levels::note_level;
use crate::noting::PartPlaces;
use chart_text::earliest_place;
use level_pieces::chart_pieces;
use msc_base::{Items, Names, NoMemory, Place};
use msc_tree::{Content, RawChart};
use std::alloc::Global;

/// A rule on the parts of items.
#[derive(Clone, Copy, Debug, PartialEq, Eq)]
pub enum PartRule {
    /// A part that its columns don't share.
    NotShared,
    /// Parts of one name that differ.
    OperandsDiffer,
}

/// The earliest places at which a chart breaks the rules on parts.
#[derive(Clone, Copy, Debug, PartialEq, Eq)]
pub struct PartFaults {
    /// Of a part that its columns don't share.
    pub not_shared: Option<Place>,
    /// Of a part that differs from the first of its name.
    pub differing: Option<Place>,
}

/// Notes the parts that break the rules, of what a chart of these instances holds.
fn note_content(
    alloc: Global,
    places: &mut PartPlaces,
    names: &Names,
    content: &Content,
) -> Result<(), NoMemory>
    ensures { OnOk result ((rule : code.PartRule) → AreNoted (ContentBreaksPartRule rule names.now (content_view content.now)) (noted rule places.old) (noted rule places.new)) }
{
    match content {
        Content::Events(list) => {
            let pieces = chart_pieces(alloc, names, list.as_slice())?;
            note_level(alloc, places, names, pieces.as_slice())
        }
        Content::Graph(_) => Ok(()),
    }
}

/// The earliest places at which a chart, whose instances `names` are, breaks the rules on parts.
pub fn part_faults(alloc: Global, chart: &RawChart, names: &Names) -> Result<PartFaults, NoMemory>
    requires { names.now ≡ instances (chart_view chart.now) }
    ensures not_shared { IfOk result (λ faults. IsLeast (ChartBreaksPartRule NotShared (chart_view chart.now)) faults.not_shared) }
    ensures differing { IfOk result (λ faults. IsLeast (ChartBreaksPartRule OperandsDiffer (chart_view chart.now)) faults.differing) }
{
    let mut places = PartPlaces {
        not_shared: Items::new(alloc),
        differing: Items::new(alloc),
    };
    note_content(alloc, &mut places, names, &chart.content)?;
    Ok(PartFaults {
        not_shared: earliest_place(places.not_shared.as_slice()),
        differing: earliest_place(places.differing.as_slice()),
    })
}
