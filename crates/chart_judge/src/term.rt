//! The term of a chart of an accepted document: for `judge`, and for the judge of sessions.

ghost use Rattle.std.specs.Prelude.{◌≡◌, IfOk};
ghost use Rattle.msc_meaning.specs.Views.{table_view};
ghost use Rattle.table_terms.specs.SoundGraphs.{HasSoundGraphs};
ghost use Rattle.table_terms.specs.TableTerms.{HasRoom, IsTermOf};

use msc_acceptance::Accepted;
use msc_base::NoMemory;
use std::alloc::Global;
use table_terms::{ChartTerm, chart_of};

/// The term of the chart of that name, and its tables. It fails only for want of memory.
pub fn term_of(alloc: Global, accepted: &Accepted, name: &[u8]) -> Result<ChartTerm, NoMemory>
    requires graphs { HasSoundGraphs (table_view accepted.now) name.now }
    requires room { HasRoom (table_view accepted.now) name.now }
    ensures { IfOk result (λ made. IsTermOf (table_view accepted.now) name.now made.nets made.term) }
{
    let made = chart_of(
        alloc,
        accepted.as_slice(),
        accepted.names(),
        accepted.gates(),
        name,
    )?;
    Ok(made)
}
