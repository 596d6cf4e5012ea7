//! The far ends that decomposition gives to events: for `refined_far` and `ways`, and for expanded_charts.

ghost use Rattle.std.specs.Prelude.{◌≡◌, IfOk, option_map};
ghost use Rattle.level_surroundings.specs.FarEndViews.{far_ends_view, far_view};

use msc_base::{Far, Name, NoMemory};
use std::alloc::Global;
use std::collections::BTreeMap;

/// A far end.
#[derive(Clone, Copy)]
pub enum FarAt<'a> {
    /// The event has none.
    Nobody,
    /// The environment.
    Env,
    /// An instance.
    Instance(&'a Name),
}

/// Far ends by the numbers of events.
pub type FarMap<'a> = BTreeMap<u32, FarAt<'a>>;

/// The far ends that decomposition gives to events of a level.
#[derive(Drop)]
pub enum FarEnds<'a> {
    /// Each event has the far end that is written.
    Written,
    /// These events have others.
    Changed(FarMap<'a>),
}

/// The far end that decomposition gives to the event of that number.
pub fn changed_far<'a>(ends: &FarEnds<'a>, number: u32) -> Option<FarAt<'a>>
    ensures { option_map far_view result ≡ far_ends_view ends.now number }
{
    match ends {
        FarEnds::Written => None,
        FarEnds::Changed(far) => far.get(&number).copied(),
    }
}

/// The far end, with a name of its own.
pub fn owned_far(alloc: Global, far: FarAt<'_>) -> Result<Far, NoMemory>
    ensures { IfOk result (λ owned. owned ≡ far_view far.entry) }
{
    match far {
        FarAt::Nobody => Ok(Far::Nobody),
        FarAt::Env => Ok(Far::Env),
        FarAt::Instance(name) => {
            let name = name.copy(alloc)?;
            Ok(Far::Instance(name))
        }
    }
}
