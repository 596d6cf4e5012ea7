//! What a chart comes to, up to a number above all limits: for `own` and `extents`.

ghost use Rattle.std.specs.Prelude.{◌≡◌, ℕ};
ghost use Rattle.chart_extents.specs.Capped.{capped, most};
ghost use Rattle.chart_extents.specs.Extents.{nothing, with_named};

/// A size and a nesting.
#[derive(Clone, Copy, Debug, PartialEq, Eq)]
pub struct Extent {
    /// How large: what is counted by weights of terms.
    pub size: u64,
    /// How deep: levels of nesting.
    pub nesting: u64,
}

/// A number above the limits of nesting, of size, and of the sum of sizes: what is as large is told no further.
const MOST: u64 = 2_000_001;

/// No size and no nesting.
pub(crate) fn no_extent() -> Extent
    ensures { result ≡ nothing }
{
    Extent {
        size: 0,
        nesting: 0,
    }
}

/// The extent, as far as it is told.
pub(crate) fn up_to_most(extent: Extent) -> Extent
    ensures { result ≡ capped extent }
{
    Extent {
        size: extent.size.min(MOST),
        nesting: extent.nesting.min(MOST),
    }
}

/// An extent with that of what is named so deep, as far as it is told.
pub(crate) fn with_extent(all: Extent, depth: u32, named: Extent) -> Extent
    ensures { result ≡ capped (with_named all depth named) }
{
    let size = all.size.saturating_add(named.size);
    let inner = named.nesting.saturating_add(depth as u64);
    up_to_most(Extent {
        size,
        nesting: all.nesting.max(inner),
    })
}
