//! The count of calls, and whether the next one is told to fail: for the shelf and the sink in memory.

ghost use Rattle.std.specs.Prelude.{◌≡◌, ◌↔◌, ℕ, IsTrue, Contains};
ghost use Rattle.outside.specs.Calls.{next_call, FailsNext};

/// The number of the call behind so many.
pub(crate) fn next_number(calls: u64) -> u64
    ensures { result ≡ next_call calls }
{
    calls.saturating_add(1)
}

/// Whether the call behind so many is among those that fail.
pub(crate) fn fails_next(failing: &[u64], calls: u64) -> bool
    ensures { IsTrue result ↔ FailsNext failing.now calls }
{
    contains(failing, next_number(calls))
}

fn contains(numbers: &[u64], number: u64) -> bool
    ensures { IsTrue result ↔ Contains numbers.now number }
{
    numbers.contains(&number)
}
