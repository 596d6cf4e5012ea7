//! Standard output as a sink. The program mscjudge alone uses it; it tells no bytes.

ghost use Rattle.std.specs.Prelude.{◌≡◌, ◌≤◌, ◌<◌, ◌+◌, ◌-◌, ◌^◌, ℕ, length, None, Some, IfSome};

use crate::{Failed, Sink};
use std::io::ErrorKind;

/// How often a call that was interrupted is tried again.
const TRIES: u32 = 64;

/// Standard output. It tells no bytes.
///
/// A write that the system interrupts is tried 64 times before it fails. One that takes nothing of
/// a piece that isn't empty fails.
#[derive(Drop)]
pub struct StdSink<'a, R: Print> {
    rt: &'a R,
    faults: u64,
}

impl<'a, R: Print> StdSink<'a, R> {
    /// Standard output, with no fault counted yet.
    pub fn new(rt: &'a R) -> StdSink<'a, R>
        ensures { ⟦<StdSink<'a, R> as Sink>⟧.faults result ≡ 0 }
    {
        StdSink { rt, faults: 0 }
    }
}

impl<R: Print> Sink for StdSink<'_, R> {
    ghost written = { λ _. None };

    ghost faults = { λ s. s.faults };

    fn write(&mut self, piece: &[u8]) -> Result<usize, Failed> {
        if piece.is_empty() {
            return Ok(0);
        }
        match write_part(self.rt, piece) {
            Some(count) => Ok(count),
            None => {
                self.faults = self.faults.saturating_add(1);
                Err(Failed)
            }
        }
    }
}

/// One write, tried again where it is interrupted. The count of bytes that it took, if any.
fn write_part<R: Print>(rt: &R, piece: &[u8]) -> Option<usize>
    ensures bound { IfSome result (λ n. n ≤ length piece.now) }
    ensures some { IfSome result (λ n. 0 < n) }
{
    for _ in 0..TRIES {
        match rt.write_some(piece) {
            Ok(0) => return None,
            Ok(count) => return Some(count),
            Err(error) => {
                if error.kind() != ErrorKind::Interrupted {
                    return None;
                }
            }
        }
    }
    None
}
