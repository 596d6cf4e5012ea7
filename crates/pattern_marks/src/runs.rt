//! Whether marks are those of a run of a log.

ghost use Rattle.std.specs.Prelude.{◌≡◌, ◌↔◌, IfOk, IsTrue};
ghost use Rattle.certificates.specs.Certificates.{PlacedShape};
ghost use Rattle.pattern_marks.specs.Marks.{signs, signs_of};
ghost use Rattle.pattern_marks.specs.Runs.{IsRunOf};

use crate::Mark;
use crate::floors::do_rise;
use crate::places::are_placed;
use crate::ties::are_tied;
use certificates::laws::checks_are_exact;
use empty_terms::Outline;
use msc_base::NoMemory;
use std::alloc::Global;

/// Whether the pattern of these marks is a run of the log of these labels, by number: its events stand at the places of the log, each at
/// one, with the labels that the log has there, and of each of its pairs the first stands before the second. A tie's end names the tie by
/// its number in the outline.
///
/// It fails only for want of memory, or where there are more than 4,294,967,295 events.
pub fn are_run(
    alloc: Global,
    outline: &Outline,
    labels: &[u32],
    marks: &[Mark],
) -> Result<bool, NoMemory>
    ensures { IfOk result (λ are. (p : PlacedShape) → signs_of outline.now.terms marks.now ≡ signs p → IsTrue are ↔ IsRunOf labels.now p) }
{
    checks_are_exact();
    if !are_placed(alloc, labels, marks)? {
        return Ok(false);
    }
    if !do_rise(alloc, marks)? {
        return Ok(false);
    }
    are_tied(alloc, outline, marks)
}
