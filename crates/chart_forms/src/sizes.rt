//! The size of a chart: what its events, coregions and inline expressions, or the lines of its graph come to, at any depth.

ghost use Rattle.std.specs.Prelude.{◌≡◌, ◌+◌, IfOk};
ghost use Rattle.chart_forms.specs.ChartSizes.{content_size, event_size, events_size, item_size, passage_size};
ghost use Rattle.chart_text.specs.Gathering.{summed};
ghost use Rattle.chart_text.specs.PassageViews.{passage_view, text_view};
ghost use Rattle.graph_text.specs.GraphPartViews.{parts_view};
ghost use Rattle.graph_text.specs.GraphTexts.{graph_text as drawn_of};
ghost use Rattle.msc_tree.specs.Views.{content_view, form_view};

use crate::graph_sizes::parts_size;
use chart_text::Passage;
use graph_text::GraphPart;
use msc_base::NoMemory;
use msc_tree::{Content, RawEvent, RawForm};

/// The sum; a larger one than 64 bits hold would want more memory than there is.
pub(crate) fn sum_of(a: u64, b: u64) -> Result<u64, NoMemory>
    ensures { IfOk result (λ sum. sum ≡ a + b) }
{
    a.checked_add(b).ok_or(NoMemory)
}

/// The size of an event.
fn event_size(event: &RawEvent) -> Result<u64, NoMemory>
    ensures { IfOk result (λ size. size ≡ event_size event.now) }
{
    let named = sum_of(
        event.order.earlier_than().len() as u64,
        event.order.later_than().len() as u64,
    )?;
    sum_of(3, named)
}

/// The size of the events of a coregion.
fn events_size(list: &[RawEvent]) -> Result<u64, NoMemory>
    ensures { IfOk result (λ size. size ≡ events_size list.now) }
{
    let mut total = 0u64;
    for event in list {
        let more = event_size(event)?;
        total = sum_of(total, more)?;
    }
    Ok(total)
}

/// The size of a coregion of these events.
fn coregion_size(list: &[RawEvent]) -> Result<u64, NoMemory>
    ensures { IfOk result (λ size. size ≡ 1 + events_size list.now) }
{
    let size = events_size(list)?;
    sum_of(1, size)
}

/// The size of an item by itself.
fn item_size(form: &RawForm) -> Result<u64, NoMemory>
    ensures { IfOk result (λ size. size ≡ item_size (form_view form.now)) }
{
    match form {
        RawForm::Single(event) => event_size(event),
        RawForm::Coregion(list) => coregion_size(list.as_slice()),
        RawForm::Condition(_, _) => Ok(0),
        RawForm::Inline(_) => Ok(2),
        RawForm::Reference(_) => Ok(0),
        RawForm::Stop => Ok(0),
    }
}

/// The size of a passage.
fn passage_size(passage: Passage<'_>) -> Result<u64, NoMemory>
    ensures { IfOk result (λ size. size ≡ passage_size (passage_view passage.entry)) }
{
    match passage {
        Passage::Item(_, held) => item_size(&held.form),
        Passage::Operand(_, _) => Ok(1),
        Passage::Head(_) => Ok(0),
        Passage::Statement(_, _, _) => Ok(0),
    }
}

/// The size of the passages of a text.
fn passages_size(text: &[Passage<'_>]) -> Result<u64, NoMemory>
    ensures { IfOk result (λ size. size ≡ summed passage_size (text_view text.now)) }
{
    let mut total = 0u64;
    for held in text {
        let more = passage_size(*held)?;
        total = sum_of(total, more)?;
    }
    Ok(total)
}

/// The size of a basic chart of this text.
fn text_size(text: &[Passage<'_>]) -> Result<u64, NoMemory>
    ensures { IfOk result (λ size. size ≡ 2 + summed passage_size (text_view text.now)) }
{
    let held = passages_size(text)?;
    sum_of(2, held)
}

/// The size of a chart of this text, with these parts of its graph.
pub fn size(
    content: &Content,
    text: &[Passage<'_>],
    parts: &[GraphPart<'_>],
) -> Result<u64, NoMemory>
    requires { parts_view parts.now ≡ drawn_of (content_view content.now) }
    ensures { IfOk result (λ size. size ≡ content_size (content_view content.now) (text_view text.now)) }
{
    match content {
        Content::Events(_) => text_size(text),
        Content::Graph(_) => parts_size(parts),
    }
}
