//! The earliest loop with a bound above the limit, at any depth, and in the expressions of nodes.

ghost use Rattle.std.specs.Prelude.{◌≡◌, ◌++◌, IfOk, OnOk, map};
ghost use Rattle.chart_forms.specs.LoopBounds.{HasHighBound, has_high_bound as high_bound, has_high_loop as high_loop, have_high_loop as high_loops, high_bounds, high_chart, high_item};
ghost use Rattle.chart_text.specs.PassageViews.{text_view};
ghost use Rattle.chart_text.specs.Texts.{chart_text as text_of};
ghost use Rattle.msc_base.specs.Places.{IsLeast};
ghost use Rattle.msc_tree.specs.Expressions.{expressions};
ghost use Rattle.msc_tree.specs.Views.{chart_view, expression_view, form_view};

use crate::graph_bounds::GraphBounds;
use chart_text::{Passage, TextRule, earliest_place, note_if, note_text};
use graph_text::{graph_text, note_graph};
use msc_base::{Items, Limits, NoMemory, Place};
use msc_tree::{InlineForm, RawChart, RawForm, RefExpr};
use std::alloc::Global;

/// Whether a bound of the loop, if it is one, is above the limit.
fn has_high_bound(form: InlineForm, lower: u64, upper: Option<u64>) -> bool
    ensures { result ≡ high_bound form lower upper }
{
    match form {
        InlineForm::Loop => match upper {
            None => lower > Limits::LOOP_BOUND,
            Some(upper) => lower > Limits::LOOP_BOUND || upper > Limits::LOOP_BOUND,
        },
        _ => false,
    }
}

/// Whether a bound of a loop of the expression is above the limit.
#[cycle(expressions)]
pub(crate) fn has_high_loop(expression: &RefExpr) -> bool
    ensures { result ≡ high_loop (expression_view expression.now) }
{
    match expression {
        RefExpr::Empty => false,
        RefExpr::Chart(_) => false,
        RefExpr::Alt(list) => have_high_loop(list.as_slice()),
        RefExpr::Par(list) => have_high_loop(list.as_slice()),
        RefExpr::Seq(list) => have_high_loop(list.as_slice()),
        RefExpr::Opt(part) => has_high_loop(part),
        RefExpr::Loop(lower, upper, part) => {
            has_high_bound(InlineForm::Loop, *lower, *upper) || has_high_loop(part)
        }
    }
}

/// Whether one of the loops of these expressions has such a bound.
#[cycle(expressions)]
fn have_high_loop(list: &[RefExpr]) -> bool
    ensures { result ≡ high_loops (expressions (map expression_view list.now)) }
{
    for part in list {
        if has_high_loop(part) {
            return true;
        }
    }
    false
}

/// Notes an item, where it is such a loop, or a reference that has one.
fn item(places: &mut Items<Place>, place: Place, form: &RawForm) -> Result<(), NoMemory>
    ensures { OnOk result (places.new ≡ places.old ++ high_item place (form_view form.now)) }
{
    match form {
        RawForm::Inline(held) => note_if(
            places,
            place,
            has_high_bound(held.form, held.lower, held.upper),
        ),
        RawForm::Single(_) => Ok(()),
        RawForm::Condition(_, _) => Ok(()),
        RawForm::Coregion(_) => Ok(()),
        RawForm::Reference(held) => note_if(places, place, has_high_loop(&held.expr)),
        RawForm::Stop => Ok(()),
    }
}

/// The rule on bounds of loops.
struct LoopBounds;

impl TextRule for LoopBounds {
    ghost told = { high_bounds };

    fn note(places: &mut Items<Place>, passage: Passage<'_>) -> Result<(), NoMemory> {
        match passage {
            Passage::Item(_, held) => item(places, held.place.get(), &held.form),
            Passage::Head(_) => Ok(()),
            Passage::Statement(_, _, _) => Ok(()),
            Passage::Operand(_, _) => Ok(()),
        }
    }
}

/// Notes the loops of a chart, whose text that is, with such a bound.
fn whole(
    alloc: Global,
    places: &mut Items<Place>,
    chart: &RawChart,
    text: &[Passage<'_>],
) -> Result<(), NoMemory>
    requires { text_view text.now ≡ text_of (chart_view chart.now) }
    ensures { OnOk result (places.new ≡ places.old ++ high_chart (chart_view chart.now)) }
{
    let parts = graph_text(alloc, &chart.content)?;
    note_text::<LoopBounds>(places, text)?;
    note_graph::<GraphBounds>(places, parts.as_slice())
}

/// The earliest place of a chart, whose text that is, at which a loop stands with a bound above the limit.
pub fn first_high_bound(
    alloc: Global,
    chart: &RawChart,
    text: &[Passage<'_>],
) -> Result<Option<Place>, NoMemory>
    requires { text_view text.now ≡ text_of (chart_view chart.now) }
    ensures { IfOk result (IsLeast (HasHighBound (chart_view chart.now))) }
{
    let mut places = Items::new(alloc);
    whole(alloc, &mut places, chart, text)?;
    Ok(earliest_place(places.as_slice()))
}
