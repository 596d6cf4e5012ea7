//! Items of one kind each, made of what the readers of msc_events and `reference` read: for `items`.

ghost use Rattle.std.specs.Prelude.{◌≡◌, IfOk};
ghost use Rattle.msc_tree.specs.Statements.{placed};
ghost use Rattle.msc_tree.specs.Views.{item_view, inline_view};
ghost use Rattle.token_grammar.specs.Answers.{Gives};
ghost use Rattle.msc_expression.specs.ExpressionReaders.{expression_at};
ghost use Rattle.msc_document.specs.DocumentReaders as specs;
ghost use Rattle.msc_document.specs.ItemReaders.{body_view, inline_parts, item_of};

use crate::reference::reference;
use msc_base::{Name, NoMemory, Place};
use msc_events::{Orientation, condition, coregion, single, stop};
use msc_expression::Bounds;
use msc_tokens::Token;
use msc_tree::{Cover, InlineForm, RawForm, RawInline, RawItem, RawOperand, TreePlace};
use std::alloc::Global;
use token_grammar::ReadFault;

/// A single event.
pub fn single_item(alloc: Global, tokens: &[Token]) -> Result<(RawItem, &[Token]), ReadFault>
    ensures { Gives (λ x. (item_view x.0, x.1.now)) result (specs.single_item_at tokens.now) }
{
    let (event, rest) = single(alloc, tokens)?;
    let place = event.place.copy();
    Ok((
        RawItem {
            place,
            form: RawForm::Single(event),
        },
        rest,
    ))
}

/// A coregion.
pub fn coregion_item(alloc: Global, tokens: &[Token]) -> Result<(RawItem, &[Token]), ReadFault>
    ensures { Gives (λ x. (item_view x.0, x.1.now)) result (specs.coregion_item_at tokens.now) }
{
    let (place, events, rest) = coregion(alloc, tokens)?;
    Ok((
        RawItem {
            place: TreePlace::of(place)?,
            form: RawForm::Coregion(events),
        },
        rest,
    ))
}

/// The stop of an instance.
pub fn stop_item(tokens: &[Token]) -> Result<(RawItem, &[Token]), ReadFault>
    ensures { Gives (λ x. (item_view x.0, x.1.now)) result (specs.stop_item_at tokens.now) }
{
    let (place, rest) = stop(tokens)?;
    Ok((
        RawItem {
            place: TreePlace::of(place)?,
            form: RawForm::Stop,
        },
        rest,
    ))
}

/// A condition.
pub fn condition_item(
    alloc: Global,
    orientation: Orientation,
    tokens: &[Token],
) -> Result<(RawItem, &[Token]), ReadFault>
    ensures { Gives (λ x. (item_view x.0, x.1.now)) result (specs.condition_item_at orientation tokens.now) }
{
    let (place, names, shared, rest) = condition(alloc, orientation, tokens)?;
    Ok((
        RawItem {
            place: TreePlace::of(place)?,
            form: RawForm::Condition(names, shared),
        },
        rest,
    ))
}

/// A reference.
pub fn reference_item(
    alloc: Global,
    orientation: Orientation,
    tokens: &[Token],
    levels: usize,
) -> Result<(RawItem, &[Token]), ReadFault>
    ensures { Gives (λ x. (item_view x.0, x.1.now)) result (specs.reference_item_at orientation (expression_at levels) tokens.now) }
{
    let (place, reference, rest) = reference(alloc, orientation, tokens, levels)?;
    Ok((
        RawItem {
            place: TreePlace::of(place)?,
            form: RawForm::Reference(reference),
        },
        rest,
    ))
}

/// What stands in the level that an inline expression opens.
#[derive(Drop)]
pub struct InlineBody {
    /// The name of the expression, where it has one.
    pub name: Option<Name>,
    /// Those that share it, where they are said.
    pub shared: Option<Cover>,
    /// Its operands.
    pub operands: Vec<RawOperand>,
}

/// An inline expression of these parts.
fn inline_of(form: InlineForm, bounds: Bounds, body: InlineBody) -> RawInline
    ensures { inline_view result ≡ inline_parts form (bounds, body_view body) }
{
    RawInline {
        form,
        lower: bounds.lower,
        upper: bounds.upper,
        name: body.name,
        shared: body.shared,
        operands: body.operands,
    }
}

/// An item that is an inline expression.
fn of_inline(place: Place, inline: RawInline) -> Result<RawItem, NoMemory>
    ensures { IfOk result (λ item. item_view item ≡ placed place (inline_view inline)) }
{
    Ok(RawItem {
        place: TreePlace::of(place)?,
        form: RawForm::Inline(inline),
    })
}

/// The item of an inline expression.
pub fn inline_item(
    place: Place,
    form: InlineForm,
    bounds: Bounds,
    body: InlineBody,
) -> Result<RawItem, NoMemory>
    ensures { IfOk result (λ item. item_view item ≡ item_of form (place, (bounds, body_view body))) }
{
    of_inline(place, inline_of(form, bounds, body))
}
