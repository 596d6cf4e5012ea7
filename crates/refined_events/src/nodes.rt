//! The events of a level that are matched: those of an instance, and those with the environment as their other end.

ghost use Rattle.std.specs.Prelude.{◌≡◌, ◌++◌, ◌∷◌, [], IfOk, OnOk, map};
ghost use Rattle.std.specs.Str.{bytes_eq};
ghost use Rattle.msc_meaning.specs.Bodies.{events, item_events};
ghost use Rattle.msc_meaning.specs.ItemViews.{items_view};
ghost use Rattle.msc_meaning.specs.Refinements.{env_events, events_at, is_env};
ghost use Rattle.msc_meaning.specs.Views.{item_view, node_view};
ghost use Rattle.refined_events.specs.MatchViews.{nodes_view};

use msc_base::{Name, NoMemory};
use msc_meaning::{EventNode, Item};
use msc_tree::Target;
use std::alloc::Global;

/// Appends the events.
fn push_all<'a>(list: &mut Vec<&'a EventNode>, nodes: &'a [EventNode]) -> Result<(), NoMemory>
    ensures { OnOk result (nodes_view list.new.items ≡ nodes_view list.old.items ++ map node_view nodes.now) }
{
    for node in nodes {
        list.push(node)?;
    }
    Ok(())
}

/// Appends an item's own events.
fn push_item<'a>(list: &mut Vec<&'a EventNode>, item: &'a Item) -> Result<(), NoMemory>
    ensures { OnOk result (nodes_view list.new.items ≡ nodes_view list.old.items ++ item_events (item_view item.now)) }
{
    match item {
        Item::Single(node) => {
            list.push(node)?;
            Ok(())
        }
        Item::Coregion(nodes) => push_all(list, nodes.as_slice()),
        Item::Inline(_) => Ok(()),
        Item::Reference(_) => Ok(()),
    }
}

/// The events of a level, in the order of its items.
fn own_nodes<'a>(alloc: Global, items: &'a [Item]) -> Result<Vec<&'a EventNode>, NoMemory>
    ensures { IfOk result (λ list. nodes_view list.items ≡ events (items_view items.now)) }
{
    let mut list = Vec::new(alloc);
    for item in items {
        push_item(&mut list, item)?;
    }
    Ok(list)
}

/// Whether the other end is the environment.
fn is_env_end(target: &Target) -> bool
    ensures { result ≡ is_env target.now }
{
    match target {
        Target::Env(_) => true,
        Target::Nobody => false,
        Target::Instance(_) => false,
        Target::Gate(_, _) => false,
    }
}

/// Whether the event happens at the instance.
fn is_at(node: &EventNode, instance: &Name) -> bool
    ensures { result ≡ bytes_eq (node_view node.now).at instance.now }
{
    node.at.same(instance)
}

/// Appends the event, where it happens at the instance.
fn push_at<'a>(
    list: &mut Vec<&'a EventNode>,
    instance: &Name,
    node: &'a EventNode,
) -> Result<(), NoMemory>
    ensures { OnOk result (nodes_view list.new.items ≡ nodes_view list.old.items ++ events_at instance.now (node_view node.now ∷ [])) }
{
    if is_at(node, instance) {
        list.push(node)?;
    }
    Ok(())
}

/// Those of the events that happen at the instance.
fn those_at<'a>(
    alloc: Global,
    instance: &Name,
    nodes: &[&'a EventNode],
) -> Result<Vec<&'a EventNode>, NoMemory>
    ensures { IfOk result (λ list. nodes_view list.items ≡ events_at instance.now (nodes_view nodes.now)) }
{
    let mut list = Vec::new(alloc);
    for node in nodes {
        push_at(&mut list, instance, node)?;
    }
    Ok(list)
}

/// The events of an instance of a level.
pub(crate) fn nodes_at<'a>(
    alloc: Global,
    instance: &Name,
    items: &'a [Item],
) -> Result<Vec<&'a EventNode>, NoMemory>
    ensures { IfOk result (λ list. nodes_view list.items ≡ events_at instance.now (events (items_view items.now))) }
{
    let all = own_nodes(alloc, items)?;
    let list = those_at(alloc, instance, all.as_slice())?;
    Ok(list)
}

/// Appends the event, where its other end is the environment.
fn push_env<'a>(list: &mut Vec<&'a EventNode>, node: &'a EventNode) -> Result<(), NoMemory>
    ensures { OnOk result (nodes_view list.new.items ≡ nodes_view list.old.items ++ env_events (node_view node.now ∷ [])) }
{
    if is_env_end(&node.event.target) {
        list.push(node)?;
    }
    Ok(())
}

/// Those of the events whose other end is the environment.
fn those_outside<'a>(alloc: Global, nodes: &[&'a EventNode]) -> Result<Vec<&'a EventNode>, NoMemory>
    ensures { IfOk result (λ list. nodes_view list.items ≡ env_events (nodes_view nodes.now)) }
{
    let mut list = Vec::new(alloc);
    for node in nodes {
        push_env(&mut list, node)?;
    }
    Ok(list)
}

/// The events of a level with the environment as their other end.
pub(crate) fn env_nodes<'a>(
    alloc: Global,
    items: &'a [Item],
) -> Result<Vec<&'a EventNode>, NoMemory>
    ensures { IfOk result (λ list. nodes_view list.items ≡ env_events (events (items_view items.now))) }
{
    let all = own_nodes(alloc, items)?;
    let list = those_outside(alloc, all.as_slice())?;
    Ok(list)
}
