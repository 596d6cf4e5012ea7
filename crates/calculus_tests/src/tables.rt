//! Labels and graphs by their numbers.
ghost use Rattle.std.specs.Prelude.{◌<◌, ◌≡◌, ◌+◌, [], IfOk};
ghost use Rattle.chart_term.specs.Tables.{net_count};

use crate::samples::{action, chain, event, two};
use crate::terms::{begun_loop, loop_shut};
use crate::words::term_of;
use bit_sets::Block;
use chart_term::Term;
use hmsc_graph::{Goal, Spot};
use msc_base::NoMemory;
use std::alloc::Global;
use std::test::Fail;
use term_tables::Nets;

/// Tables of the actions of `i` and of `j`.
fn labelled(alloc: Global) -> Result<Nets, Fail>
    ensures { IfOk result (λ nets. nets.tables ≡ []) }
{
    let mut nets = Nets::new(alloc);
    nets.add_label(action(alloc, b"i", b"'a'")?)?;
    let second = action(alloc, b"j", b"'a'")?;
    match nets.label(&second) {
        Some(_) => Err(Fail::from("two labels of one number")),
        None => {
            nets.add_label(second)?;
            Ok(nets)
        }
    }
}

/// Adds a graph of two nodes with these terms.
fn add_chain(nets: &mut Nets, alloc: Global, first: Term, second: Term) -> Result<u32, Fail>
    requires { net_count nets.old.tables < 2 }
    ensures number { IfOk result (λ number. number ≡ net_count nets.old.tables) }
    ensures count { IfOk result (λ number. net_count nets.new.tables ≡ number + 1) }
{
    let net = chain(alloc)?;
    let nodes = two(alloc, first, second)?;
    if net.size() != 2 {
        return Err(Fail::from("a chain of two lines has two nodes"));
    }
    let number = nets.add_net(net, nodes)?;
    Ok(number)
}

/// A walk of the net.
fn walk(alloc: Global, net: u32, from: Spot, to: Goal) -> Result<Term, NoMemory> {
    Term::walk_of(alloc, net, from, to, Block::empty(alloc))
}

/// Tables of two graphs, of which the second names the first.
fn linked(alloc: Global) -> Result<Nets, Fail>
    ensures { IfOk result (λ nets. net_count nets.tables ≡ 2) }
{
    let mut nets = labelled(alloc)?;
    add_chain(&mut nets, alloc, event(alloc, 0, 0)?, Term::nil(alloc)?)?;
    let first = walk(alloc, 0, Spot::Start, Goal::End)?;
    add_chain(&mut nets, alloc, first, event(alloc, 1, 1)?)?;
    Ok(nets)
}

/// Whether the node of the net has that term.
fn node_is(nets: &Nets, net: u32, node: u32, term: &Term) -> bool
    requires { net < net_count nets.now.tables }
{
    node < nets.net(net).size() && nets.node(net, node).same(term)
}

/// Whether the term fits the tables of two graphs.
fn fits(alloc: Global, term: &Term) -> Result<bool, Fail> {
    let nets = linked(alloc)?;
    Ok(nets.fits(term))
}

/// The number of the label of the instance's action.
fn number_of(alloc: Global, at: &str) -> Result<Option<u32>, Fail> {
    let nets = labelled(alloc)?;
    let label = action(alloc, at.as_bytes(), b"'a'")?;
    Ok(nets.label(&label))
}

#[test]
fn labels_are_numbered_in_the_order_in_which_they_came(rt: HostRuntime) -> Result<(), Fail> {
    let alloc = rt.alloc();
    assert!(rt; number_of(alloc, "i")? == Some(0));
    assert!(rt; number_of(alloc, "j")? == Some(1));
    assert!(rt; number_of(alloc, "k")? == None);
    assert!(rt; labelled(alloc)?.labels() == 2);
    Ok(())
}

/// Whether the node of the net in the two graphs has the term that the words make.
fn has_node(alloc: Global, net: u32, node: u32, words: &str) -> Result<bool, Fail>
    requires { net < 2 }
{
    let nets = linked(alloc)?;
    Ok(node_is(&nets, net, node, &term_of(alloc, words)?))
}

/// Whether the first node of the second graph is the walk through the first.
fn names_the_first(alloc: Global) -> Result<bool, Fail> {
    let nets = linked(alloc)?;
    Ok(node_is(&nets, 1, 0, &walk(alloc, 0, Spot::Start, Goal::End)?))
}

#[test]
fn nodes_stand_under_their_numbers(rt: HostRuntime) -> Result<(), Fail> {
    let alloc = rt.alloc();
    assert!(rt; has_node(alloc, 0, 0, "0:a")?);
    assert!(rt; has_node(alloc, 0, 1, "nil")?);
    assert!(rt; names_the_first(alloc)?);
    assert!(rt; has_node(alloc, 1, 1, "1:b")?);
    assert!(rt; linked(alloc)?.count() == 2);
    Ok(())
}

/// Whether the net of the two graphs has an event at the instance, or a net that it names.
fn is_spread(alloc: Global, net: u32, at: u32) -> Result<bool, Fail>
    requires { net < 2 }
{
    let nets = linked(alloc)?;
    Ok(nets.spread(net).has_instance(at))
}

#[test]
fn spread_of_a_net_has_those_of_the_nets_that_it_names(rt: HostRuntime) -> Result<(), Fail> {
    let alloc = rt.alloc();
    assert!(rt; is_spread(alloc, 0, 0)? && !is_spread(alloc, 0, 1)?);
    assert!(rt; is_spread(alloc, 1, 0)? && is_spread(alloc, 1, 1)?);
    assert!(rt; !is_spread(alloc, 1, 2)?);
    Ok(())
}

/// Whether the term that the words make fits.
fn words_fit(alloc: Global, words: &str) -> Result<bool, Fail> {
    let term = term_of(alloc, words)?;
    fits(alloc, &term)
}

/// Whether a loop of that body fits, which has a gap.
fn loop_fits(alloc: Global, body: &str) -> Result<bool, Fail> {
    let term = loop_shut(alloc, term_of(alloc, body)?, 0)?;
    fits(alloc, &term)
}

/// Whether a loop of that body fits, which has a begun turn.
fn begun_loop_fits(alloc: Global, body: &str, turn: &str) -> Result<bool, Fail> {
    let term = begun_loop(alloc, term_of(alloc, body)?, term_of(alloc, turn)?)?;
    fits(alloc, &term)
}

#[test]
fn numbers_beyond_the_tables_do_not_fit(rt: HostRuntime) -> Result<(), Fail> {
    let alloc = rt.alloc();
    assert!(rt; words_fit(alloc, "1:b")?);
    assert!(rt; !words_fit(alloc, "2:c")? && !words_fit(alloc, "1:b 2:c seq")?);
    assert!(rt; !loop_fits(alloc, "2:c")? && !begun_loop_fits(alloc, "1:b", "2:c")?);
    Ok(())
}

/// Whether a walk of the net fits.
fn walk_fits(alloc: Global, net: u32, from: Spot, to: Goal) -> Result<bool, Fail> {
    let term = walk(alloc, net, from, to)?;
    fits(alloc, &term)
}

#[test]
fn walks_beyond_the_nodes_do_not_fit(rt: HostRuntime) -> Result<(), Fail> {
    let alloc = rt.alloc();
    assert!(rt; walk_fits(alloc, 1, Spot::Node(1), Goal::Node(1))?);
    assert!(rt; walk_fits(alloc, 1, Spot::Start, Goal::Any)?);
    assert!(rt; !walk_fits(alloc, 2, Spot::Start, Goal::Any)?);
    assert!(rt; !walk_fits(alloc, 1, Spot::Node(2), Goal::End)?);
    assert!(rt; !walk_fits(alloc, 1, Spot::Start, Goal::Node(2))?);
    Ok(())
}
