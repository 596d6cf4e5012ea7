//! Graphs of high-level charts: their labels, the walks and ways through them and where they never end.
ghost use Rattle.std.specs.Prelude.{◌≡◌, IfOk};
ghost use Rattle.hmsc_graph.specs.Nets.{size_of};
ghost use Rattle.hmsc_graph.specs.Spots.{IsSpotBelow};

use bit_sets::NodeSet;
use hmsc_graph::{
    Goal, Net, NetFault, Shape, ShapeLine, ShapeLines, Spot, endless, endless_nodes, has_walk,
    reach, way_through,
};
use msc_base::{LabelRef, LabelRefs, Name, Place};
use std::alloc::Global;
use std::test::Fail;

/// The place of a word of a row.
fn at(row: usize, word: usize) -> Place {
    Place {
        byte: (row << 20 | word) as u64,
        line: row as u64,
        column: word as u64,
    }
}

/// The labels of a row from that word on.
fn labels_of(alloc: Global, row: usize, text: &str, from: usize) -> Result<LabelRefs, Fail> {
    let mut labels = LabelRefs::new(alloc);
    for (word, label) in text.split_whitespace().enumerate() {
        if word >= from && label != "end" {
            let name = Name::from_bytes(alloc, label.as_bytes())?;
            let place = at(row, word);
            labels.push(LabelRef { name, place })?;
        }
    }
    Ok(labels)
}

/// A row as a line: its label, and those that come next, or `end`.
fn line_of(alloc: Global, row: usize, text: &str) -> Result<ShapeLine, Fail> {
    let label = text.split_whitespace().next().unwrap_or("");
    Ok(ShapeLine {
        label: Name::from_bytes(alloc, label.as_bytes())?,
        place: at(row, 0),
        ends: text.split_whitespace().any(|word| word == "end"),
        next: labels_of(alloc, row, text, 1)?,
    })
}

/// The shape of a text: a row of the labels where it starts, and then its lines.
fn shape_of(alloc: Global, text: &str) -> Result<Shape, Fail> {
    let mut starts = LabelRefs::new(alloc);
    let mut lines = ShapeLines::new(alloc);
    for (row, part) in text.split(';').enumerate() {
        if row == 0 {
            starts = labels_of(alloc, row, part, 0)?;
        } else {
            lines.push(line_of(alloc, row, part)?)?;
        }
    }
    Ok(Shape { starts, lines })
}

/// What the shape of a text builds.
fn built(alloc: Global, text: &str) -> Result<Result<Net, NetFault>, Fail> {
    let shape = shape_of(alloc, text)?;
    if shape.lines.len() > 4_096 {
        return Err(Fail::from("too many lines"));
    }
    Ok(Net::build(alloc, &shape))
}

/// The graph of a text.
fn net_of(alloc: Global, text: &str) -> Result<Net, Fail> {
    let net = built(alloc, text)??;
    Ok(net)
}

/// Whether the text is refused with that fault.
fn is_refused(alloc: Global, text: &str, fault: NetFault) -> Result<bool, Fail> {
    match built(alloc, text)? {
        Ok(_) => Ok(false),
        Err(found) => Ok(found == fault),
    }
}

/// Whether the text is refused for an unknown label at that word.
fn is_unknown(alloc: Global, text: &str, row: usize, word: usize) -> Result<bool, Fail> {
    is_refused(alloc, text, NetFault::UnknownLabel(at(row, word)))
}

/// Whether the text is refused for a label that stands a second time at that row.
fn is_twice(alloc: Global, text: &str, row: usize) -> Result<bool, Fail> {
    is_refused(alloc, text, NetFault::TwiceLabel(at(row, 0)))
}

/// A label that no line has is refused at the earliest place.
#[test]
fn unknown_labels(rt: HostRuntime) -> Result<(), Fail> {
    let alloc = rt.alloc();
    assert!(rt; is_unknown(alloc, "L9; L1 end", 0, 0)?);
    assert!(rt; is_unknown(alloc, "L1; L1 L9", 1, 1)?);
    assert!(rt; is_unknown(alloc, "L1; L1 L2 L9 L8; L2 end", 1, 2)?);
    assert!(rt; is_unknown(alloc, "L1; L1 L9; L1 end", 1, 1)?);
    assert!(rt; is_unknown(alloc, "L1; L1 L2; L2 L9; L2 end", 2, 1)?);
    Ok(())
}

/// A label that two lines have is refused at the earliest place.
#[test]
fn labels_of_two_lines(rt: HostRuntime) -> Result<(), Fail> {
    let alloc = rt.alloc();
    assert!(rt; is_twice(alloc, "L1; L1 L2; L2 end; L1 end", 3)?);
    assert!(rt; is_twice(alloc, "L1; L1 end; L1 end; L1 end", 2)?);
    assert!(rt; is_twice(alloc, "L1; L1 L2; L1 end; L2 L9", 2)?);
    Ok(())
}

/// The spot that a word names: a node, or the start.
fn spot_of(net: &Net, word: &str) -> Spot
    ensures { IsSpotBelow (size_of net.now) result }
{
    match word.parse::<u32>() {
        Ok(node) if node < net.size() => Spot::Node(node),
        _ => Spot::Start,
    }
}

/// The set of these numbers.
fn set_of(alloc: Global, size: u32, nodes: &str) -> Result<NodeSet, Fail>
    ensures { IfOk result (λ set. set.size ≡ size) }
{
    let mut set = NodeSet::empty(alloc, size)?;
    for word in nodes.split_whitespace() {
        if let Ok(node) = word.parse::<u32>() {
            if node < size {
                set.add(node);
            }
        }
    }
    Ok(set)
}

/// Whether walks lead exactly to these nodes.
fn leads_to(
    alloc: Global,
    net: &Net,
    from: Spot,
    allowed: &NodeSet,
    nodes: &NodeSet,
) -> Result<bool, Fail>
    requires made { allowed.now.size ≡ size_of net.now }
    requires from { IsSpotBelow (size_of net.now) from }
{
    let reached = reach(alloc, net, from, allowed)?;
    for node in 0..net.size() {
        let is = nodes.has(node);
        if reached.has(node) != is {
            return Ok(false);
        }
        if has_walk(alloc, net, from, Goal::Node(node), allowed)? != is {
            return Ok(false);
        }
    }
    Ok(true)
}

/// Whether walks from that spot through the allowed nodes lead exactly to these nodes, to an `end` line or not, and anywhere.
fn walks_are(
    alloc: Global,
    text: &str,
    from: &str,
    allowed: &str,
    nodes: &str,
    ends: bool,
) -> Result<bool, Fail> {
    let net = net_of(alloc, text)?;
    let from = spot_of(&net, from);
    let allowed = set_of(alloc, net.size(), allowed)?;
    let nodes = set_of(alloc, net.size(), nodes)?;
    if has_walk(alloc, &net, from, Goal::End, &allowed)? != ends {
        return Ok(false);
    }
    if !has_walk(alloc, &net, from, Goal::Any, &allowed)? {
        return Ok(false);
    }
    leads_to(alloc, &net, from, &allowed, &nodes)
}

/// Two lines one behind the other and an `end` line.
const ROW: &str = "L1; L1 L2; L2 L3; L3 end";

/// Which nodes of the row are `end` lines.
#[test]
fn ends_of_a_row(rt: HostRuntime) -> Result<(), Fail> {
    let net = net_of(rt.alloc(), ROW)?;
    let size = net.size();
    assert!(rt; size == 3);
    assert!(rt; !net.is_end(0) && !net.is_end(1) && net.is_end(2));
    Ok(())
}

/// The walks from the start of the row.
#[test]
fn walks_from_the_start(rt: HostRuntime) -> Result<(), Fail> {
    let alloc = rt.alloc();
    assert!(rt; walks_are(alloc, ROW, "start", "", "0", false)?);
    assert!(rt; walks_are(alloc, ROW, "start", "0", "0 1", false)?);
    assert!(rt; walks_are(alloc, ROW, "start", "1 2", "0", false)?);
    assert!(rt; walks_are(alloc, ROW, "start", "0 1", "0 1 2", true)?);
    Ok(())
}

/// The walks from the nodes of the row.
#[test]
fn walks_from_nodes(rt: HostRuntime) -> Result<(), Fail> {
    let alloc = rt.alloc();
    assert!(rt; walks_are(alloc, ROW, "0", "", "1", false)?);
    assert!(rt; walks_are(alloc, ROW, "0", "1", "1 2", true)?);
    assert!(rt; walks_are(alloc, ROW, "1", "", "2", true)?);
    assert!(rt; walks_are(alloc, ROW, "2", "0 1 2", "", false)?);
    Ok(())
}

/// A walk that comes round again.
#[test]
fn walks_of_a_ring(rt: HostRuntime) -> Result<(), Fail> {
    let alloc = rt.alloc();
    assert!(rt; walks_are(alloc, "L1; L1 L1", "start", "", "0", false)?);
    assert!(rt; walks_are(alloc, "L1; L1 L1", "0", "", "0", false)?);
    Ok(())
}

/// Whether the numbers are these.
fn are_numbers(numbers: &[u32], text: &str) -> bool {
    let mut words = text.split_whitespace();
    for number in numbers {
        let word = words.next().unwrap_or("");
        if word.parse::<u32>().ok() != Some(*number) {
            return false;
        }
    }
    words.next().is_none()
}

/// Whether the way from there to the goal through the allowed nodes has these nodes; `none` where there is none.
fn way_is(
    alloc: Global,
    text: &str,
    from: &str,
    to: Goal,
    allowed: &str,
    nodes: &str,
) -> Result<bool, Fail> {
    let net = net_of(alloc, text)?;
    let from = spot_of(&net, from);
    let allowed = set_of(alloc, net.size(), allowed)?;
    match way_through(alloc, &net, from, to, &allowed)? {
        Some(way) => Ok(are_numbers(way.as_slice(), nodes)),
        None => Ok(nodes == "none"),
    }
}

/// Ways pass allowed nodes alone, and come round to where they begin.
#[test]
fn ways_through_allowed_nodes(rt: HostRuntime) -> Result<(), Fail> {
    let alloc = rt.alloc();
    assert!(rt; way_is(alloc, ROW, "start", Goal::End, "0 1", "0 1 2")?);
    assert!(rt; way_is(alloc, ROW, "start", Goal::End, "0", "none")?);
    assert!(rt; way_is(alloc, ROW, "0", Goal::Node(2), "1", "1 2")?);
    assert!(rt; way_is(alloc, ROW, "2", Goal::Any, "0 1 2", "none")?);
    assert!(rt; way_is(alloc, "L1; L1 L2; L2 L1", "0", Goal::Node(0), "1", "1 0")?);
    Ok(())
}

/// Whether these nodes are endless, and the first of them is told as such.
fn are_endless(alloc: Global, text: &str, nodes: &str) -> Result<bool, Fail> {
    let net = net_of(alloc, text)?;
    let first = nodes.split_whitespace().next().unwrap_or("");
    if endless(alloc, &net)? != first.parse::<u32>().ok() {
        return Ok(false);
    }
    let wanted = set_of(alloc, net.size(), nodes)?;
    let found = endless_nodes(alloc, &net)?;
    for node in 0..net.size() {
        if found.has(node) != wanted.has(node) {
            return Ok(false);
        }
    }
    Ok(true)
}

/// Nodes that are reached, are no `end` lines and can't reach one.
#[test]
fn endless_graphs(rt: HostRuntime) -> Result<(), Fail> {
    let alloc = rt.alloc();
    assert!(rt; are_endless(alloc, "L1; L1 L1", "0")?);
    assert!(rt; are_endless(alloc, "L1; L1", "0")?);
    assert!(rt; are_endless(alloc, "L1; L1 L2 L3; L2 end; L3 L3", "2")?);
    assert!(rt; are_endless(alloc, "L1; L1 L4 L3 L2; L2 end; L3 L3; L4 L4", "2 3")?);
    assert!(rt; are_endless(alloc, "L3; L1 L1; L2 end; L3 L2 L4; L4 L5; L5 L4", "3 4")?);
    Ok(())
}

/// Graphs where none is endless: each node that is reached comes to an end.
#[test]
fn graphs_that_end(rt: HostRuntime) -> Result<(), Fail> {
    let alloc = rt.alloc();
    assert!(rt; are_endless(alloc, ROW, "")?);
    assert!(rt; are_endless(alloc, "L1; L1 end", "")?);
    assert!(rt; are_endless(alloc, "; L1 L1", "")?);
    assert!(rt; are_endless(alloc, "L1; L1 L2; L2 end; L3 L3", "")?);
    assert!(rt; are_endless(alloc, "L1; L1 L1 L2; L2 L1 L3; L3 end", "")?);
    Ok(())
}
