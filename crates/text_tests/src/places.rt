//! Places that are in no print.
use msc_base::{LabelRefs, Place};
use msc_events::joins;
use msc_expression::graph;
use msc_tokens::lex_all;
use msc_tree::{Join, JoinEnd, NodeKind};
use std::alloc::Global;
use std::test::Fail;

/// In which columns the labels of the list stand.
fn columns(alloc: Global, labels: &LabelRefs) -> Result<Vec<u64>, Fail> {
    let mut columns = Vec::new(alloc);
    for label in labels.as_slice() {
        columns.push(label.place.column)?;
    }
    Ok(columns)
}

/// The places of a graph's labels.
#[test]
fn labels_of_a_graph(rt: HostRuntime) -> Result<(), Fail> {
    let alloc = rt.alloc();
    let list = lex_all(alloc, b"expr a alt bb; bb: (X) seq (a alt bb);\n  a: end;")?;
    let (graph, _rest) = graph(alloc, list.as_slice(), 64)?;
    assert_eq!(rt;
        columns(alloc, &graph.starts)?.as_slice(),
        [6, 12].as_slice()
    );
    assert_eq!(rt; graph.lines.len(), 2);
    for line in &graph.lines {
        let columns = columns(alloc, &line.next)?;
        match &line.node {
            NodeKind::Refer(_) => {
                assert_eq!(rt; line.place.column, 16);
                assert_eq!(rt; columns.as_slice(), [29, 35].as_slice());
            }
            _ => {
                assert_eq!(rt; line.place.line, 2);
                assert_eq!(rt; line.place.column, 3);
                assert_eq!(rt; columns.len(), 0);
            }
        }
    }
    Ok(())
}

/// Whether the join leads to the gate `l` of the reference `R`.
fn is_to_reference(join: &Join) -> bool {
    match &join.to {
        JoinEnd::Reference(name, gate) => {
            name.bytes() == "R".as_bytes() && gate.bytes() == "l".as_bytes()
        }
        JoinEnd::Env(_) => false,
    }
}

/// How many joins the text has, and where the last stands, which leads to a reference.
fn last_join(alloc: Global, text: &str) -> Option<(usize, Place)> {
    let list = lex_all(alloc, text.as_bytes()).ok()?;
    let (joins, _) = joins(alloc, list.as_slice()).ok()?;
    let last = joins.as_slice().last()?;
    if !is_to_reference(last) {
        return None;
    }
    Some((joins.len(), last.place))
}

/// The place of a join is that of its gate.
#[test]
fn joined_gates(rt: HostRuntime) -> Result<(), Fail> {
    let text = "via g to env via h, k to reference R via l;";
    let place = Place {
        byte: 20,
        line: 1,
        column: 21,
    };
    assert_eq!(rt; last_join(rt.alloc(), text), Some((2, place)));
    Ok(())
}
