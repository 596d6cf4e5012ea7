//! Texts of verdicts and of lists of instances, plain and as JSON.
use judge_report::{instance_list_text, verdict_text};
use msc_base::{Items, Name, Place, Verdict};
use msc_tree::{Decl, DeclList};
use std::alloc::Global;
use std::test::Fail;

/// A verdict of each kind.
#[test]
fn verdicts(rt: HostRuntime) -> Result<(), Fail> {
    let alloc = rt.alloc();
    let rows: [(Verdict, bool, &str); 5] = [
        (
            Verdict::Conforms { events: 2 },
            false,
            "conforms, events 2\n",
        ),
        (
            Verdict::Fails { event: 3, line: 5 },
            true,
            "{\"event\":3,\"line\":5,\"verdict\":\"fails\"}\n",
        ),
        (
            Verdict::Early { events: 10 },
            true,
            "{\"events\":10,\"verdict\":\"stops early\"}\n",
        ),
        (
            Verdict::TooLarge { event: 0 },
            false,
            "too large at event 0\n",
        ),
        (
            Verdict::TooLarge { event: 7 },
            true,
            "{\"event\":7,\"verdict\":\"too large\"}\n",
        ),
    ];
    for (verdict, json, want) in rows {
        let text = verdict_text(alloc, &verdict, json)?;
        assert_eq!(rt; text.bytes(), want.as_bytes());
    }
    Ok(())
}

/// The instance of this name, refined by this chart or by none.
fn instance(alloc: Global, name: &[u8], refined: Option<Name>) -> Result<Decl, Fail> {
    Ok(Decl {
        name: Name::from_bytes(alloc, name)?,
        kind: Items::new(alloc),
        refined,
        place: Place {
            byte: 0,
            line: 1,
            column: 1,
        },
    })
}

/// Instances, one of which a chart refines: as JSON its name alone is told.
#[test]
fn instances(rt: HostRuntime) -> Result<(), Fail> {
    let alloc = rt.alloc();
    let mut listed: DeclList = Items::new(alloc);
    let chart = Name::from_bytes(alloc, b"D")?;
    listed.push(instance(alloc, b"i", Some(chart))?)?;
    listed.push(instance(alloc, b"j.2", None)?)?;
    let text = instance_list_text(alloc, &listed, false)?;
    assert_eq!(rt; text.bytes(), "i decomposed as D\nj.2\n".as_bytes());
    let text = instance_list_text(alloc, &listed, true)?;
    assert_eq!(rt;
        text.bytes(),
        "{\"instances\":[\"i\",\"j.2\"]}\n".as_bytes()
    );
    Ok(())
}
