//! Verdicts of a track over sets of residual terms.
ghost use Rattle.std.specs.Prelude.{◌≡◌, ◌≤◌, ◌<◌, [], length, IfOk};
ghost use Rattle.msc_base.specs.declared.limits.TheConstants.Limits.{BUDGET_MOST};
ghost use Rattle.trace_judge.specs.Tracks.{IfHeld};
ghost use Rattle.command_tests.specs.Samples.{IsSample};

use chart_term::{Term, TermList, par};
use msc_base::{Far, Kind, Label, Name, NoMemory, Text, Verdict};
use std::alloc::Global;
use std::test::Fail;
use term_sets::Residuals;
use term_tables::Nets;
use trace_judge::{Store, Track};

/// An action of instance i.
fn action(alloc: Global, text: &str) -> Result<Label, Fail> {
    Ok(Label {
        at: Name::from_bytes(alloc, b"i")?,
        kind: Kind::Action,
        text: Text::from_bytes(alloc, text.as_bytes())?,
        far: Far::Nobody,
    })
}

/// Tables of the actions x and y.
#[tactic(auto, using(crate::proofs::SoundTerms::samples))]
fn tables(alloc: Global) -> Result<Nets, Fail>
    ensures nets { IfOk result (λ nets. nets.tables ≡ []) }
    ensures labels { IfOk result (λ nets. length nets.labels ≡ 2) }
{
    let mut nets = Nets::new(alloc);
    nets.add_label(action(alloc, "'x'")?)?;
    let second = action(alloc, "'y'")?;
    match nets.label(&second) {
        Some(_) => Err(Fail::from("two labels of one number")),
        None => {
            nets.add_label(second)?;
            Ok(nets)
        }
    }
}

/// An event of that number, with the action x.
fn event(alloc: Global, number: u32) -> Result<Term, NoMemory>
    ensures { IfOk result (λ term. IsSample term) }
{
    let term = Term::event(alloc, number, 0, None, 0)?;
    Ok(term)
}

/// So many actions x side by side, as in a coregion.
#[tactic(auto, using(crate::proofs::SoundTerms::samples))]
fn coregion(alloc: Global, count: u32) -> Result<Term, NoMemory>
    ensures { IfOk result (λ term. IsSample term) }
{
    let mut parts = TermList::new(alloc);
    for number in 0..count {
        parts.push(event(alloc, number)?)?;
    }
    let term = par(alloc, parts)?;
    Ok(term)
}

/// Lets the track take so many events with the label, in the lines from 1.
fn feed<S: Store + Drop>(
    track: &mut Track<S>,
    nets: &Nets,
    label: &Label,
    count: u64,
) -> Result<(), NoMemory>
    requires serves { IfHeld (λ set. S.serves set nets.now) track.old }
    requires first { track.old.events ≡ 0 }
    requires few { count ≤ 1000 }
    ensures { IfHeld (λ set. S.serves set nets.now) track.new }
{
    for index in 0..count {
        let number = nets.label(label);
        track.take(nets, number, index + 1)?;
    }
    Ok(())
}

/// The verdict on so many of these actions, and the largest weight.
fn judged<S: Store + Drop>(
    alloc: Global,
    term: Term,
    budget: u64,
    text: &str,
    count: u64,
) -> Result<(Verdict, u64), Fail>
    requires sample { IsSample term }
    requires least { 1 ≤ budget }
    requires most { budget ≤ BUDGET_MOST }
    requires few { count ≤ 1000 }
{
    let nets = tables(alloc)?;
    let label = action(alloc, text)?;
    let mut track = Track::<S>::new(alloc, &nets, term, budget)?;
    feed(&mut track, &nets, &label, count)?;
    let verdict = track.verdict(alloc, &nets)?;
    Ok((verdict, track.largest()))
}

/// A coregion of n equal actions conforms to n of them. After k of them its set has C(n, k) terms of n - k + 1 nodes.
#[test]
fn equal_actions_conform(rt: HostRuntime) -> Result<(), Fail> {
    let alloc = rt.alloc();
    let (three, most) = judged::<Residuals>(alloc, coregion(alloc, 3)?, 1_000, "'x'", 3)?;
    assert!(rt; three == Verdict::Conforms { events: 3 } && most == 9);
    let (ten, largest) = judged::<Residuals>(alloc, coregion(alloc, 10)?, 100_000, "'x'", 10)?;
    assert!(rt; ten == Verdict::Conforms { events: 10 } && largest == 1_512);
    Ok(())
}

/// Its set weighs 11, 100, 405, 960 and then 1,470 with ten actions, which is above 1,000.
#[test]
fn equal_actions_pass_a_budget(rt: HostRuntime) -> Result<(), Fail> {
    let alloc = rt.alloc();
    let (verdict, largest) = judged::<Residuals>(alloc, coregion(alloc, 10)?, 1_000, "'x'", 10)?;
    assert!(rt; verdict == Verdict::TooLarge { event: 4 } && largest == 960);
    let (large, none) = judged::<Residuals>(alloc, coregion(alloc, 10)?, 10, "'x'", 10)?;
    assert!(rt; large == Verdict::TooLarge { event: 0 } && none == 0);
    Ok(())
}

/// Up to 64 events side by side are held as words, and more of them term by term. Of either n actions leave n terms of n nodes after
/// the first.
#[test]
fn words_and_terms_weigh_alike(rt: HostRuntime) -> Result<(), Fail> {
    let alloc = rt.alloc();
    let (words, most) = judged::<Residuals>(alloc, coregion(alloc, 64)?, 4_096, "'x'", 1)?;
    assert!(rt; words == Verdict::Early { events: 1 } && most == 4_096);
    let (heavy, largest) = judged::<Residuals>(alloc, coregion(alloc, 64)?, 4_095, "'x'", 1)?;
    assert!(rt; heavy == Verdict::TooLarge { event: 1 } && largest == 65);
    let (terms, more) = judged::<Residuals>(alloc, coregion(alloc, 65)?, 4_225, "'x'", 1)?;
    assert!(rt; terms == Verdict::Early { events: 1 } && more == 4_225);
    let (above, one) = judged::<Residuals>(alloc, coregion(alloc, 65)?, 4_224, "'x'", 1)?;
    assert!(rt; above == Verdict::TooLarge { event: 1 } && one == 66);
    Ok(())
}

/// Two of three actions stop early, and a fourth fails, as does an action that the chart or its tables lack.
#[test]
fn too_few_stop_early_and_too_many_fail(rt: HostRuntime) -> Result<(), Fail> {
    let alloc = rt.alloc();
    let (early, _) = judged::<Residuals>(alloc, coregion(alloc, 3)?, 1_000, "'x'", 2)?;
    assert!(rt; early == Verdict::Early { events: 2 });
    let (fails, _) = judged::<Residuals>(alloc, coregion(alloc, 3)?, 1_000, "'x'", 5)?;
    assert!(rt; fails == Verdict::Fails { event: 4, line: 4 });
    let (other, _) = judged::<Residuals>(alloc, coregion(alloc, 3)?, 1_000, "'y'", 2)?;
    assert!(rt; other == Verdict::Fails { event: 1, line: 1 });
    let (lacks, _) = judged::<Residuals>(alloc, coregion(alloc, 3)?, 1_000, "'z'", 2)?;
    assert!(rt; lacks == Verdict::Fails { event: 1, line: 1 });
    Ok(())
}
