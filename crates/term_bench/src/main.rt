//! Steps a set of residual terms through a log, or a walk through a ring of nodes, and prints what came of it: the program that
//! `bench/residuals.py`, `bench/depth.py` and `bench/walks.py` measure.
#![tactic(auto)]

#[cfg(test)]
mod alike;
mod charts;
mod fault;
mod logs;
mod ring;
mod statements;
mod steps;
mod towers;
mod work;

use crate::fault::Fault;
use crate::logs::Judged;
use crate::work::{Asked, asked_of, judge};
use std::alloc::Global;
use std::env;
use std::process::ExitCode;
use std::rt::Env;
use term_sets::{Pool, Residuals};

/// What the program's words ask for.
#[derive(Clone, Copy)]
enum Task {
    /// A log, by the plain store or by the other.
    Log { asked: Asked, is_plain: bool },
    /// A walk through a ring of so many lines, of so many events.
    Walk { size: u32, events: u32 },
}

/// The task that three words name: a work, its count, and `residuals` for the plain store; or `walk`, and how many lines and events.
fn task_of(kind: &str, count: &str, last: &str) -> Option<Task> {
    if kind == "walk" {
        let size = count.parse().ok()?;
        let events = last.parse().ok()?;
        return Some(Task::Walk { size, events });
    }
    let asked = asked_of(kind, count)?;
    let is_plain = last == "residuals";
    Some(Task::Log { asked, is_plain })
}

/// What the program's words ask for. The third may be missing.
fn asked<R: Env + AllocGlobal>(rt: &R) -> Option<Task> {
    let mut words = env::args(rt).ok()?.skip(1);
    let kind = words.next()?;
    let count = words.next()?;
    match words.next() {
        Some(last) => task_of(kind.as_str(), count.as_str(), last.as_str()),
        None => task_of(kind.as_str(), count.as_str(), ""),
    }
}

/// The verdict on a log, and the largest weight.
fn judged(alloc: Global, asked: Asked, is_plain: bool) -> Result<Judged, Fault> {
    if is_plain {
        judge::<Residuals>(alloc, asked)
    } else {
        judge::<Pool>(alloc, asked)
    }
}

/// What came of the task.
fn told(alloc: Global, task: Task) -> Result<String, Fault> {
    match task {
        Task::Log { asked, is_plain } => {
            let Judged { verdict, largest } = judged(alloc, asked, is_plain)?;
            Ok(format!(in alloc; "{verdict:?}, largest weight {largest}")?)
        }
        Task::Walk { size, events } => {
            let taken = steps::taken(alloc, size, events)?;
            Ok(format!(in alloc; "{taken} events taken")?)
        }
    }
}

fn main(rt: HostRuntime) -> ExitCode {
    let Some(task) = asked(&rt) else {
        return ExitCode::from(2);
    };
    let text = match told(rt.alloc(), task) {
        Ok(text) => text,
        Err(Fault::NoMemory) => return ExitCode::from(9),
        Err(Fault::Chart) => return ExitCode::from(1),
    };
    match println!(rt; "{text}") {
        Ok(()) => ExitCode::SUCCESS,
        Err(_) => ExitCode::from(8),
    }
}
