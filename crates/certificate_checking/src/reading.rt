//! The pattern that a certificate shows, as marks, by one pass over its lines.

ghost use Rattle.std.specs.Prelude.{◌≡◌, ◌≤◌, ◌<◌, ◌++◌, ◌∷◌, [], List, drop, length, slice_get, true, Some, IfNone, IfOk, IfSome, OnOk, MatchOption};
ghost use Rattle.std.specs.Option.{option_to_list};
ghost use Rattle.chart_term.specs.Tables.{Tables, terms_over};
ghost use Rattle.chart_term.specs.Terms.{Tree};
ghost use Rattle.empty_terms.specs.Outlines.{IsOutline};
ghost use Rattle.certificate_texts.specs.Texts.{line_of, lines_of};
ghost use Rattle.pattern_marks.specs.Marks.{Sign, signs_of};
ghost use Rattle.certificate_checking.specs.Showing.{IsShown};
ghost use Rattle.certificate_checking.specs.Tasks.{GoesOn, IsStepBy, IsSure, wants_line};

use crate::step::{Step, Stops, Task, quiet_step, stop_step, term_step, wants_line};
use certificate_texts::CertificateLine;
use empty_terms::Outline;
use msc_base::NoMemory;
use pattern_marks::Mark;
use std::alloc::Global;
use term_tables::Nets;

/// How far the lines are read.
#[derive(Drop)]
struct Reading {
    /// What is to be read yet, the next of it last.
    tasks: Vec<Task>,
    /// What was told.
    marks: Vec<Mark>,
    /// How many lines were read.
    read: usize,
}

impl Reading {
    /// The task that comes next, if there is one.
    fn next_task(&mut self) -> Option<Task>
        ensures some { IfSome result (λ task. self.old.tasks.items ≡ self.new.tasks.items ++ task ∷ []) }
        ensures none { IfNone result (self.old.tasks.items ≡ []) }
        ensures marks { self.new.marks.items ≡ self.old.marks.items }
        ensures read { self.new.read ≡ self.old.read }
    {
        self.tasks.pop()
    }

    /// Goes on as the step says.
    fn go(&mut self, step: Step) -> Result<(), NoMemory>
        ensures tasks { OnOk result (self.new.tasks.items ≡ self.old.tasks.items ++ (option_to_list step.then ++ option_to_list step.first)) }
        ensures marks { OnOk result (self.new.marks.items ≡ self.old.marks.items ++ option_to_list step.mark) }
        ensures read { OnOk result (self.new.read ≡ self.old.read) }
    {
        if let Some(mark) = step.mark {
            self.marks.push(mark)?;
        }
        if let Some(task) = step.then {
            self.tasks.push(task)?;
        }
        if let Some(task) = step.first {
            self.tasks.push(task)?;
        }
        Ok(())
    }

    /// What the task becomes, by the next line where it wants one.
    fn step(
        &mut self,
        nets: &Nets,
        outline: &Outline,
        answers: &[bool],
        lines: &[CertificateLine],
        task: Task,
    ) -> Option<Step>
        requires sure { IsSure nets.now.tables outline.now answers.now }
        requires read { self.old.read ≤ length lines.now }
        ensures tasks { self.new.tasks.items ≡ self.old.tasks.items }
        ensures marks { self.new.marks.items ≡ self.old.marks.items }
        ensures read { self.new.read ≤ length lines.now }
        ensures on { GoesOn (terms_over nets.now.tables) outline.now.terms task (drop self.old.read (lines_of lines.now)) (drop self.new.read (lines_of lines.now)) result }
    {
        if !wants_line(task) {
            return quiet_step(outline, task);
        }
        if self.read >= lines.len() {
            return None;
        }
        let line = line_at(lines, self.read);
        self.read += 1;
        step_by(nets, outline, answers, task, line)
    }
}

/// The line of that index.
fn line_at(lines: &[CertificateLine], index: usize) -> CertificateLine
    requires { index < length lines.now }
    ensures { slice_get lines.now index ≡ Some result }
{
    lines[index]
}

/// What a task becomes that wants a line, by this line.
fn step_by(
    nets: &Nets,
    outline: &Outline,
    answers: &[bool],
    task: Task,
    line: CertificateLine,
) -> Option<Step>
    requires sure { IsSure nets.now.tables outline.now answers.now }
    requires wants { wants_line task ≡ true }
    ensures { IsStepBy (terms_over nets.now.tables) outline.now.terms task (line_of line) result }
{
    match task {
        Task::Term(number) => term_step(outline, answers, number, line),
        Task::Stops { net, from, count } => {
            stop_step(nets, outline, Stops { net, from, count }, line)
        }
        _ => None,
    }
}

/// The marks that were told, if all lines were read.
fn whole_marks(reading: Reading, lines: &[CertificateLine]) -> Option<Vec<Mark>>
    ensures some { IfSome result (λ marks. (length lines.now ≤ reading.read) × (marks.items ≡ reading.marks.items)) }
    ensures none { IfNone result (reading.read < length lines.now) }
{
    let Reading { marks, read, .. } = reading;
    if read < lines.len() {
        return None;
    }
    Some(marks)
}

/// The marks of the pattern that the lines show of the term of the outline, if they show one.
pub(crate) fn marks_of(
    alloc: Global,
    nets: &Nets,
    outline: &Outline,
    answers: &[bool],
    lines: &[CertificateLine],
) -> Result<Option<Vec<Mark>>, NoMemory>
    requires { IsSure nets.now.tables outline.now answers.now }
    ensures { IfOk result (λ found. (x : Tree) → IsOutline nets.now.tables x outline.now → MatchOption found
        ((ms : List Sign) → IsShown (terms_over nets.now.tables) x (lines_of lines.now) ms → ⊥)
        (λ marks. IsShown (terms_over nets.now.tables) x (lines_of lines.now) (signs_of outline.now.terms marks.items))) }
{
    let mut reading = Reading {
        tasks: Vec::new(alloc),
        marks: Vec::new(alloc),
        read: 0,
    };
    reading.tasks.push(Task::Term(0))?;
    for _ in 0..u64::MAX {
        let Some(task) = reading.next_task() else {
            let marks = whole_marks(reading, lines);
            return Ok(marks);
        };
        match reading.step(nets, outline, answers, lines, task) {
            Some(step) => reading.go(step)?,
            None => return Ok(None),
        }
    }
    Err(NoMemory)
}
