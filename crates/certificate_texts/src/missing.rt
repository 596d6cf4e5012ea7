//! What is missing of a certificate whose lines come one by one: for `reading`.

ghost use Rattle.std.specs.Prelude.{◌≡◌, ◌∷◌, [], ◌↔◌, true, false, IfOk, OnOk, IsTrue, MatchOption, Some, None};
ghost use Rattle.certificate_texts.specs.Levels.{certificates_first, levels_behind, stops_first};
ghost use Rattle.certificate_texts.specs.Texts.{line_of};
ghost use Rattle.certificate_texts.specs.declared.missing.Level.TheVariants as level;

use crate::CertificateLine;
use msc_base::NoMemory;
use std::alloc::Global;
use std::marker::Model;

/// What is missing at a level: one, and so many others behind it.
#[derive(Clone, Copy, Debug, PartialEq, Eq)]
pub enum Level {
    Certificates(u64),
    Stops(u64),
}

/// What is missing, the innermost level last. A contract sees it as a list, the innermost level first.
#[derive(Drop)]
pub struct Missing {
    levels: Vec<Level>,
}

impl Model for Missing {
    ghost use Rattle.std.specs.Prelude.{List, reverse};
    ghost use Rattle.certificate_texts.specs.declared.missing.Level.{Level};

    ghost Value = { List Level };

    ghost view = { λ m. reverse m.levels.items };
}

impl Missing {
    /// One certificate is missing.
    #[tactic(auto, using(crate::proofs::Stacks::pushed))]
    pub fn new(alloc: Global) -> Result<Missing, NoMemory>
        ensures { IfOk result (λ missing. missing ≡ level.Certificates 0 ∷ []) }
    {
        let mut levels = Vec::new(alloc);
        levels.push(Level::Certificates(0))?;
        Ok(Missing { levels })
    }

    /// Whether nothing is missing.
    pub fn is_over(&self) -> bool
        ensures { IsTrue result ↔ (self.now ≡ []) }
    {
        self.levels.is_empty()
    }

    /// Adds a level inside the others.
    #[tactic(auto, using(crate::proofs::Stacks::pushed))]
    fn push(&mut self, level: Level) -> Result<(), NoMemory>
        ensures { OnOk result (self.new ≡ level ∷ self.old) }
    {
        self.levels.push(level)?;
        Ok(())
    }

    /// So many certificates are missing first.
    fn add_certificates(&mut self, count: u64) -> Result<(), NoMemory>
        ensures { OnOk result (self.new ≡ certificates_first count self.old) }
    {
        if count == 0 {
            return Ok(());
        }
        self.push(Level::Certificates(count - 1))
    }

    /// So many stops are missing first.
    fn add_stops(&mut self, count: u64) -> Result<(), NoMemory>
        ensures { OnOk result (self.new ≡ stops_first count self.old) }
    {
        if count == 0 {
            return Ok(());
        }
        self.push(Level::Stops(count - 1))
    }

    /// The innermost level, which is taken away.
    #[tactic(auto, using(crate::proofs::Stacks::popped))]
    fn pop(&mut self) -> Option<Level>
        ensures { MatchOption result (self.old ≡ []) (λ level. self.old ≡ level ∷ self.new) }
    {
        self.levels.pop()
    }

    /// Takes the line of a certificate, behind which so many others are missing. False where the line is a stop's.
    fn take_part(&mut self, others: u64, line: &CertificateLine) -> Result<bool, NoMemory>
        ensures stands { IfOk result (λ stands. stands ≡ true → levels_behind (level.Certificates others ∷ self.old) (line_of line.now) ≡ Some self.new) }
        ensures wrong { IfOk result (λ stands. stands ≡ false → levels_behind (level.Certificates others ∷ self.old) (line_of line.now) ≡ None) }
    {
        self.add_certificates(others)?;
        match *line {
            CertificateLine::Empty => {}
            CertificateLine::Event(_) => {}
            CertificateLine::Parts(count) => self.add_certificates(count)?,
            CertificateLine::Branch(_) => self.add_certificates(1)?,
            CertificateLine::Inner => self.add_certificates(1)?,
            CertificateLine::Turns(count) => self.add_certificates(count)?,
            CertificateLine::Walk(count) => self.add_stops(count)?,
            CertificateLine::Node(_) => return Ok(false),
        }
        Ok(true)
    }

    /// Takes the line of a stop, behind which so many others are missing. False where the line is a certificate's.
    fn take_stop(&mut self, others: u64, line: &CertificateLine) -> Result<bool, NoMemory>
        ensures stands { IfOk result (λ stands. stands ≡ true → levels_behind (level.Stops others ∷ self.old) (line_of line.now) ≡ Some self.new) }
        ensures wrong { IfOk result (λ stands. stands ≡ false → levels_behind (level.Stops others ∷ self.old) (line_of line.now) ≡ None) }
    {
        self.add_stops(others)?;
        if let CertificateLine::Node(_) = *line {
            self.add_certificates(1)?;
            Ok(true)
        } else {
            Ok(false)
        }
    }

    /// Takes the next line, where it can stand there.
    pub fn take_line(&mut self, line: &CertificateLine) -> Result<bool, NoMemory>
        ensures stands { IfOk result (λ stands. stands ≡ true → levels_behind self.old (line_of line.now) ≡ Some self.new) }
        ensures wrong { IfOk result (λ stands. stands ≡ false → levels_behind self.old (line_of line.now) ≡ None) }
    {
        match self.pop() {
            None => Ok(false),
            Some(Level::Certificates(others)) => self.take_part(others, line),
            Some(Level::Stops(others)) => self.take_stop(others, line),
        }
    }
}
