//! The lexer of a text in pieces, and of a whole text at once (documents in msc_cmd, lines of event_log).

ghost use Rattle.std.specs.Prelude.{◌≡◌, ◌+◌, ◌<◌, ◌≤◌, ◌^◌, List, fold, length, IfOk, IfErr};
ghost use Rattle.std.specs.Bool.{OnTrue};
ghost use Rattle.msc_tokens.specs.declared.fault.LexFault.{LexFault};
ghost use Rattle.msc_tokens.specs.declared.token.Token.{Token};
ghost use Rattle.msc_tokens.specs.Faults.{IfNamed};
ghost use Rattle.msc_tokens.specs.Machine.{step};
ghost use Rattle.msc_tokens.specs.Places.{first_place, past};
ghost use Rattle.msc_tokens.specs.Spelling.{Spells, HasLexFault};
ghost use Rattle.msc_tokens.specs.Views.{view};

use crate::machine::Machine;
use crate::{LexFault, TokenList};
use msc_base::NoMemory;
use std::alloc::Global;
use std::marker::Model;

/// A text that comes in pieces. After a refusal it answers the same to all calls.
#[derive(Drop)]
pub struct Lexer {
    machine: Machine,
    count: u64,
    spent: bool,
}

impl Model for Lexer {
    ghost use Rattle.std.specs.Prelude.{Option, Some, None, ◌≤◌, if◌then◌else◌};
    ghost use Rattle.msc_tokens.specs.Lexing.{Lexing};
    ghost use Rattle.msc_tokens.specs.Views.{view as machine_view};

    ghost Value = { Lexing };

    ghost view = { λ l. record { count = l.count; state = if l.spent then None else Some (machine_view l.machine) } };

    ghost invariant = { λ l. l.machine.place.byte ≤ l.count };
}

/// Takes all bytes of a piece, or says that memory ran out.
pub fn take_all(machine: &mut Machine, piece: &[u8]) -> bool
    requires { machine.old.place.byte + length piece.now < 2 ^ 63 }
    ensures taken { OnTrue result (view machine.new ≡ fold step (view machine.old) piece.now) }
    ensures bound { machine.new.place.byte ≤ machine.old.place.byte + length piece.now }
{
    let mut rest = piece;
    while !rest.is_empty() {
        match machine.take(rest) {
            Ok(behind) => rest = behind,
            Err(NoMemory) => return false,
        }
    }
    true
}

impl Lexer {
    ghost use Rattle.std.specs.Prelude.{◌++◌, ℕ, [], Some, None, Ok, Err, MatchResult};
    ghost use Rattle.msc_tokens.specs.Lexing.{Fed, refusal_of, ended_of};
    ghost use Rattle.msc_tokens.specs.Spelling.{IsSettled};

    /// The lexer before the first piece.
    pub fn new(alloc: Global) -> Result<Lexer, NoMemory>
        ensures { IfOk result (λ lexer. Fed [] lexer) }
    {
        Ok(Lexer {
            machine: Machine::new(alloc),
            count: 0,
            spent: false,
        })
    }

    /// What it answers from now on to all calls, after a refusal.
    fn refusal(&self) -> Option<LexFault>
        ensures { result ≡ refusal_of self.now }
    {
        if self.spent {
            Some(LexFault::NoMemory)
        } else {
            self.machine.settled()
        }
    }

    /// Takes the next piece, unless it refused one before.
    fn take(&mut self, piece: &[u8]) -> Result<(), LexFault>
        requires { self.old.count + length piece.now < 2 ^ 63 }
        ensures count { self.new.count ≡ self.old.count + length piece.now }
        ensures fed { (bytes : List ℕ) → Fed bytes self.old → Fed (bytes ++ piece.now) self.new }
        ensures told { MatchResult result (λ _. refusal_of self.new ≡ None) (λ fault. refusal_of self.new ≡ Some fault) }
        ensures again { (fault : LexFault) → refusal_of self.old ≡ Some fault → result ≡ Err fault }
    {
        let refusal = self.refusal();
        self.count += piece.len() as u64;
        if let Some(fault) = refusal {
            return Err(fault);
        }
        if !take_all(&mut self.machine, piece) {
            self.spent = true;
            return Err(LexFault::NoMemory);
        }
        match self.machine.settled() {
            Some(fault) => Err(fault),
            None => Ok(()),
        }
    }

    /// Ends the text.
    fn end(self) -> Result<TokenList, LexFault>
        ensures ok { IfOk result (λ list. ended_of self ≡ Ok list) }
        ensures err { IfErr result (λ fault. IfNamed fault (ended_of self ≡ Err fault)) }
        ensures again { (fault : LexFault) → refusal_of self ≡ Some fault → result ≡ Err fault }
    {
        if self.spent {
            return Err(LexFault::NoMemory);
        }
        self.machine.end()
    }

    /// Takes the next piece of the text.
    ///
    /// It refuses as soon as no further bytes can take the fault away, and then for good.
    pub fn feed(&mut self, piece: &[u8]) -> Result<(), LexFault>
        requires { self.old.count + length piece.now < 2 ^ 63 }
        ensures count { self.new.count ≡ self.old.count + length piece.now }
        ensures fed { (bytes : List ℕ) → Fed bytes self.old → Fed (bytes ++ piece.now) self.new }
        ensures told { MatchResult result (λ _. refusal_of self.new ≡ None) (λ fault. refusal_of self.new ≡ Some fault) }
        ensures again { (fault : LexFault) → refusal_of self.old ≡ Some fault → result ≡ Err fault }
        ensures fault { (bytes : List ℕ) → Fed bytes self.old
            → IfErr result (λ fault. IfNamed fault (IsSettled (bytes ++ piece.now) fault)) }
        ensures only_fault { (bytes : List ℕ) → Fed bytes self.old
            → IfErr result (λ fault. IfNamed fault ((others : LexFault) → IsSettled (bytes ++ piece.now) others → others ≡ fault)) }
        ensures open { (bytes : List ℕ) → Fed bytes self.old
            → IfOk result (λ _. (fault : LexFault) → IsSettled (bytes ++ piece.now) fault → ⊥) }
    {
        self.take(piece)
    }

    /// Ends the text and gives its tokens, or its first fault.
    pub fn finish(self) -> Result<TokenList, LexFault>
        ensures again { (fault : LexFault) → refusal_of self ≡ Some fault → result ≡ Err fault }
        ensures ok { (bytes : List ℕ) → Fed bytes self → IfOk result (λ list. Spells bytes list.tokens) }
        ensures end_place { (bytes : List ℕ) → Fed bytes self → IfOk result (λ list. list.end_place ≡ past first_place bytes) }
        ensures only { (bytes : List ℕ) → Fed bytes self
            → IfOk result (λ list. (others : List Token) → Spells bytes others → others ≡ list.tokens) }
        ensures faultless { (bytes : List ℕ) → Fed bytes self → IfOk result (λ _. (fault : LexFault) → HasLexFault bytes fault → ⊥) }
        ensures fault { (bytes : List ℕ) → Fed bytes self → IfErr result (λ fault. IfNamed fault (HasLexFault bytes fault)) }
        ensures only_fault { (bytes : List ℕ) → Fed bytes self
            → IfErr result (λ fault. IfNamed fault ((others : LexFault) → HasLexFault bytes others → others ≡ fault)) }
        ensures none { (bytes : List ℕ) → Fed bytes self
            → IfErr result (λ fault. IfNamed fault ((others : List Token) → Spells bytes others → ⊥)) }
    {
        self.end()
    }
}

/// The tokens of a whole text, or its first fault.
pub fn lex_all(alloc: Global, bytes: &[u8]) -> Result<TokenList, LexFault>
    requires { length bytes.now < 2 ^ 63 }
    ensures ok { IfOk result (λ list. Spells bytes.now list.tokens) }
    ensures end_place { IfOk result (λ list. list.end_place ≡ past first_place bytes.now) }
    ensures only { IfOk result (λ list. (others : List Token) → Spells bytes.now others → others ≡ list.tokens) }
    ensures faultless { IfOk result (λ _. (fault : LexFault) → HasLexFault bytes.now fault → ⊥) }
    ensures fault { IfErr result (λ fault. IfNamed fault (HasLexFault bytes.now fault)) }
    ensures only_fault { IfErr result (λ fault. IfNamed fault ((others : LexFault) → HasLexFault bytes.now others → others ≡ fault)) }
    ensures none { IfErr result (λ fault. IfNamed fault ((others : List Token) → Spells bytes.now others → ⊥)) }
{
    let mut lexer = Lexer::new(alloc)?;
    if let Err(fault) = lexer.feed(bytes) {
        return Err(fault);
    }
    lexer.finish()
}
