//! The lexer of a text whose tokens are taken out part by part: for msc_document.

ghost use Rattle.std.specs.Prelude.{◌≡◌, ◌<◌, ◌≤◌, ◌+◌, ◌^◌, ◌++◌, ℕ, List, [], length, IfOk, OnOk};
ghost use Rattle.msc_tokens.specs.declared.token.Token.{Token};
ghost use Rattle.msc_tokens.specs.Spelling.{Spells};
ghost use Rattle.msc_tokens.specs.Parts.{Cuts};

use crate::lexer::take_all;
use crate::machine::Machine;
use crate::{LexFault, Token, TokenList};
use msc_base::{Items, NoMemory};
use std::alloc::Global;
use std::marker::Model;

/// A text that comes in pieces, and whose tokens are taken out part by part.
#[derive(Drop)]
pub struct PartLexer {
    machine: Machine,
}

impl Model for PartLexer {
    ghost use Rattle.msc_tokens.specs.Machine.{State};
    ghost use Rattle.msc_tokens.specs.Views.{view as machine_view};

    ghost Value = { State };

    ghost view = { λ l. machine_view l.machine };
}

impl PartLexer {
    /// The lexer before the first piece. It takes no memory.
    pub fn new(alloc: Global) -> PartLexer
        ensures cuts { Cuts [] [] result }
        ensures count { result.place.byte ≡ 0 }
    {
        PartLexer {
            machine: Machine::new(alloc),
        }
    }

    /// Takes the next piece. After want of memory it is of no more use.
    pub fn feed(&mut self, piece: &[u8]) -> Result<(), NoMemory>
        requires { self.old.place.byte + length piece.now < 2 ^ 63 }
        ensures cuts { (bytes : List ℕ) (taken : List Token) → Cuts bytes taken self.old → OnOk result (Cuts (bytes ++ piece.now) taken self.new) }
        ensures count { self.new.place.byte ≤ self.old.place.byte + length piece.now }
    {
        if take_all(&mut self.machine, piece) {
            Ok(())
        } else {
            Err(NoMemory)
        }
    }

    /// Takes out the tokens that are whole.
    pub fn take_tokens(&mut self) -> Items<Token>
        ensures cuts { (bytes : List ℕ) (taken : List Token) → Cuts bytes taken self.old → Cuts bytes (taken ++ result) self.new }
        ensures count { self.new.place.byte ≡ self.old.place.byte }
    {
        self.machine.take_tokens()
    }

    /// Ends the text, and gives the tokens that are left.
    pub fn finish(self) -> Result<TokenList, LexFault>
        ensures { (bytes : List ℕ) (taken : List Token) → Cuts bytes taken self → IfOk result (λ list. Spells bytes (taken ++ list.tokens)) }
    {
        self.machine.end()
    }
}
