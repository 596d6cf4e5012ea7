//! The tokens of a text with the place of its end: what lexers answer, and documents and log lines are read from.

ghost use Rattle.std.specs.Prelude.{◌≡◌, ◌<◌, ◌++◌, ◌∷◌, [], length, slice_get, OnOk, OnErr, Some};
ghost use Rattle.msc_tokens.specs.Places.{first_place};

use crate::Token;
use msc_base::{Items, NoMemory, Place};
use std::alloc::Global;

/// The tokens of a text, in order, and the place where the text ends.
#[derive(Drop)]
pub struct TokenList {
    tokens: Items<Token>,
    end_place: Place,
}

impl TokenList {
    /// The list of no tokens, of a text that ends at its first place. It takes no memory.
    pub fn new(alloc: Global) -> TokenList
        ensures tokens { result.tokens ≡ [] }
        ensures end_place { result.end_place ≡ first_place }
    {
        let end_place = Place {
            byte: 0,
            line: 1,
            column: 1,
        };
        TokenList {
            tokens: Items::new(alloc),
            end_place,
        }
    }

    /// The list of these tokens, of a text that ends at this place. It takes no memory.
    pub(crate) fn from_items(tokens: Items<Token>, end_place: Place) -> TokenList
        ensures tokens { result.tokens ≡ tokens }
        ensures end_place { result.end_place ≡ end_place }
    {
        TokenList { tokens, end_place }
    }

    /// Appends the token. After want of memory the list is as it was, and the token is dropped.
    pub fn push(&mut self, token: Token) -> Result<(), NoMemory>
        ensures ok { OnOk result (self.new.tokens ≡ self.old.tokens ++ token ∷ []) }
        ensures err { OnErr result (self.new.tokens ≡ self.old.tokens) }
        ensures end_place { self.new.end_place ≡ self.old.end_place }
    {
        self.tokens.push(token)
    }

    /// How many tokens the list has.
    pub fn len(&self) -> usize
        ensures { result ≡ length self.now.tokens }
    {
        self.tokens.len()
    }

    /// The token at that index, from 0.
    pub fn at(&self, index: usize) -> &Token
        requires { index < length self.now.tokens }
        ensures { slice_get self.now.tokens index ≡ Some result.now }
    {
        self.tokens.at(index)
    }

    /// The tokens as a slice.
    pub fn as_slice(&self) -> &[Token]
        ensures { result.now ≡ self.now.tokens }
    {
        self.tokens.as_slice()
    }

    /// Where the text ends.
    pub fn end_place(&self) -> Place
        ensures { result ≡ self.now.end_place }
    {
        self.end_place
    }
}
