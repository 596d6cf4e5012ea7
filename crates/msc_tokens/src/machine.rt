//! One step of the lexer for each byte, with the token that is open and the tokens so far: for `lexer` and `part_lexer`.

ghost use Rattle.std.specs.Prelude.{◌≤◌, ◌+◌};

use crate::byte_class::{ByteClass, class_of, has_letter, is_inside, makes_pair};
use crate::mode::Mode;
use crate::place::after;
use crate::whole::whole_token;
use crate::{LexFault, Token, TokenKind, TokenList};
use msc_base::{Items, Limits, NoMemory, Place, Text, is_word_byte};
use std::alloc::Global;
use std::mem;

/// Where a text stands between two bytes.
#[derive(Drop)]
pub struct Machine {
    alloc: Global,
    mode: Mode,
    start: Place,
    /// What is open so far. Its memory serves one token after another.
    text: Vec<u8>,
    place: Place,
    tokens: Items<Token>,
    ghost lines: { place.line ≤ place.byte + 1 },
    ghost columns: { place.column ≤ place.byte + 1 },
}

impl Machine {
    ghost use Rattle.std.specs.Prelude.{◌≡◌, ◌<◌, ◌≤◌, ◌^◌, ◌+◌, [], OnOk, IfOk, IfErr, Some, Ok, Err, fold, length};
    ghost use Rattle.msc_tokens.specs.Machine.{closed, in_mode, opened, passed, grown, refused, begun, next, step, first_state, settled, ended, listed};
    ghost use Rattle.msc_tokens.specs.Views.{view};
    ghost use Rattle.msc_tokens.specs.Wholes.{behind_token};
    ghost use Rattle.msc_tokens.specs.Faults.{IfNamed};
    ghost use Rattle.msc_tokens.specs.declared.fault.LexFault.{LexFault};

    /// The machine before the first byte. It takes no memory.
    pub fn new(alloc: Global) -> Machine
        ensures { view result ≡ first_state }
    {
        let place = Place {
            byte: 0,
            line: 1,
            column: 1,
        };
        Machine {
            alloc,
            mode: Mode::Between,
            start: place,
            text: Vec::new(alloc),
            place,
            tokens: Items::new(alloc),
        }
    }

    /// Begins a token or a note with the byte.
    fn open(&mut self, mode: Mode, byte: u8) -> Result<(), NoMemory>
        requires { self.old.place.byte < 2 ^ 63 }
        ensures ok { OnOk result (view self.new ≡ opened mode (view self.old) byte) }
        ensures bound { self.new.place.byte ≤ self.old.place.byte + 1 }
    {
        self.text.clear();
        self.text.push(byte)?;
        self.start = self.place;
        self.mode = mode;
        self.place = after(self.place, byte);
        Ok(())
    }

    /// Passes over the byte.
    fn pass(&mut self, mode: Mode, byte: u8)
        requires { self.old.place.byte < 2 ^ 63 }
        ensures ok { view self.new ≡ passed mode (view self.old) byte }
        ensures bound { self.new.place.byte ≤ self.old.place.byte + 1 }
    {
        self.mode = mode;
        self.place = after(self.place, byte);
    }

    /// Adds the byte to the token that is open.
    fn grow(&mut self, mode: Mode, byte: u8) -> Result<(), NoMemory>
        requires { self.old.place.byte < 2 ^ 63 }
        ensures ok { OnOk result (view self.new ≡ grown mode (view self.old) byte) }
        ensures bound { self.new.place.byte ≤ self.old.place.byte + 1 }
    {
        self.text.push(byte)?;
        self.mode = mode;
        self.place = after(self.place, byte);
        Ok(())
    }

    /// Ends the token that is open.
    fn close(&mut self, kind: TokenKind) -> Result<(), NoMemory>
        ensures ok { OnOk result (view self.new ≡ closed kind (view self.old)) }
        ensures place { self.new.place ≡ self.old.place }
    {
        let bytes = Text::from_bytes(self.alloc, self.text.as_slice())?;
        self.text.clear();
        self.tokens.push(Token {
            kind,
            bytes,
            place: self.start,
        })?;
        self.mode = Mode::Between;
        Ok(())
    }

    /// Fails where the open piece began.
    fn fail(&mut self, mode: Mode)
        ensures ok { view self.new ≡ in_mode mode (view self.old) }
        ensures place { self.new.place ≡ self.old.place }
    {
        self.mode = mode;
    }

    /// Fails at the next byte.
    fn refuse(&mut self)
        ensures ok { view self.new ≡ refused (view self.old) }
        ensures place { self.new.place ≡ self.old.place }
    {
        self.mode = Mode::BadByte;
        self.start = self.place;
    }

    /// Takes a byte where nothing is open.
    fn begin(&mut self, byte: u8) -> Result<(), NoMemory>
        requires { self.old.place.byte < 2 ^ 63 }
        ensures ok { OnOk result (view self.new ≡ begun (view self.old) byte) }
        ensures bound { self.new.place.byte ≤ self.old.place.byte + 1 }
    {
        match class_of(byte) {
            ByteClass::Blank => {
                self.pass(Mode::Between, byte);
                Ok(())
            }
            ByteClass::Word => self.open(Mode::Word, byte),
            ByteClass::Apostrophe => self.open(Mode::Str, byte),
            ByteClass::Slash => self.open(Mode::Slash, byte),
            ByteClass::Mark => self.open(Mode::Mark, byte),
            ByteClass::Other => {
                self.refuse();
                Ok(())
            }
        }
    }

    /// Takes one more byte.
    #[tactic(auto, unfolding(crate::specs::Machine::step))]
    pub fn step(&mut self, byte: u8) -> Result<(), NoMemory>
        requires { self.old.place.byte < 2 ^ 63 }
        ensures ok { OnOk result (view self.new ≡ step (view self.old) byte) }
        ensures bound { self.new.place.byte ≤ self.old.place.byte + 1 }
    {
        match self.mode {
            Mode::Between => self.begin(byte),
            Mode::Word => self.step_in_word(byte),
            Mode::Str => self.step_in_string(byte),
            Mode::Quote => self.step_behind_quote(byte),
            Mode::Slash => {
                self.step_behind_slash(byte);
                Ok(())
            }
            Mode::Note => {
                self.step_in_note(byte);
                Ok(())
            }
            Mode::Star => {
                self.step_behind_star(byte);
                Ok(())
            }
            Mode::Mark => self.step_behind_mark(byte),
            Mode::BadByte => Ok(()),
            Mode::LongName => Ok(()),
        }
    }

    /// Takes a whole token, which begins here.
    fn take_token(&mut self, kind: TokenKind, token: &[u8]) -> Result<(), NoMemory>
        requires { self.old.place.byte + length token.now < 2 ^ 63 }
        ensures ok { OnOk result (view self.new ≡ behind_token kind (view self.old) token.now) }
        ensures bound { self.new.place.byte ≤ self.old.place.byte + length token.now }
    {
        let bytes = Text::from_bytes(self.alloc, token)?;
        let place = self.place;
        self.tokens.push(Token { kind, bytes, place })?;
        self.text.clear();
        self.mode = Mode::Between;
        self.start = place;
        self.place = Place {
            byte: place.byte + token.len() as u64,
            line: place.line,
            column: place.column + token.len() as u64,
        };
        Ok(())
    }

    /// Takes the first byte, and gives those behind it.
    fn take_first<'a>(&mut self, bytes: &'a [u8]) -> Result<&'a [u8], NoMemory>
        requires some { 0 < length bytes.now }
        requires bound { self.old.place.byte + length bytes.now < 2 ^ 63 }
        ensures ok { IfOk result (λ behind. fold step (view self.old) bytes.now ≡ fold step (view self.new) behind.now) }
        ensures fewer { IfOk result (λ behind. length behind.now < length bytes.now) }
        ensures place { IfOk result (λ behind. self.new.place.byte + length behind.now ≤ self.old.place.byte + length bytes.now) }
        ensures bound { self.new.place.byte ≤ self.old.place.byte + length bytes.now }
    {
        match bytes.split_first() {
            Some((first, behind)) => {
                self.step(*first)?;
                Ok(behind)
            }
            None => Ok(bytes),
        }
    }

    /// Takes the first bytes, a whole token at once, and gives those behind them.
    pub fn take<'a>(&mut self, bytes: &'a [u8]) -> Result<&'a [u8], NoMemory>
        requires some { 0 < length bytes.now }
        requires bound { self.old.place.byte + length bytes.now < 2 ^ 63 }
        ensures ok { IfOk result (λ behind. fold step (view self.old) bytes.now ≡ fold step (view self.new) behind.now) }
        ensures fewer { IfOk result (λ behind. length behind.now < length bytes.now) }
        ensures place { IfOk result (λ behind. self.new.place.byte + length behind.now ≤ self.old.place.byte + length bytes.now) }
        ensures bound { self.new.place.byte ≤ self.old.place.byte + length bytes.now }
    {
        if let Mode::Between = self.mode {
            if let Some((kind, token, behind)) = whole_token(bytes) {
                self.take_token(kind, token)?;
                return Ok(behind);
            }
        }
        self.take_first(bytes)
    }

    /// Takes a byte in a word.
    fn step_in_word(&mut self, byte: u8) -> Result<(), NoMemory>
        requires { self.old.place.byte < 2 ^ 63 }
        ensures ok { OnOk result (view self.new ≡ next Mode.Word (view self.old) byte) }
        ensures bound { self.new.place.byte ≤ self.old.place.byte + 1 }
    {
        if is_word_byte(byte) {
            if (self.text.len() as u64) < Limits::NAME_BYTES {
                self.grow(Mode::Word, byte)
            } else {
                self.fail(Mode::LongName);
                Ok(())
            }
        } else if has_letter(self.text.as_slice()) {
            self.close(TokenKind::Word)?;
            self.begin(byte)
        } else {
            self.fail(Mode::BadByte);
            Ok(())
        }
    }

    /// Takes a byte in a string.
    fn step_in_string(&mut self, byte: u8) -> Result<(), NoMemory>
        requires { self.old.place.byte < 2 ^ 63 }
        ensures ok { OnOk result (view self.new ≡ next Mode.Str (view self.old) byte) }
        ensures bound { self.new.place.byte ≤ self.old.place.byte + 1 }
    {
        if byte == b'\'' {
            self.grow(Mode::Quote, byte)
        } else if is_inside(byte) {
            self.grow(Mode::Str, byte)
        } else {
            self.refuse();
            Ok(())
        }
    }

    /// Takes a byte behind an apostrophe that may close a string.
    fn step_behind_quote(&mut self, byte: u8) -> Result<(), NoMemory>
        requires { self.old.place.byte < 2 ^ 63 }
        ensures ok { OnOk result (view self.new ≡ next Mode.Quote (view self.old) byte) }
        ensures bound { self.new.place.byte ≤ self.old.place.byte + 1 }
    {
        if byte != b'\'' {
            self.close(TokenKind::Str)?;
            return self.begin(byte);
        }
        self.grow(Mode::Str, byte)
    }

    /// Takes a byte behind a `/`.
    fn step_behind_slash(&mut self, byte: u8)
        requires { self.old.place.byte < 2 ^ 63 }
        ensures ok { view self.new ≡ next Mode.Slash (view self.old) byte }
        ensures bound { self.new.place.byte ≤ self.old.place.byte + 1 }
    {
        if byte == b'*' {
            self.pass(Mode::Note, byte);
        } else {
            self.fail(Mode::BadByte);
        }
    }

    /// Takes a byte in a note.
    fn step_in_note(&mut self, byte: u8)
        requires { self.old.place.byte < 2 ^ 63 }
        ensures ok { view self.new ≡ next Mode.Note (view self.old) byte }
        ensures bound { self.new.place.byte ≤ self.old.place.byte + 1 }
    {
        if byte == b'*' {
            self.pass(Mode::Star, byte);
        } else if is_inside(byte) {
            self.pass(Mode::Note, byte);
        } else {
            self.refuse();
        }
    }

    /// Takes a byte in a note behind a `*`.
    fn step_behind_star(&mut self, byte: u8)
        requires { self.old.place.byte < 2 ^ 63 }
        ensures ok { view self.new ≡ next Mode.Star (view self.old) byte }
        ensures bound { self.new.place.byte ≤ self.old.place.byte + 1 }
    {
        if byte == b'/' {
            self.pass(Mode::Between, byte);
        } else if byte == b'*' {
            self.pass(Mode::Star, byte);
        } else if is_inside(byte) {
            self.pass(Mode::Note, byte);
        } else {
            self.refuse();
        }
    }

    /// Takes a byte behind a mark.
    fn step_behind_mark(&mut self, byte: u8) -> Result<(), NoMemory>
        requires { self.old.place.byte < 2 ^ 63 }
        ensures ok { OnOk result (view self.new ≡ next Mode.Mark (view self.old) byte) }
        ensures bound { self.new.place.byte ≤ self.old.place.byte + 1 }
    {
        if makes_pair(self.text.as_slice(), byte) {
            self.grow(Mode::Mark, byte)?;
            self.close(TokenKind::Mark)
        } else {
            self.close(TokenKind::Mark)?;
            self.begin(byte)
        }
    }

    /// The fault that no further byte can take away.
    pub fn settled(&self) -> Option<LexFault>
        ensures { result ≡ settled self.now.mode self.now.start }
    {
        match self.mode {
            Mode::BadByte => Some(LexFault::BadByte(self.start)),
            Mode::LongName => Some(LexFault::LongName(self.start)),
            _ => None,
        }
    }

    /// Takes out the tokens so far.
    pub fn take_tokens(&mut self) -> Items<Token>
        ensures tokens { result ≡ self.old.tokens }
        ensures left { view self.new ≡ record (view self.old) { tokens = [] } }
    {
        mem::replace(&mut self.tokens, Items::new(self.alloc))
    }

    /// The tokens of the text up to here.
    fn into_list(self) -> TokenList
        ensures tokens { result.tokens ≡ self.tokens }
        ensures end_place { result.end_place ≡ self.place }
    {
        TokenList::from_items(self.tokens, self.place)
    }

    /// The tokens of the text up to here, the open one too.
    fn close_last(mut self, kind: TokenKind) -> Result<TokenList, LexFault>
        ensures ok { IfOk result (λ list. list ≡ listed (closed kind (view self))) }
        ensures err { IfErr result (λ fault. fault ≡ LexFault.NoMemory) }
    {
        self.close(kind)?;
        Ok(self.into_list())
    }

    /// What the text is if it ends here.
    pub fn end(self) -> Result<TokenList, LexFault>
        ensures ok { IfOk result (λ list. ended self.mode (view self) ≡ Ok list) }
        ensures err { IfErr result (λ fault. IfNamed fault (ended self.mode (view self) ≡ Err fault)) }
        ensures settled { (fault : LexFault) → settled self.mode self.start ≡ Some fault → result ≡ Err fault }
    {
        match self.mode {
            Mode::Between => Ok(self.into_list()),
            Mode::Word => self.end_word(),
            Mode::Str => Err(LexFault::OpenString(self.start)),
            Mode::Quote => self.close_last(TokenKind::Str),
            Mode::Slash => Err(LexFault::BadByte(self.start)),
            Mode::Note => Err(LexFault::OpenNote(self.start)),
            Mode::Star => Err(LexFault::OpenNote(self.start)),
            Mode::Mark => self.close_last(TokenKind::Mark),
            Mode::BadByte => Err(LexFault::BadByte(self.start)),
            Mode::LongName => Err(LexFault::LongName(self.start)),
        }
    }

    /// What the text is if it ends behind an open word.
    fn end_word(self) -> Result<TokenList, LexFault>
        ensures ok { IfOk result (λ list. ended Mode.Word (view self) ≡ Ok list) }
        ensures err { IfErr result (λ fault. IfNamed fault (ended Mode.Word (view self) ≡ Err fault)) }
    {
        if has_letter(self.text.as_slice()) {
            self.close_last(TokenKind::Word)
        } else {
            Err(LexFault::BadByte(self.start))
        }
    }
}
