//! The law that one word is read exactly, as the contract of a function that does nothing.

ghost use Rattle.std.specs.Prelude.{ℕ};
ghost use Rattle.token_grammar.specs.Languages.{Set};
ghost use Rattle.token_grammar.specs.Grammars.{word};
ghost use Rattle.token_grammar.specs.Parsing.{OneReading};

/// A word reads as one token at most.
pub fn one_word()
    ensures { (words : Set) → OneReading (λ n. word words) }
{}
