//! The law of documents: tokens read as one at most, and are read so; and what each has; as the contract of a function that does nothing.

ghost use Rattle.std.specs.Prelude.{ℕ, List};
ghost use Rattle.msc_tokens.specs.declared.token.Token.{Token};
ghost use Rattle.token_grammar.specs.Parsing.{OneReading};
ghost use Rattle.token_grammar.specs.Exactness.{IsExact};
ghost use Rattle.msc_document.specs.DocumentGrammar.{document};
ghost use Rattle.msc_document.specs.DocumentReaders.{document_at};
ghost use Rattle.msc_document.specs.FormedDocuments.{DocumentsAreWellFormed};
ghost use Rattle.msc_document.specs.FormedGraphs.{GraphsAreFormed};

/// Tokens read as at most one document, and what the reader of documents answers at each number of levels is that
/// document, or the first token that is refused or opens a level too many. In a document that is read events and coregions stand
/// at one instance, what is created is an instance, inline expressions have as many operands as their forms take, and what is put
/// together in an expression has two parts at least.
pub fn documents_are_exact()
    ensures one { OneReading document }
    ensures exact { (n : ℕ) (tokens : List Token) → IsExact document n tokens (document_at n tokens) }
    ensures formed { DocumentsAreWellFormed }
{}

/// In a document that is read each graph and each frame has a label at which walks start, and expressions whose parts are two at least.
pub fn graphs_are_formed()
    ensures { GraphsAreFormed }
{}
