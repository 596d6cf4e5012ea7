//! The laws of printed texts: they read back. Each is the contract of a function that does nothing.

ghost use Rattle.std.specs.Prelude.{◌≡◌, ℕ, List};
ghost use Rattle.msc_tokens.specs.declared.token.Token.{Token};
ghost use Rattle.msc_tokens.specs.Spelling.{Spells};
ghost use Rattle.msc_tree.specs.Expressions.{Expression};
ghost use Rattle.token_grammar.specs.Languages.{texts};
ghost use Rattle.msc_expression.specs.ExpressionGrammar.{expression};
ghost use Rattle.msc_print.specs.ExpressionWords.{expression_words};
ghost use Rattle.msc_tree.specs.Charts.{Document};
ghost use Rattle.msc_document.specs.DocumentGrammar.{document};
ghost use Rattle.msc_print.specs.ChartWords.{canonical_text, document_words};
ghost use Rattle.msc_print.specs.Layout.{laid_out};
ghost use Rattle.msc_print.specs.ReadsBack.{PrintReadsBack, ReadsAs};
ghost use Rattle.msc_print.specs.Texts.{AreTexts, SpellsTexts};
ghost use Rattle.msc_print.specs.Words.{Words};
ghost use Rattle.msc_print.specs.Unplaced.{SameAside, without_places};

use msc_document::documents_are_exact;

/// Documents that are the same but for their places have the same canonical text.
pub fn places_are_not_printed()
    ensures same { (d e : Document) → SameAside d e → canonical_text d ≡ canonical_text e }
    ensures without { (d : Document) → canonical_text (without_places d) ≡ canonical_text d }
{}

/// The tokens that an expression is printed with read as the expression, wherever they stand, with no more levels open
/// than in the tokens that it was read from.
pub fn expressions_read_back()
    ensures { (n : ℕ) (tokens others : List Token) (x : Expression) → (expression n).reads tokens x → texts others ≡ expression_words x → (expression n).reads others x }
{}

/// The tokens that a document is printed with read as the same document, places aside, wherever they stand, with no more
/// levels open than in the tokens that it was read from.
pub fn documents_read_back()
    ensures { (n : ℕ) (tokens others : List Token) (d : Document) → (document n).reads tokens d → texts others ≡ document_words d → ReadsAs n others d }
{}

/// What is read from the tokens of a print is printed as the same text again.
pub fn prints_stay()
    ensures { (m n : ℕ) (tokens others : List Token) (d e : Document) → (document n).reads tokens d → texts others ≡ document_words d → (document m).reads others e → canonical_text e ≡ canonical_text d }
{
    documents_are_exact();
    documents_read_back();
    places_are_not_printed();
}

/// Texts of tokens that are laid out are cut into tokens with these texts, where no two neighbours make a longer mark.
pub fn layout_keeps_tokens_apart()
    ensures { (words : Words) → AreTexts words → SpellsTexts (laid_out words) words }
{}

/// The tokens that a document of a text is printed with are texts of tokens, and no two neighbours make a longer mark.
pub fn printed_texts_are_texts()
    ensures { (n : ℕ) (bytes : List ℕ) (tokens : List Token) (d : Document) → Spells bytes tokens → (document n).reads tokens d → AreTexts (document_words d) }
{}

/// The canonical text of a document of a text is a text of the same document, places aside, with no more levels open, and
/// of no other document; and that document has the same canonical text.
pub fn prints_read_back()
    ensures reads { (n : ℕ) (bytes : List ℕ) (tokens : List Token) (d : Document) → Spells bytes tokens → (document n).reads tokens d → PrintReadsBack n d }
    ensures only { (m n : ℕ) (bytes : List ℕ) (tokens others : List Token) (d e : Document) → Spells bytes tokens → (document n).reads tokens d
        → Spells (canonical_text d) others → (document m).reads others e → SameAside e d × (canonical_text e ≡ canonical_text d) }
{
    documents_are_exact();
    documents_read_back();
    layout_keeps_tokens_apart();
    printed_texts_are_texts();
    places_are_not_printed();
}
