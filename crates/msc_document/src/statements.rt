//! The statements of a chart up to its last word: for `chart` alone.

ghost use Rattle.std.specs.Prelude.{◌≡◌, map};
ghost use Rattle.msc_tree.specs.Views.{statement_view};
ghost use Rattle.token_grammar.specs.Answers.{Gives};
ghost use Rattle.msc_document.specs.DocumentReaders.{chart_statements_at};

use crate::items::statements;
use msc_tokens::Token;
use msc_tree::Statement;
use std::alloc::Global;
use token_grammar::ReadFault;

/// The statements of a chart, and its word `endmsc`.
pub fn chart_statements(
    alloc: Global,
    tokens: &[Token],
    levels: usize,
) -> Result<(Vec<Statement>, &[Token]), ReadFault>
    ensures { Gives (λ x. (map statement_view x.0.items, x.1.now)) result (chart_statements_at levels tokens.now) }
{
    statements(alloc, tokens, levels, None)
}
