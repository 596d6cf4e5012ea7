//! The laws of the readers here: each is exact. Each is the contract of a function that does nothing.

ghost use Rattle.std.specs.Prelude.{ℕ, List, codes};
ghost use Rattle.msc_tokens.specs.declared.token.Token.{Token};
ghost use Rattle.token_grammar.specs.Exactness.{IsExact};
ghost use Rattle.token_grammar.specs.Languages.{seq_at};
ghost use Rattle.token_grammar.specs.Parsing.{OneReading};
ghost use Rattle.token_grammar.specs.Parts.{mark};
ghost use Rattle.token_grammar.specs.PartReaders.{mark_at};
ghost use Rattle.msc_expression.specs.ExpressionGrammar.{expression};
ghost use Rattle.msc_expression.specs.ExpressionReaders.{expression_at};
ghost use Rattle.msc_expression.specs.GraphGrammar.{chart_graph};
ghost use Rattle.msc_expression.specs.GraphReaders.{chart_graph_at};

/// Tokens read as at most one expression, and what the reader of expressions answers at each number of levels is that
/// expression, or the first token that is refused or opens a level too many.
pub fn expressions_are_exact()
    ensures one { OneReading expression }
    ensures exact { (n : ℕ) (tokens : List Token) → IsExact expression n tokens (expression_at n tokens) }
{}

/// The same of the graph of a chart, up to the word that ends the chart.
pub fn graphs_are_exact()
    ensures one { OneReading (λ n. chart_graph n (mark (codes "endmsc"))) }
    ensures exact { (n : ℕ) (tokens : List Token) → IsExact (λ m. chart_graph m (mark (codes "endmsc"))) n tokens (seq_at (chart_graph_at n) (mark_at (codes "endmsc")) tokens) }
{}
