//! The laws of readers: each is exact for its production. Each is the contract of a function that does nothing.

ghost use Rattle.std.specs.Prelude.{List};
ghost use Rattle.msc_tokens.specs.declared.token.Token.{Token};
ghost use Rattle.token_grammar.specs.Parsing.{OneReading};
ghost use Rattle.token_grammar.specs.Exactness.{IsExact};
ghost use Rattle.msc_events.specs.Declarations.{heading, decl_list, declaration, head};
ghost use Rattle.msc_events.specs.DeclarationReaders.{heading_at, decl_list_at, declaration_at, head_at};
ghost use Rattle.msc_events.specs.Events.{single, coregion, stop};
ghost use Rattle.msc_events.specs.EventReaders.{single_at, coregion_at, stop_at};
ghost use Rattle.msc_events.specs.Multis.{condition, joins};
ghost use Rattle.msc_events.specs.MultiReaders.{condition_at, joins_at};
ghost use Rattle.msc_events.specs.declared.orientation.Orientation.{Orientation};

/// Tokens read as at most one heading, list of declarations, declaration or head, and what the reader answers is this, or
/// the first token that is refused.
pub fn declarations_are_exact()
    ensures one_heading { OneReading (λ n. heading) }
    ensures heading { (tokens : List Token) → IsExact (λ n. heading) 0 tokens (heading_at tokens) }
    ensures one_list { OneReading (λ n. decl_list) }
    ensures list { (tokens : List Token) → IsExact (λ n. decl_list) 0 tokens (decl_list_at tokens) }
    ensures one_declaration { OneReading (λ n. declaration) }
    ensures declaration { (tokens : List Token) → IsExact (λ n. declaration) 0 tokens (declaration_at tokens) }
    ensures one_head { OneReading (λ n. head) }
    ensures head { (tokens : List Token) → IsExact (λ n. head) 0 tokens (head_at tokens) }
{}

/// The same of single events, coregions and stops.
pub fn events_are_exact()
    ensures one_single { OneReading (λ n. single) }
    ensures single { (tokens : List Token) → IsExact (λ n. single) 0 tokens (single_at tokens) }
    ensures one_coregion { OneReading (λ n. coregion) }
    ensures coregion { (tokens : List Token) → IsExact (λ n. coregion) 0 tokens (coregion_at tokens) }
    ensures one_stop { OneReading (λ n. stop) }
    ensures stop { (tokens : List Token) → IsExact (λ n. stop) 0 tokens (stop_at tokens) }
{}

/// The same of conditions, in a column and elsewhere, and of joins.
pub fn shared_parts_are_exact()
    ensures one_condition { (orientation : Orientation) → OneReading (λ n. condition orientation) }
    ensures condition { (orientation : Orientation) (tokens : List Token) → IsExact (λ n. condition orientation) 0 tokens (condition_at orientation tokens) }
    ensures one_joins { OneReading (λ n. joins) }
    ensures joins { (tokens : List Token) → IsExact (λ n. joins) 0 tokens (joins_at tokens) }
{}
