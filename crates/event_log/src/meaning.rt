//! What the lines of a kind of log say: `line_memory` and `reader` ask by it, `log_events` answers for logs of one run.

ghost use Rattle.std.specs.Prelude.{◌≡◌, ℕ, List, IfOk, OnErr, IfSome, MatchOption, Some, None};
ghost use Rattle.serde_json.specs.View.{view};
ghost use Rattle.label_table.specs.Labels.{label_number};
ghost use Rattle.token_grammar.specs.Languages.{texts};
ghost use Rattle.msc_base.specs.Only.{Never, Only};
ghost use Rattle.msc_base.specs.declared.label.Label.{Label};
ghost use Rattle.event_log.specs.Rules.{Rules};

use crate::Version;
use msc_base::{Label, NoMemory};
use msc_tokens::TokenList;
use serde_json::Value;
use std::alloc::Global;

/// What the lines of a kind of log say, and for which events it has room.
pub trait LineMeaning: Sized {
    /// What a line says of its event. It is shared among equal lines.
    type Said: Drop;
    /// An event with the number of its line.
    type Event: Drop;
    /// An event with the numbers that it has, as it is handed out.
    type Entry: Drop;
    /// What of the events so far decides which may follow.
    type Met: Drop;

    /// The definition of such logs.
    ghost rules: { Rules Self.Said Self.Event Self.Met };

    /// The event without its numbers.
    ghost event_of: { Self.Entry → Self.Event };

    /// The entry has its numbers, where these labels have numbers and so much has been met.
    ghost is_numbered: { List Label → Self.Met → Self.Entry → Type 0 };

    /// What has been met before the first event. It takes no memory.
    fn nothing_met(alloc: Global) -> Self::Met
        ensures { result ≡ rules.none_met };

    /// The event that the tokens are, in a log of this version.
    fn event_of_tokens(
        alloc: Global,
        version: Version,
        tokens: &TokenList,
    ) -> Result<Option<Self::Said>, NoMemory>
        ensures { IfOk result (λ found. MatchOption found (Never (rules.tokens_are version (texts tokens.now.tokens)))
            (λ event. Only (rules.tokens_are version (texts tokens.now.tokens)) event)) };

    /// The event that the JSON value is, in a log of this version.
    fn event_of_value(
        alloc: Global,
        version: Version,
        value: &Value,
    ) -> Result<Option<Self::Said>, NoMemory>
        ensures { IfOk result (λ found. MatchOption found (Never (rules.value_is version (view value.now)))
            (λ event. Only (rules.value_is version (view value.now)) event)) };

    /// The label of the event.
    fn label_of(event: &Self::Said) -> &Label
        ensures { result.now ≡ rules.label_of event.now };

    /// The same once more: it is shared, and takes no memory.
    fn copy(event: &Self::Said) -> Result<Self::Said, NoMemory>
        ensures { IfOk result (λ other. other ≡ event.now) };

    /// The entry of the event in this line, where there is room for it: it has been met then. Its label has this number. Without an
    /// entry what has been met is as it was. Other entries keep their numbers.
    fn entry(
        alloc: Global,
        met: &mut Self::Met,
        event: Self::Said,
        number: Option<u32>,
        line: u64,
    ) -> Result<Option<Self::Entry>, NoMemory>
        ensures room { IfOk result (λ found. MatchOption found (rules.has_room met.old event → ⊥) (λ entry. rules.has_room met.old event)) }
        ensures event { IfOk result (λ found. IfSome found (λ entry. event_of entry ≡ rules.event_at event line)) }
        ensures met { IfOk result (λ found. MatchOption found (met.new ≡ met.old) (λ entry. met.new ≡ rules.with_event met.old event)) }
        ensures err { OnErr result (met.new ≡ met.old) }
        ensures numbers { (labels : List Label) → number ≡ label_number labels (rules.label_of event)
            → IfOk result (λ found. IfSome found (λ entry. is_numbered labels met.new entry)) }
        ensures stays { (labels : List Label) (other : Self.Entry) → is_numbered labels met.old other → is_numbered labels met.new other };
}
