//! Worked charts: their unfoldings, all of them, and what they answer on some logs. Each law is the contract of a function that
//! does nothing; a log conforms, fails at an event, or stops early.

ghost use Rattle.msc_meaning.specs.WorkedCall.{CallConforms, CallIsWoven, CallUnfolds};
ghost use Rattle.msc_meaning.specs.WorkedColumns.{ColumnsAreWoven, ColumnsUnfold};
ghost use Rattle.msc_meaning.specs.WorkedLaws.{AlternativesUnfold, BehindExceptionFails, BothEndsUnfold, CallerAloneConforms, ChildFirstFails, CoregionUnfolds, CreationConforms, CreationUnfolds, DecompositionConforms, DecompositionUnfolds, EndlessUnfolds, ExceptionConforms, ExceptionUnfolds, GateAloneConforms, GateAloneUnfolds, GateConforms, GateThroughLevelsConforms, GateThroughLevelsUnfolds, GateUnfolds, InlineGateUnfolds, InputAcrossFails, InputFirstFails, InputThroughLevelsFails, InputsInOrderConform, JoinedGatesConform, JoinedGatesUnfold, LaterInputFails, LaterNodeFirstConforms, LoopUnfolds, MatchedInputFails, MessageConforms, MessageUnfolds, NothingConforms, NothingStopsEarly, OneTurnStopsEarly, OptionUnfolds, OverlappingReferencesConform, OverlappingTurnsConform, ReferencesUnfold, SecondOperandConforms, SecondOutputFails, WalkUnderWayStopsEarly, WalkUnfolds};

/// A message: its output comes before its input, and nothing comes behind.
pub fn a_message_is_ordered()
    ensures unfolds { MessageUnfolds }
    ensures conforms { MessageConforms }
    ensures input_first { InputFirstFails }
    ensures empty { NothingStopsEarly }
    ensures output_again { SecondOutputFails }
{}

/// Alternatives whose operands begin alike, and an option that is left out.
pub fn choices_unfold_to_one_operand()
    ensures alternatives { AlternativesUnfold }
    ensures second { SecondOperandConforms }
    ensures option { OptionUnfolds }
    ensures left_out { NothingConforms }
{}

/// An exception: its operand stands in place of what is behind it.
pub fn an_exception_ends_its_level()
    ensures unfolds { ExceptionUnfolds }
    ensures conforms { ExceptionConforms }
    ensures behind { BehindExceptionFails }
{}

/// A loop of two turns, and a chart that is referred to twice in a row: a later turn may begin before an earlier one has ended.
pub fn turns_may_overlap()
    ensures loops { LoopUnfolds }
    ensures overlapping { OverlappingTurnsConform }
    ensures one_turn { OneTurnStopsEarly }
    ensures references { ReferencesUnfold }
    ensures overlapping_references { OverlappingReferencesConform }
{}

/// A coregion whose events only a general ordering orders, and a creation, which is an event of the child too.
pub fn coregions_and_creations_order_events()
    ensures coregion { CoregionUnfolds }
    ensures in_order { InputsInOrderConform }
    ensures later_first { LaterInputFails }
    ensures creation { CreationUnfolds }
    ensures created { CreationConforms }
    ensures child_first { ChildFirstFails }
{}

/// A gate of a reference, with its caller, and of the chart by itself.
pub fn a_gate_orders_its_ends()
    ensures unfolds { GateUnfolds }
    ensures conforms { GateConforms }
    ensures input_first { InputAcrossFails }
    ensures alone { GateAloneUnfolds }
    ensures alone_conforms { GateAloneConforms }
{}

/// A gate through two levels, joined gates of two references, and a gate of an inline expression that one operand lacks.
pub fn gates_lead_through_levels_and_joins()
    ensures levels { GateThroughLevelsUnfolds }
    ensures through { GateThroughLevelsConforms }
    ensures input_first { InputThroughLevelsFails }
    ensures joins { JoinedGatesUnfold }
    ensures joined { JoinedGatesConform }
    ensures inline { InlineGateUnfolds }
    ensures caller_alone { CallerAloneConforms }
{}

/// A decomposed instance, and a message of which both ends are decomposed.
pub fn decomposed_instances_unfold()
    ensures one { DecompositionUnfolds }
    ensures conforms { DecompositionConforms }
    ensures input_first { MatchedInputFails }
    ensures both { BothEndsUnfold }
{}

/// A graph that never ends, and one whose nodes share no instance.
pub fn walks_unfold()
    ensures endless { EndlessUnfolds }
    ensures under_way { WalkUnderWayStopsEarly }
    ensures ends { WalkUnfolds }
    ensures later_node_first { LaterNodeFirstConforms }
{}

/// Columns that share an alternative are woven to a body whose order isn't that of the text.
pub fn columns_are_woven()
    ensures woven { ColumnsAreWoven }
    ensures unfolds { ColumnsUnfold }
{}

/// A telephone call in three columns: the body that its text is woven to, its two unfoldings, and a log that conforms.
pub fn a_call_unfolds()
    ensures woven { CallIsWoven }
    ensures unfolds { CallUnfolds }
    ensures conforms { CallConforms }
{}
