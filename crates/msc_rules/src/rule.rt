//! The table of rules: text, number and group of each. Who breaks one says its name; judge_report prints its text.

ghost use Rattle.std.specs.Prelude.{◌≡◌};
ghost use Rattle.msc_rules.specs.declared.rule.Rule.TheVariants.{Unsupported};
ghost use Rattle.msc_rules.specs.Rules.{form_text, group_of, number_of, rule_text};

use crate::Numbered;

/// A form of the notation that is known and not taken.
#[derive(Clone, Copy, Debug, PartialEq, Eq)]
pub enum Form {
    /// `when`, `otherwise`.
    Guard,
    /// The language of data.
    DataForm,
    /// Time and its constraints.
    TimeForm,
    /// Method calls and suspension.
    Method,
    /// `<<` and `>>`.
    Qualifier,
    /// Inheritance and redefinition.
    Inheritance,
    /// Declared gates.
    GateForm,
    /// The creation of instances.
    Create,
    /// The end of instances.
    Stop,
    /// Exceptions where they aren't taken.
    ExcForm,
}

impl Form {
    /// The printed text of the form. It takes no memory.
    pub fn text(&self) -> &str
        ensures { result.now ≡ form_text self.now }
    {
        match self {
            Form::Guard => "guard",
            Form::DataForm => "data",
            Form::TimeForm => "time",
            Form::Method => "method",
            Form::Qualifier => "qualifier",
            Form::Inheritance => "inheritance",
            Form::GateForm => "gate",
            Form::Create => "create",
            Form::Stop => "stop",
            Form::ExcForm => "exc",
        }
    }

    /// The printed text of the rule that refuses the form.
    fn refusal(&self) -> &str
        ensures { result.now ≡ rule_text (Unsupported self.now) }
    {
        match self {
            Form::Guard => "unsupported, guard",
            Form::DataForm => "unsupported, data",
            Form::TimeForm => "unsupported, time",
            Form::Method => "unsupported, method",
            Form::Qualifier => "unsupported, qualifier",
            Form::Inheritance => "unsupported, inheritance",
            Form::GateForm => "unsupported, gate",
            Form::Create => "unsupported, create",
            Form::Stop => "unsupported, stop",
            Form::ExcForm => "unsupported, exc",
        }
    }
}

/// A rule that a document can break, in the order in which the rules are numbered.
#[derive(Clone, Copy, Debug, PartialEq, Eq)]
pub enum Rule {
    /// The document has more than 4,194,304 bytes.
    Bytes,
    /// A byte that no token takes.
    BadByte,
    /// A string that the text leaves open.
    OpenString,
    /// A note that the text leaves open.
    OpenNote,
    /// A name of more than 255 bytes.
    LongName,
    /// A token that can't continue.
    Syntax,
    /// A token of a form that isn't taken.
    Unsupported(Form),
    /// Nesting level 65.
    TooDeep,
    /// Chart 4,097.
    Charts,
    /// More different instance names than the limit.
    Instances,
    /// Line 4,097 of a graph or frame.
    Nodes,
    /// A loop bound above 1,000,000.
    LoopBound,
    /// A second thing of a name that only one may have.
    NamedTwice,
    /// A name that is no instance of the chart, or isn't covered.
    Undeclared,
    /// A name that names no chart.
    MissingChart,
    /// A reference that leads back to its own chart.
    Recursive,
    /// A reference to a chart with an instance of the caller that isn't covered.
    Uncovered,
    /// Expanded nesting above 256.
    ExpandedNesting,
    /// Expanded size of a chart above 200,000.
    Size,
    /// Expanded sizes of all charts above 2,000,000.
    Total,
    /// A part that its columns don't share.
    NotShared,
    /// Parts of one name that differ.
    OperandsDiffer,
    /// An `exc` inside an operand, or not covering all instances.
    ExcPlace,
    /// Columns whose shared items cross.
    Crossed,
    /// An output or input without its partner.
    Unmatched,
    /// No reference of that name, or no event of that gate inside.
    NoGate,
    /// A gate that is used a second time.
    GateTwice,
    /// A gate whose two sides don't fit.
    GateWays,
    /// A gate with events of two instances.
    GateSplit,
    /// A gate with an event inside a loop.
    GateOnLoop,
    /// A decomposition that doesn't have the events of its instance.
    DecompositionMismatch,
    /// A decomposed instance that takes part in a shared item.
    SharedPart,
    /// A decomposition whose inside is not of the form that is asked.
    Inside,
    /// An item of a decomposed instance that is no plain message.
    LocalEvent,
    /// A name behind `before` or `after` that names no event.
    UnknownEvent,
    /// A second event of a label.
    EventNamedTwice,
    /// An order with a cycle.
    Cyclic,
    /// A label that the graph lacks.
    UnknownLabel,
    /// A second line of a label.
    LabelNamedTwice,
    /// A line from which no end is reached.
    Endless,
    /// A `create` or `stop` where none may stand.
    CreatePlace,
    /// A second creation of a child, or one that can't be.
    CreateTwice,
    /// An item behind its column's `stop`.
    AfterStop,
}

impl Rule {
    /// The printed text of the rule. It takes no memory.
    pub fn text(&self) -> &str
        ensures { result.now ≡ rule_text self.now }
    {
        match self {
            Rule::Bytes => "document too long",
            Rule::BadByte => "bad byte",
            Rule::OpenString => "open string",
            Rule::OpenNote => "open note",
            Rule::LongName => "long name",
            Rule::Syntax => "syntax",
            Rule::Unsupported(form) => form.refusal(),
            Rule::TooDeep => "nesting",
            Rule::Charts => "too many charts",
            Rule::Instances => "too many instances",
            Rule::Nodes => "too many nodes",
            Rule::LoopBound => "loop bound",
            Rule::NamedTwice => "named twice",
            Rule::Undeclared => "undeclared instance",
            Rule::MissingChart => "missing chart",
            Rule::Recursive => "recursive reference",
            Rule::Uncovered => "uncovered instance",
            Rule::ExpandedNesting => "expanded nesting",
            Rule::Size => "expanded size",
            Rule::Total => "total size",
            Rule::NotShared => "not shared",
            Rule::OperandsDiffer => "operands differ",
            Rule::ExcPlace => "exc placed",
            Rule::Crossed => "crossed",
            Rule::Unmatched => "unmatched message",
            Rule::NoGate => "no gate",
            Rule::GateTwice => "gate used twice",
            Rule::GateWays => "gate ways differ",
            Rule::GateSplit => "gate on two instances",
            Rule::GateOnLoop => "gate on a loop",
            Rule::DecompositionMismatch => "decomposition mismatch",
            Rule::SharedPart => "decomposed instance shared",
            Rule::Inside => "decomposition inside",
            Rule::LocalEvent => "local event",
            Rule::UnknownEvent => "unknown event",
            Rule::EventNamedTwice => "event named twice",
            Rule::Cyclic => "cyclic order",
            Rule::UnknownLabel => "unknown label",
            Rule::LabelNamedTwice => "label named twice",
            Rule::Endless => "endless graph",
            Rule::CreatePlace => "create placed",
            Rule::CreateTwice => "created twice",
            Rule::AfterStop => "event after stop",
        }
    }

    /// The rule's group, from 0: bytes, tokens, grammar, limits, names, references, sizes, parts, weaving, messages,
    /// gates, decomposition, event names, cycles, labels, graphs. The groups are looked at in this order.
    pub fn group(&self) -> u32
        ensures { result ≡ group_of self.now }
    {
        match self {
            Rule::Bytes => 0,
            Rule::BadByte | Rule::OpenString | Rule::OpenNote | Rule::LongName => 1,
            Rule::Syntax | Rule::Unsupported(_) | Rule::TooDeep => 2,
            Rule::Charts | Rule::Instances | Rule::Nodes | Rule::LoopBound => 3,
            Rule::NamedTwice | Rule::Undeclared => 4,
            Rule::MissingChart | Rule::Recursive | Rule::Uncovered => 5,
            Rule::ExpandedNesting | Rule::Size | Rule::Total => 6,
            Rule::NotShared
            | Rule::OperandsDiffer
            | Rule::ExcPlace
            | Rule::CreatePlace
            | Rule::CreateTwice
            | Rule::AfterStop => 7,
            Rule::Crossed => 8,
            Rule::Unmatched => 9,
            Rule::NoGate | Rule::GateTwice | Rule::GateWays | Rule::GateSplit | Rule::GateOnLoop =>
                10,
            Rule::DecompositionMismatch | Rule::SharedPart | Rule::Inside | Rule::LocalEvent => 11,
            Rule::UnknownEvent | Rule::EventNamedTwice => 12,
            Rule::Cyclic => 13,
            Rule::UnknownLabel | Rule::LabelNamedTwice => 14,
            Rule::Endless => 15,
        }
    }
}

impl Numbered for Rule {
    ghost number_of = { Rattle.msc_rules.specs.Rules.number_of };

    fn number(&self) -> u32
        ensures { result ≡ number_of self.now }
    {
        match self {
            Rule::Bytes => 1,
            Rule::BadByte => 2,
            Rule::OpenString => 3,
            Rule::OpenNote => 4,
            Rule::LongName => 5,
            Rule::Syntax => 6,
            Rule::Unsupported(_) => 7,
            Rule::TooDeep => 8,
            Rule::Charts => 9,
            Rule::Instances => 10,
            Rule::Nodes => 11,
            Rule::LoopBound => 12,
            Rule::NamedTwice => 13,
            Rule::Undeclared => 14,
            Rule::MissingChart => 15,
            Rule::Recursive => 16,
            Rule::Uncovered => 17,
            Rule::ExpandedNesting => 18,
            Rule::Size => 19,
            Rule::Total => 20,
            Rule::NotShared => 21,
            Rule::OperandsDiffer => 22,
            Rule::ExcPlace => 23,
            Rule::Crossed => 24,
            Rule::Unmatched => 25,
            Rule::NoGate => 26,
            Rule::GateTwice => 27,
            Rule::GateWays => 28,
            Rule::GateSplit => 29,
            Rule::GateOnLoop => 30,
            Rule::DecompositionMismatch => 31,
            Rule::SharedPart => 32,
            Rule::Inside => 33,
            Rule::LocalEvent => 34,
            Rule::UnknownEvent => 35,
            Rule::EventNamedTwice => 36,
            Rule::Cyclic => 37,
            Rule::UnknownLabel => 38,
            Rule::LabelNamedTwice => 39,
            Rule::Endless => 40,
            Rule::CreatePlace => 41,
            Rule::CreateTwice => 42,
            Rule::AfterStop => 43,
        }
    }
}
