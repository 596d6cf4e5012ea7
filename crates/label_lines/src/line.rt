//! The text of a label.

ghost use Rattle.std.specs.Prelude.{◌≡◌, ◌++◌, ℕ, List, IfOk, OnOk};
ghost use Rattle.label_lines.specs.LabelLines.{act_words, end_words, far_words, label_line, start_word};
ghost use Rattle.label_lines.specs.ReadingBack.{IsEventText, IsLineOf, SaysLabel};

use msc_base::{Far, Kind, Label, NoMemory, Text};
use std::alloc::{AllocError, Global};

/// The word with which an act of this kind begins.
fn start_word(kind: Kind) -> &'static str
    ensures { result.now ≡ start_word kind }
{
    match kind {
        Kind::Output | Kind::OutputLost => "out",
        Kind::Input | Kind::InputFound => "in",
        Kind::Action => "action",
        Kind::TimerStart => "starttimer",
        Kind::TimerStop => "stoptimer",
        Kind::Timeout => "timeout",
        Kind::Create => "create",
    }
}

/// What leads to the far end in an act of this kind.
fn end_words(kind: Kind) -> &'static str
    ensures { result.now ≡ end_words kind }
{
    match kind {
        Kind::Output => " to",
        Kind::Input => " from",
        Kind::OutputLost => " to lost",
        Kind::InputFound => " from found",
        Kind::Action | Kind::TimerStart | Kind::TimerStop | Kind::Timeout | Kind::Create => "",
    }
}

/// Appends the far end of an act of this kind; a creation has its own in its text.
fn add_far(line: &mut Vec<u8>, kind: Kind, far: &Far) -> Result<(), AllocError>
    ensures { OnOk result (line.new.items ≡ line.old.items ++ far_words kind far.now) }
{
    match (kind, far) {
        (Kind::Create, _) => Ok(()),
        (_, Far::Nobody) => Ok(()),
        (_, Far::Env) => line.extend_from_slice(" env".as_bytes()),
        (_, Far::Instance(name)) => {
            line.extend_from_slice(" ".as_bytes())?;
            line.extend_from_slice(name.bytes())
        }
    }
}

/// Appends what the label's event does.
fn add_act(line: &mut Vec<u8>, label: &Label) -> Result<(), AllocError>
    ensures { OnOk result (line.new.items ≡ line.old.items ++ act_words label.now) }
{
    line.extend_from_slice(start_word(label.kind).as_bytes())?;
    line.extend_from_slice(" ".as_bytes())?;
    line.extend_from_slice(label.text.bytes())?;
    line.extend_from_slice(end_words(label.kind).as_bytes())?;
    add_far(line, label.kind, &label.far)
}

/// The text of a label.
fn written(alloc: Global, label: &Label) -> Result<Text, NoMemory>
    ensures { IfOk result (λ text. text ≡ label_line label.now) }
{
    let mut line = Vec::new(alloc);
    line.extend_from_slice(label.at.bytes())?;
    line.extend_from_slice(": ".as_bytes())?;
    add_act(&mut line, label)?;
    line.push(b';')?;
    Ok(Text::from_vec(line))
}

/// The label as the event of a log's line in the notation of charts (Z.120, clauses 4.3 and 4.8 to 4.11), without a line end: one blank
/// stands between the parts of the act, and the label's text stands as it is. Of a label that some text says, the text says that label
/// and no other, and is a line with its event in each log whose version has its kind. A string in the label's text may hold a line feed;
/// then the text does, and only a log whose lines aren't cut there, one in JSON, can have the event.
pub fn label_text(alloc: Global, label: &Label) -> Result<Text, NoMemory>
    ensures text { IfOk result (λ text. text ≡ label_line label.now) }
    ensures reads_back { IfOk result (λ text. (bytes : List ℕ) → IsEventText bytes label.now → SaysLabel text label.now) }
    ensures line { IfOk result (λ text. (bytes : List ℕ) → IsEventText bytes label.now → IsLineOf text label.now) }
{
    let text = written(alloc, label)?;
    Ok(text)
}
