//! A line in words or as JSON, with its line end: for the texts of this crate.

ghost use Rattle.std.specs.Prelude.{◌≡◌, ◌++◌, ◌∷◌, [], IfOk, true, false};
ghost use Rattle.serde_json.specs.View.{view};
ghost use Rattle.serde_json.specs.Written.{compact_text, has_float};
ghost use Rattle.judge_report.specs.Objects.{fault_data};
ghost use Rattle.judge_report.specs.Texts.{needs_no_escape, told};

use msc_base::{NoMemory, Text};
use serde_json::{Value, json};
use std::alloc::{AllocError, Global};

/// The line of these bytes.
fn ended(mut bytes: Vec<u8>) -> Result<Text, NoMemory>
    ensures { IfOk result (λ line. line ≡ bytes.items ++ 10 ∷ []) }
{
    bytes.push(b'\n')?;
    Ok(Text::from_vec(bytes))
}

/// A line of this text.
pub fn line_of(alloc: Global, text: &str) -> Result<Text, NoMemory>
    ensures { IfOk result (λ line. line ≡ text.now ++ 10 ∷ []) }
{
    let bytes = Vec::from_slice(alloc, text.as_bytes())?;
    ended(bytes)
}

/// A line of this value, which holds no float.
pub fn line_of_value(alloc: Global, value: &Value) -> Result<Text, NoMemory>
    requires { has_float (view value.now) ≡ false }
    ensures { IfOk result (λ line. line ≡ compact_text (view value.now) ++ 10 ∷ []) }
{
    let bytes = value.to_vec(alloc)?;
    ended(bytes)
}

/// The object that tells a fault in these words.
fn fault_value(alloc: Global, words: &str) -> Result<Value, AllocError>
    ensures { IfOk result (λ v. view v ≡ fault_data words.now) }
{
    json!(in alloc; {"fault": words})
}

#[tactic(auto, using(crate::proofs::ObjectTexts::fault_no_float, crate::proofs::ObjectTexts::fault_shown))]
/// The line that tells a fault in these words.
pub fn fault_line_of(alloc: Global, words: &str, json: bool) -> Result<Text, NoMemory>
    requires { needs_no_escape words.now ≡ true }
    ensures { IfOk result (λ line. line ≡ told json words.now) }
{
    if json {
        let value = fault_value(alloc, words)?;
        line_of_value(alloc, &value)
    } else {
        line_of(alloc, words)
    }
}
