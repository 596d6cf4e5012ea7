//! Labels as numbers, so that one is found by comparing few: for `table` alone.

ghost use Rattle.std.specs.Prelude.{◌≡◌, IfSome, IfNone, IfOk};
ghost use Rattle.label_table.specs.Keys.{AreTextNumbers, IsFarKey, IsKey, KeepsNumbers};

use crate::kind::kind_rank;
use crate::texts::{TextNumbers, number_text, text_number};
use msc_base::{Far, Label, NoMemory};
use std::alloc::Global;

/// A far end, its instance by the number of its name.
#[derive(PartialEq, Eq, PartialOrd, Ord, Drop)]
pub(crate) enum FarKey {
    Nobody,
    Env,
    Instance(usize),
}

/// A label, its names and its text by their numbers.
#[derive(PartialEq, Eq, PartialOrd, Ord, Drop)]
pub(crate) struct LabelKey {
    pub(crate) at: usize,
    /// The place of the kind in its declaration.
    pub(crate) kind: u8,
    pub(crate) text: usize,
    pub(crate) far: FarKey,
}

/// The key of a far end, if its name has a number.
fn far_key(texts: &TextNumbers, far: &Far) -> Option<FarKey>
    ensures found { IfSome result (λ key. IsFarKey texts.now far.now key) }
    ensures none { IfNone result ((key : FarKey) → IsFarKey texts.now far.now key → ⊥) }
{
    match far {
        Far::Nobody => Some(FarKey::Nobody),
        Far::Env => Some(FarKey::Env),
        Far::Instance(name) => {
            let number = text_number(texts, name.bytes())?;
            Some(FarKey::Instance(number))
        }
    }
}

/// The key of a label, if its names and its text have numbers.
pub(crate) fn key_of(texts: &TextNumbers, label: &Label) -> Option<LabelKey>
    ensures found { IfSome result (λ key. IsKey texts.now label.now key) }
    ensures none { IfNone result ((key : LabelKey) → IsKey texts.now label.now key → ⊥) }
{
    let at = text_number(texts, label.at.bytes())?;
    let text = text_number(texts, label.text.bytes())?;
    let far = far_key(texts, &label.far)?;
    Some(LabelKey {
        at,
        kind: kind_rank(label.kind),
        text,
        far,
    })
}

/// The key of a far end, whose name gets a number where it has none.
fn number_far(alloc: Global, texts: &mut TextNumbers, far: &Far) -> Result<FarKey, NoMemory>
    requires { AreTextNumbers texts.old }
    ensures key { IfOk result (λ key. IsFarKey texts.new far.now key) }
    ensures kept { KeepsNumbers texts.old texts.new }
    ensures numbers { AreTextNumbers texts.new }
{
    match far {
        Far::Nobody => Ok(FarKey::Nobody),
        Far::Env => Ok(FarKey::Env),
        Far::Instance(name) => {
            let number = number_text(alloc, texts, name.bytes())?;
            Ok(FarKey::Instance(number))
        }
    }
}

/// The key of a label, whose names and text get numbers where they have none.
pub(crate) fn number_label(
    alloc: Global,
    texts: &mut TextNumbers,
    label: &Label,
) -> Result<LabelKey, NoMemory>
    requires { AreTextNumbers texts.old }
    ensures key { IfOk result (λ key. IsKey texts.new label.now key) }
    ensures kept { KeepsNumbers texts.old texts.new }
    ensures numbers { AreTextNumbers texts.new }
{
    let at = number_text(alloc, texts, label.at.bytes())?;
    let text = number_text(alloc, texts, label.text.bytes())?;
    let far = number_far(alloc, texts, &label.far)?;
    Ok(LabelKey {
        at,
        kind: kind_rank(label.kind),
        text,
        far,
    })
}
