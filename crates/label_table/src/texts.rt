//! Numbers of the names and texts of labels, for `key` alone.

ghost use Rattle.std.specs.Prelude.{◌≡◌, IfOk};
ghost use Rattle.label_table.specs.Keys.{text_number, AreTextNumbers, IsNumbered, KeepsNumbers};

use msc_base::NoMemory;
use std::alloc::Global;
use std::collections::BTreeMap;

/// Texts, each with a number of its own. They are ordered, so that no choice of texts makes the look-up slow.
pub(crate) type TextNumbers = BTreeMap<Vec<u8>, usize>;

/// The number of a text, if it has one.
pub(crate) fn text_number(texts: &TextNumbers, text: &[u8]) -> Option<usize>
    ensures { result ≡ text_number texts.now text.now }
{
    let number = texts.get(text)?;
    Some(*number)
}

/// Gives a text that has no number the next one.
fn add_text(alloc: Global, texts: &mut TextNumbers, text: &[u8]) -> Result<usize, NoMemory>
    requires numbers { AreTextNumbers texts.old }
    requires new { text_number texts.old text.now ≡ None }
    ensures number { IfOk result (λ number. IsNumbered texts.new text.now number) }
    ensures kept { KeepsNumbers texts.old texts.new }
    ensures numbers { AreTextNumbers texts.new }
{
    let number = texts.len();
    let text = Vec::from_slice(alloc, text)?;
    texts.insert(text, number)?;
    Ok(number)
}

/// The number of a text, which gets one where it has none.
pub(crate) fn number_text(
    alloc: Global,
    texts: &mut TextNumbers,
    text: &[u8],
) -> Result<usize, NoMemory>
    requires { AreTextNumbers texts.old }
    ensures number { IfOk result (λ number. IsNumbered texts.new text.now number) }
    ensures kept { KeepsNumbers texts.old texts.new }
    ensures numbers { AreTextNumbers texts.new }
{
    match text_number(texts, text) {
        Some(number) => Ok(number),
        None => add_text(alloc, texts, text),
    }
}
