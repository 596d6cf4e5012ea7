//! The texts of messages, with their parts where they stand: for `facts`, and for rules that compare them.

ghost use Rattle.std.specs.Prelude.{◌≡◌, ◌&&◌, option_copied};
ghost use Rattle.gate_tables.specs.MessageTexts.{are_same_items, are_same_lists, is_same_text, message_view, text_parts};

use msc_base::Text;
use msc_tree::{Parameters, RawEvent};

/// The text of a message: its name, and the list in parentheses behind it, where there is one.
#[derive(Clone, Copy)]
pub struct MessageText<'a> {
    /// The name.
    pub name: &'a Text,
    /// The list, or none.
    pub parameters: &'a Parameters,
}

/// Whether the lists have the same items in the same order. It takes no memory.
fn same_items(items: &[Text], others: &[Text]) -> bool
    ensures { result ≡ are_same_items items.now others.now }
{
    let mut left = items;
    let mut right = others;
    while let Some((item, behind)) = left.split_first() {
        let Some((other, rest)) = right.split_first() else {
            return false;
        };
        if !item.same(other) {
            return false;
        }
        left = behind;
        right = rest;
    }
    right.is_empty()
}

/// Whether there are the same lists, or none.
fn same_lists(list: Option<&[Text]>, other: Option<&[Text]>) -> bool
    ensures { result ≡ are_same_lists (option_copied list.entry) (option_copied other.entry) }
{
    match list {
        None => match other {
            None => true,
            Some(_) => false,
        },
        Some(items) => match other {
            None => false,
            Some(others) => same_items(items, others),
        },
    }
}

impl<'a> MessageText<'a> {
    /// The text of an event. It takes no memory.
    pub fn of(event: &'a RawEvent) -> MessageText<'a>
        ensures { message_view result ≡ text_parts event.now }
    {
        MessageText {
            name: &event.text,
            parameters: &event.parameters,
        }
    }

    /// Whether two texts have the same name, and the same list or none. It takes no memory.
    pub fn same(self, other: MessageText<'_>) -> bool
        ensures { result ≡ is_same_text (message_view self.entry) (message_view other.entry) }
    {
        self.name.same(other.name) && same_lists(self.parameters.items(), other.parameters.items())
    }
}
