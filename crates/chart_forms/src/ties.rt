//! Whether a join of a text ties two gates.

ghost use Rattle.std.specs.Prelude.{◌≡◌};
ghost use Rattle.chart_forms.specs.TiedTexts.{is_tied as is_tied_form, is_tied_passage, is_tied_text, tie_gates as any_ties, ties_gate as does_tie};
ghost use Rattle.chart_text.specs.PassageViews.{passage_view, text_view};
ghost use Rattle.msc_tree.specs.Views.{form_view};

use chart_text::Passage;
use msc_tree::{Join, JoinEnd, RawForm};

/// Whether a join ties two gates.
fn ties_gate(end: &JoinEnd) -> bool
    ensures { result ≡ does_tie end.now }
{
    match end {
        JoinEnd::Env(_) => false,
        JoinEnd::Reference(_, _) => true,
    }
}

/// Whether one of the joins ties two gates. It takes no memory.
pub fn tie_gates(joins: &[Join]) -> bool
    ensures { result ≡ any_ties joins.now }
{
    for join in joins {
        if ties_gate(&join.to) {
            return true;
        }
    }
    false
}

/// Whether one of the item by itself does.
fn is_tied(form: &RawForm) -> bool
    ensures { result ≡ is_tied_form (form_view form.now) }
{
    match form {
        RawForm::Reference(held) => tie_gates(held.joins.as_slice()),
        RawForm::Single(_) => false,
        RawForm::Coregion(_) => false,
        RawForm::Condition(_, _) => false,
        RawForm::Inline(_) => false,
        RawForm::Stop => false,
    }
}

/// Whether one of the passage does.
fn is_tied_in(passage: Passage<'_>) -> bool
    ensures { result ≡ is_tied_passage (passage_view passage.entry) }
{
    match passage {
        Passage::Item(_, held) => is_tied(&held.form),
        Passage::Head(_) => false,
        Passage::Statement(_, _, _) => false,
        Passage::Operand(_, _) => false,
    }
}

/// Whether a join of the text ties two gates. It takes no memory.
pub fn ties_gates(text: &[Passage<'_>]) -> bool
    ensures { result ≡ is_tied_text (text_view text.now) }
{
    for held in text {
        if is_tied_in(*held) {
            return true;
        }
    }
    false
}
