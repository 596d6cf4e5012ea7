//! Whether a chart has neither inline expressions nor references, so that no rule on parts is asked of it: for `reading`.

ghost use Rattle.std.specs.Prelude.{◌≡◌, ◌&&◌};
ghost use Rattle.chart_text.specs.PassageViews.{passage_view, text_view};
ghost use Rattle.msc_acceptance.specs.SingleItems.{are_single, is_single, is_single_passage};
ghost use Rattle.msc_tree.specs.Views.{form_view};

use chart_text::Passage;
use msc_tree::RawForm;

/// Whether the form is neither an inline expression nor a reference.
fn is_one(form: &RawForm) -> bool
    ensures { result ≡ is_single (form_view form.now) }
{
    match form {
        RawForm::Inline(_) => false,
        RawForm::Reference(_) => false,
        RawForm::Single(_) => true,
        RawForm::Coregion(_) => true,
        RawForm::Condition(_, _) => true,
        RawForm::Stop => true,
    }
}

/// Whether the passage is no such item.
fn is_single_in(passage: Passage<'_>) -> bool
    ensures { result ≡ is_single_passage (passage_view passage.entry) }
{
    match passage {
        Passage::Item(_, held) => is_one(&held.form),
        Passage::Head(_) => true,
        Passage::Statement(_, _, _) => true,
        Passage::Operand(_, _) => true,
    }
}

/// Whether both hold.
fn both(one: bool, other: bool) -> bool
    ensures { result ≡ (one && other) }
{
    one && other
}

/// Whether no item of a text is such.
pub fn holds_singles(text: &[Passage<'_>]) -> bool
    ensures { result ≡ are_single (text_view text.now) }
{
    let mut all = true;
    for held in text {
        all = both(all, is_single_in(*held));
    }
    all
}
