//! Labels in the order in which they are listed: for `listing`.

ghost use Rattle.std.specs.Prelude.{◌≡◌};
ghost use Rattle.next_labels.specs.Order.{far_name, far_rank, label_cmp};

use label_table::kind_rank;
use msc_base::{Far, Label};
use std::cmp::Ordering;
use std::marker::Model;

/// A label that is compared as labels are listed.
///
/// A contract sees the label.
#[derive(Drop)]
pub(crate) struct ListedLabel {
    label: Label,
}

impl Model for ListedLabel {
    ghost use Rattle.msc_base.specs.declared.label.Label.{Label as LabelValue};

    ghost Value = { LabelValue };

    ghost view = { λ l. l.label };
}

/// Where a far end stands among those of another form: none first, the environment before instances.
fn far_rank(far: &Far) -> u8
    ensures { result ≡ far_rank far.now }
{
    match far {
        Far::Nobody => 0,
        Far::Env => 1,
        Far::Instance(_) => 2,
    }
}

/// The name of the instance that a far end is.
fn far_name(far: &Far) -> &[u8]
    ensures { result.now ≡ far_name far.now }
{
    match far {
        Far::Nobody => &[],
        Far::Env => &[],
        Far::Instance(name) => name.bytes(),
    }
}

impl ListedLabel {
    /// The label as one to be listed.
    pub(crate) fn new(label: Label) -> ListedLabel
        ensures { result ≡ label }
    {
        ListedLabel { label }
    }

    /// The label alone.
    pub(crate) fn into_label(self) -> Label
        ensures { result ≡ self }
    {
        let ListedLabel { label } = self;
        label
    }

    /// By instance, kind, text and far end.
    fn compare(&self, other: &ListedLabel) -> Ordering
        ensures { result ≡ label_cmp self.now other.now }
    {
        let (a, b) = (&self.label, &other.label);
        a.at.bytes()
            .cmp(b.at.bytes())
            .then(kind_rank(a.kind).cmp(&kind_rank(b.kind)))
            .then(a.text.bytes().cmp(b.text.bytes()))
            .then(far_rank(&a.far).cmp(&far_rank(&b.far)))
            .then(far_name(&a.far).cmp(far_name(&b.far)))
    }
}

impl PartialEq for ListedLabel {
    ghost use Rattle.std.specs.Cmp.{eq_by_cmp_equiv, partial_equiv_from_equiv};
    ghost use Rattle.std.specs.Ordering.{eq_by_cmp};
    ghost use Rattle.next_labels.specs.Order.{label_cmp, label_total};

    ghost eq = { eq_by_cmp label_cmp };

    ghost laws = { partial_equiv_from_equiv (eq_by_cmp_equiv label_total) };

    fn eq(&self, other: &ListedLabel) -> bool {
        self.compare(other) == Ordering::Equal
    }
}

impl Eq for ListedLabel {
    ghost use Rattle.std.specs.Cmp.{eq_by_cmp_equiv};
    ghost use Rattle.next_labels.specs.Order.{label_total};

    ghost laws = { eq_by_cmp_equiv label_total };
}

impl PartialOrd for ListedLabel {
    ghost use Rattle.std.specs.Cmp.{partial_order_from_total};
    ghost use Rattle.std.specs.Ordering.{as_partial_cmp};
    ghost use Rattle.next_labels.specs.Order.{label_cmp, label_total};

    ghost partial_cmp = { as_partial_cmp label_cmp };

    ghost laws = { partial_order_from_total label_total };

    fn partial_cmp(&self, other: &ListedLabel) -> Option<Ordering> {
        Some(self.compare(other))
    }
}

impl Ord for ListedLabel {
    ghost use Rattle.std.specs.Prelude.{refl};
    ghost use Rattle.next_labels.specs.Order.{label_cmp, label_total};

    ghost cmp = { label_cmp };

    ghost total = { label_total };

    ghost matches_partial_cmp = { λ x y. refl };

    ghost matches_eq = { λ x y. refl };

    fn cmp(&self, other: &ListedLabel) -> Ordering {
        self.compare(other)
    }
}
