//! Terms with their codes beside them, of which sorted sets are made: for `found` and `gathered`.

ghost use Rattle.std.specs.Prelude.{◌≡◌};
ghost use Rattle.chart_term.specs.Order.{tree_cmp};

use chart_term::Term;
use std::cmp::Ordering;
use std::marker::Model;

/// A term with its code beside it. The order of terms begins with the codes, so a set mostly compares what it holds itself, and
/// looks at no node.
///
/// A contract sees the term.
#[derive(Drop)]
pub(crate) struct CodedTerm {
    code: u64,
    term: Term,
}

impl Model for CodedTerm {
    ghost use Rattle.std.specs.Prelude.{◌≡◌};
    ghost use Rattle.chart_term.specs.Codes.{coded_tree};
    ghost use Rattle.chart_term.specs.NormalForms.{numbers};
    ghost use Rattle.chart_term.specs.Order.{numbers_code};
    ghost use Rattle.chart_term.specs.Terms.{Tree};

    ghost Value = { Tree };

    ghost coded = { coded_tree };

    ghost view = { λ c. c.term };

    ghost invariant = { λ c. c.code ≡ numbers_code (numbers c.term) };
}

impl CodedTerm {
    /// The term with its code.
    pub(crate) fn new(term: Term) -> CodedTerm
        ensures { result ≡ term }
    {
        let code = term.facts().code;
        CodedTerm { code, term }
    }

    /// The term alone.
    pub(crate) fn into_term(self) -> Term
        ensures { result ≡ self }
    {
        let CodedTerm { term, .. } = self;
        term
    }

    /// By code, then as the terms.
    fn compare(&self, other: &CodedTerm) -> Ordering
        ensures { result ≡ tree_cmp self.now other.now }
    {
        match self.code.cmp(&other.code) {
            Ordering::Equal => self.term.cmp(&other.term),
            order => order,
        }
    }
}

impl PartialEq for CodedTerm {
    ghost use Rattle.std.specs.Cmp.{eq_by_cmp_equiv, partial_equiv_from_equiv};
    ghost use Rattle.std.specs.Ordering.{eq_by_cmp};
    ghost use Rattle.chart_term.specs.Order.{tree_cmp};
    ghost use Rattle.chart_term.specs.OrderLaws.{tree_total};

    ghost eq = { eq_by_cmp tree_cmp };

    ghost laws = { partial_equiv_from_equiv (eq_by_cmp_equiv tree_total) };

    fn eq(&self, other: &CodedTerm) -> bool {
        self.compare(other) == Ordering::Equal
    }
}

impl Eq for CodedTerm {
    ghost use Rattle.std.specs.Cmp.{eq_by_cmp_equiv};
    ghost use Rattle.chart_term.specs.OrderLaws.{tree_total};

    ghost laws = { eq_by_cmp_equiv tree_total };
}

impl PartialOrd for CodedTerm {
    ghost use Rattle.std.specs.Cmp.{partial_order_from_total};
    ghost use Rattle.std.specs.Ordering.{as_partial_cmp};
    ghost use Rattle.chart_term.specs.Order.{tree_cmp};
    ghost use Rattle.chart_term.specs.OrderLaws.{tree_total};

    ghost partial_cmp = { as_partial_cmp tree_cmp };

    ghost laws = { partial_order_from_total tree_total };

    fn partial_cmp(&self, other: &CodedTerm) -> Option<Ordering> {
        Some(self.compare(other))
    }
}

impl Ord for CodedTerm {
    ghost use Rattle.std.specs.Prelude.{refl};
    ghost use Rattle.chart_term.specs.Order.{tree_cmp};
    ghost use Rattle.chart_term.specs.OrderLaws.{tree_total};

    ghost cmp = { tree_cmp };

    ghost total = { tree_total };

    ghost matches_partial_cmp = { λ x y. refl };

    ghost matches_eq = { λ x y. refl };

    fn cmp(&self, other: &CodedTerm) -> Ordering {
        self.compare(other)
    }
}
