//! Instances in the order of their names: for `makers`.

ghost use Rattle.std.specs.Prelude.{◌≡◌};
ghost use Rattle.std.specs.Cmp.Lexicographic.{slice_cmp};
ghost use Rattle.std.specs.Ordering.{nat_cmp};

use msc_base::Name;
use std::cmp::Ordering;
use std::marker::Model;

/// The name of an instance, which is compared by its bytes.
///
/// A contract sees the bytes.
#[derive(Drop)]
pub(crate) struct Instance {
    name: Name,
}

impl Model for Instance {
    ghost use Rattle.std.specs.Prelude.{List, ℕ};

    ghost Value = { List ℕ };

    ghost view = { λ i. i.name };
}

impl Instance {
    /// The instance of that name.
    pub(crate) fn new(name: Name) -> Instance
        ensures { result ≡ name }
    {
        Instance { name }
    }

    /// Its name.
    pub(crate) fn into_name(self) -> Name
        ensures { result ≡ self }
    {
        let Instance { name } = self;
        name
    }

    /// By the bytes of the names.
    fn compare(&self, other: &Instance) -> Ordering
        ensures { result ≡ slice_cmp nat_cmp self.now other.now }
    {
        self.name.bytes().cmp(other.name.bytes())
    }
}

impl PartialEq for Instance {
    ghost use Rattle.std.specs.Cmp.{eq_by_cmp_equiv, partial_equiv_from_equiv};
    ghost use Rattle.std.specs.Cmp.Lexicographic.{nat_list_cmp_total, slice_cmp};
    ghost use Rattle.std.specs.Ordering.{eq_by_cmp, nat_cmp};

    ghost eq = { eq_by_cmp (slice_cmp nat_cmp) };

    ghost laws = { partial_equiv_from_equiv (eq_by_cmp_equiv nat_list_cmp_total) };

    fn eq(&self, other: &Instance) -> bool {
        self.compare(other) == Ordering::Equal
    }
}

impl Eq for Instance {
    ghost use Rattle.std.specs.Cmp.{eq_by_cmp_equiv};
    ghost use Rattle.std.specs.Cmp.Lexicographic.{nat_list_cmp_total};

    ghost laws = { eq_by_cmp_equiv nat_list_cmp_total };
}

impl PartialOrd for Instance {
    ghost use Rattle.std.specs.Cmp.{partial_order_from_total};
    ghost use Rattle.std.specs.Cmp.Lexicographic.{nat_list_cmp_total, slice_cmp};
    ghost use Rattle.std.specs.Ordering.{as_partial_cmp, nat_cmp};

    ghost partial_cmp = { as_partial_cmp (slice_cmp nat_cmp) };

    ghost laws = { partial_order_from_total nat_list_cmp_total };

    fn partial_cmp(&self, other: &Instance) -> Option<Ordering> {
        Some(self.compare(other))
    }
}

impl Ord for Instance {
    ghost use Rattle.std.specs.Prelude.{refl};
    ghost use Rattle.std.specs.Cmp.Lexicographic.{nat_list_cmp_total, slice_cmp};
    ghost use Rattle.std.specs.Ordering.{nat_cmp};

    ghost cmp = { slice_cmp nat_cmp };

    ghost total = { nat_list_cmp_total };

    ghost matches_partial_cmp = { λ x y. refl };

    ghost matches_eq = { λ x y. refl };

    fn cmp(&self, other: &Instance) -> Ordering {
        self.compare(other)
    }
}
