//! Whether joins are the same, wherever they stand: for `alike`.

ghost use Rattle.std.specs.Prelude.{◌≡◌, ◌↔◌, IsTrue};
ghost use Rattle.shared_parts.specs.PartRules.{AreAlikeJoins};

use msc_tree::{Join, JoinEnd};

/// Whether gates are joined with the same.
fn same_end(a: &JoinEnd, b: &JoinEnd) -> bool
    ensures { IsTrue result ↔ (a.now ≡ b.now) }
{
    match (a, b) {
        (JoinEnd::Env(gate), JoinEnd::Env(other)) => gate.same(other),
        (JoinEnd::Reference(name, gate), JoinEnd::Reference(other, end)) => {
            name.same(other) && gate.same(end)
        }
        _ => false,
    }
}

/// Whether the same gate is joined with the same.
fn same_join(a: &Join, b: &Join) -> bool
    ensures { IsTrue result ↔ ((a.now.gate ≡ b.now.gate) × (a.now.to ≡ b.now.to)) }
{
    a.gate.same(&b.gate) && same_end(&a.to, &b.to)
}

/// Whether the same gates are joined with the same, in the same order.
pub fn same_joins(a: &[Join], b: &[Join]) -> bool
    ensures { IsTrue result ↔ AreAlikeJoins a.now b.now }
{
    if a.len() != b.len() {
        return false;
    }
    for index in 0..a.len() {
        if !same_join(&a[index], &b[index]) {
            return false;
        }
    }
    true
}
