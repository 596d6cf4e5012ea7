//! A pair of event numbers as an item of a sequence.

ghost use Rattle.std.specs.Prelude.{◌≡◌};

use msc_base::Pair;
use std::marker::Model;

/// A pair of a list.
#[derive(Drop)]
pub struct Tie {
    pair: Pair,
}

impl Model for Tie {
    ghost use Rattle.msc_base.specs.declared.label.Pair.{Pair};

    ghost Value = { Pair };

    ghost view = { λ t. t.pair };
}

impl Tie {
    /// The item of the pair.
    pub(crate) fn new(pair: Pair) -> Tie
        ensures { result ≡ pair }
    {
        Tie { pair }
    }

    /// The pair.
    pub fn pair(&self) -> Pair
        ensures { result ≡ self.now }
    {
        self.pair
    }
}
