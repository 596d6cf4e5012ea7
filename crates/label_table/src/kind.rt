//! Kinds as numbers: for `code` and `key`, and for whoever sorts labels.

ghost use Rattle.std.specs.Prelude.{◌≡◌};
ghost use Rattle.label_table.specs.Keys.{rank};

use msc_base::Kind;

/// The place of a kind in the declaration of kinds.
pub fn kind_rank(kind: Kind) -> u8
    ensures { result ≡ rank kind }
{
    match kind {
        Kind::Output => 0,
        Kind::Input => 1,
        Kind::OutputLost => 2,
        Kind::InputFound => 3,
        Kind::Action => 4,
        Kind::TimerStart => 5,
        Kind::TimerStop => 6,
        Kind::Timeout => 7,
        Kind::Create => 8,
    }
}
