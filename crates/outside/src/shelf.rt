//! What msc_cmd asks of the outside: entries that are read, and what takes bytes. Which calls fail it leaves open.

ghost use Rattle.std.specs.Prelude.{◌≡◌, ◌<◌, ◌≤◌, List, ℕ, Bool, length, take, IsTrue, IfOk, OnOk, OnErr, Option, Some, is_ok, is_err};
ghost use Rattle.std.specs.Io.KnownBytes.{Appends, Keeps};
ghost use Rattle.outside.specs.Causes.{HasCause};
ghost use Rattle.outside.specs.Shelves.{Files, Opens, MovesKnown};

use msc_base::Text;

/// A call of a shelf or a sink that failed.
#[derive(Clone, Copy, Debug, PartialEq, Eq)]
pub struct Failed;

/// Entries that are read by their names.
pub trait Shelf {
    /// The entries, where they are told.
    ghost files: { Self → Option Files };

    /// What is left of the entry that was started last, where it is told.
    ghost rest: { Self → Option (List ℕ) };

    /// The name that was given to the last start.
    ghost last: { Self → Option (List ℕ) };

    /// Whether that start answered Ok.
    ghost begun: { Self → Bool };

    /// Whether the last call failed.
    ghost broken: { Self → Bool };

    /// How many calls have failed.
    ghost faults: { Self → ℕ };

    /// Gives up the entry that was being read, and begins this one.
    fn start(&mut self, name: Text) -> Result<(), Failed>
        ensures files { files self.new ≡ files self.old }
        ensures last { last self.new ≡ Some name }
        ensures begun { begun self.new ≡ is_ok result }
        ensures broken { broken self.new ≡ is_err result }
        ensures rest { OnOk result (Opens (files self.old) name (rest self.new)) }
        ensures cause { HasCause (faults self.old) (faults self.new) result };

    /// Moves a part of what is left into the prefix of the buffer.
    fn read(&mut self, buf: &mut [u8]) -> Result<usize, Failed>
        requires { IsTrue (begun self.old) }
        ensures files { files self.new ≡ files self.old }
        ensures last { last self.new ≡ last self.old }
        ensures begun { begun self.new ≡ begun self.old }
        ensures broken { broken self.new ≡ is_err result }
        ensures bound { IfOk result (λ n. n ≤ length buf.new) }
        ensures bytes { IfOk result (λ n. MovesKnown n (rest self.old) (rest self.new) buf.old buf.new) }
        ensures kept { OnErr result (Keeps (rest self.old) (rest self.new)) }
        ensures cause { HasCause (faults self.old) (faults self.new) result };
}

/// What takes bytes.
pub trait Sink {
    /// The bytes that were written, where they are told.
    ghost written: { Self → Option (List ℕ) };

    /// How many calls have failed.
    ghost faults: { Self → ℕ };

    /// Appends a part of the piece, and says how long it is.
    fn write(&mut self, piece: &[u8]) -> Result<usize, Failed>
        ensures bound { IfOk result (λ n. n ≤ length piece.now) }
        ensures takes { IfOk result (λ n. 0 < length piece.now → 0 < n) }
        ensures bytes { IfOk result (λ n. Appends (written self.old) (written self.new) (take n piece.now)) }
        ensures kept { OnErr result (Keeps (written self.old) (written self.new)) }
        ensures cause { HasCause (faults self.old) (faults self.new) result };
}
