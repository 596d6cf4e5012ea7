//! What takes the bytes of an entry: `reading` hands them on.

ghost use Rattle.std.specs.Prelude.{◌≡◌, ◌≤◌, ◌++◌, ℕ, List, length, IfOk, MatchOption};

use msc_base::NoMemory;

/// Takes the bytes of an entry, piece by piece.
pub trait Consumer: Sized {
    /// Why it takes no more.
    type Refusal: Drop;

    /// What it may be made for.
    ghost Setting: { Type 0 };

    /// It was made for this, and has taken these bytes.
    ghost has_taken: { Setting → List ℕ → Self → Type 0 };

    /// What was made for this refuses these bytes so.
    ghost refuses: { Setting → List ℕ → Self.Refusal → Type 0 };

    /// How many bytes it has taken.
    ghost count: { Self → ℕ };

    /// How many it takes at most.
    ghost most: { ℕ };

    /// As many are counted as have been taken, and no more than may be.
    ghost counts: { (setting : Setting) (bytes : List ℕ) (it : Self) → has_taken setting bytes it → (count it ≡ length bytes) × (count it ≤ most) };

    /// Takes the next piece, or says why bytes that begin so are refused, whatever follows.
    fn take(&mut self, piece: &[u8]) -> Result<Option<Self::Refusal>, NoMemory>
        ensures { (setting : Setting) (bytes : List ℕ) → has_taken setting bytes self.old
            → IfOk result (λ found. MatchOption found (has_taken setting (bytes ++ piece.now) self.new)
            (λ refusal. (more : List ℕ) → refuses setting ((bytes ++ piece.now) ++ more) refusal)) };
}
