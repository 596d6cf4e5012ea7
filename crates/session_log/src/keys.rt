//! The keys of a log's sessions, each with the number of its session.

ghost use Rattle.std.specs.Prelude.{◌≡◌, [], ℕ, List, IfOk, IfSome, OnErr, MatchOption, Some, position};
ghost use Rattle.std.specs.Str.{bytes_eq};
ghost use Rattle.msc_base.specs.NameTables.{with_name};
ghost use Rattle.session_log.specs.Sessions.{HasRoom};

use msc_base::{NameTable, NoMemory};
use std::alloc::Global;
use std::marker::Model;

/// The most sessions that a log may have.
pub const MOST_SESSIONS: usize = 1_000;

/// The keys of sessions, each once, in the order of their first lines.
#[derive(Drop)]
pub struct SessionKeys {
    names: NameTable,
}

impl Model for SessionKeys {
    ghost use Rattle.std.specs.Prelude.{◌≤◌, ℕ, List, length};
    ghost use Rattle.session_log.specs.declared.keys.TheConstants.{MOST_SESSIONS};

    ghost Value = { List (List ℕ) };

    ghost view = { λ k. k.names };

    ghost invariant = { λ k. length k.names ≤ MOST_SESSIONS };
}

impl SessionKeys {
    /// No keys. It takes no memory.
    pub fn new(alloc: Global) -> SessionKeys
        ensures { result ≡ [] }
    {
        SessionKeys {
            names: NameTable::new(alloc),
        }
    }

    /// The number of this key's session. The key is added where it is new, if there is room for it. After want of memory the keys are
    /// as they were.
    pub fn session_of(&mut self, alloc: Global, key: &[u8]) -> Result<Option<usize>, NoMemory>
        ensures room { IfOk result (λ found. MatchOption found (HasRoom self.old key.now → ⊥) (λ _. HasRoom self.old key.now)) }
        ensures keys { IfOk result (λ found. MatchOption found (self.new ≡ self.old) (λ _. self.new ≡ with_name self.old key.now)) }
        ensures err { OnErr result (self.new ≡ self.old) }
        ensures number { IfOk result (λ found. IfSome found (λ session. position (bytes_eq key.now) self.new ≡ Some session)) }
    {
        if let Some(session) = self.names.number_of(key) {
            return Ok(Some(session));
        }
        let session = self.names.len();
        if session >= MOST_SESSIONS {
            return Ok(None);
        }
        self.names.add(alloc, key)?;
        Ok(Some(session))
    }
}
