//! The shelf of files. The program mscjudge alone uses it; it tells no bytes, so no clause speaks of what a file holds.

ghost use Rattle.std.specs.Prelude.{◌≡◌, ◌≤◌, ◌<◌, ◌+◌, ◌-◌, ◌^◌, ℕ, length, None, Some, IfSome, is_some, false};

use crate::{Failed, Shelf};
use msc_base::Text;
use std::fs;
use std::io::{ErrorKind, Read};
use std::rt::Files;

/// How often a call that was interrupted is tried again.
const TRIES: u32 = 64;

/// The files that the runtime opens, by their paths. It tells no bytes.
///
/// A name that isn't UTF-8 fails to start. A call that the system interrupts is tried 64 times
/// before it fails.
#[derive(Drop)]
pub struct FileShelf<'a, R: Files> {
    rt: &'a R,
    file: Option<R::File>,
    last: Option<Text>,
    broken: bool,
    faults: u64,
}

impl<'a, R: Files> FileShelf<'a, R> {
    /// A shelf that has started nothing.
    pub fn new(rt: &'a R) -> FileShelf<'a, R>
        ensures last { ⟦<FileShelf<'a, R> as Shelf>⟧.last result ≡ None }
        ensures begun { ⟦<FileShelf<'a, R> as Shelf>⟧.begun result ≡ false }
        ensures broken { ⟦<FileShelf<'a, R> as Shelf>⟧.broken result ≡ false }
        ensures faults { ⟦<FileShelf<'a, R> as Shelf>⟧.faults result ≡ 0 }
    {
        FileShelf {
            rt,
            file: None,
            last: None,
            broken: false,
            faults: 0,
        }
    }
}

impl<R: Files> Shelf for FileShelf<'_, R> {
    ghost files = { λ _. None };

    ghost rest = { λ _. None };

    ghost last = { λ s. s.last };

    ghost begun = { λ s. is_some s.file };

    ghost broken = { λ s. s.broken };

    ghost faults = { λ s. s.faults };

    fn start(&mut self, name: Text) -> Result<(), Failed> {
        self.file = open_file(self.rt, name.bytes());
        self.last = Some(name);
        self.broken = self.file.is_none();
        if self.broken {
            self.faults = self.faults.saturating_add(1);
            return Err(Failed);
        }
        Ok(())
    }

    fn read(&mut self, buf: &mut [u8]) -> Result<usize, Failed> {
        if let Some(file) = &mut self.file
            && let Some(count) = read_part(file, buf)
        {
            self.broken = false;
            return Ok(count);
        }
        self.broken = true;
        self.faults = self.faults.saturating_add(1);
        Err(Failed)
    }
}

/// The file at that path, if the name is one and the file opens.
fn open_file<R: Files>(rt: &R, name: &[u8]) -> Option<R::File> {
    let Ok(path) = str::from_utf8(name) else {
        return None;
    };
    fs::open(rt, path).ok()
}

/// One read, tried again where it is interrupted. The count of bytes, if it succeeds.
fn read_part<F: Read>(file: &mut F, buf: &mut [u8]) -> Option<usize>
    ensures { IfSome result (λ n. n ≤ length buf.new) }
{
    for _ in 0..TRIES {
        match file.read(buf) {
            Ok(count) => return Some(count),
            Err(error) => {
                if error.kind() != ErrorKind::Interrupted {
                    return None;
                }
            }
        }
    }
    None
}
