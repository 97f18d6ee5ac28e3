//! The two files of an office, with a note on standard error for each call that the system refuses:
//! it says why a file is not opened, a change is answered 503, or a command ends with `Store`.

ghost use Rattle.std.specs.Prelude.{◌≡◌};

use crate::notes::note_content;
use signal_office_faults::note_system;
use sqlite_disk::{Disk, Files, Tally};
use std::cell::Cell;
use std::io::{self, ErrorKind};

/// The notes on calls that the system refuses on the files at a path.
#[derive(Drop)]
pub(crate) struct CallNotes<'a> {
    rt: &'a HostRuntime,
    path: &'a str,
    /// The kind of error that was noted last. It is noted again only after another kind.
    last: Cell<Option<ErrorKind>>,
}

/// A file of an office, with a note for each call that the system refuses.
#[derive(Drop)]
pub(crate) struct Noting<'n, 'a, D: Disk> {
    inner: D,
    /// What the name of the file has after the path.
    ending: &'static str,
    notes: &'n CallNotes<'a>,
}

impl<'a> CallNotes<'a> {
    /// The notes on the files at a path, before the first.
    pub(crate) fn new(rt: &'a HostRuntime, path: &'a str) -> CallNotes<'a> {
        CallNotes {
            rt,
            path,
            last: Cell::new(None),
        }
    }

    /// The two files, with a note for each call that the system refuses.
    pub(crate) fn on<'n, D: Disk>(&'n self, files: Files<D>) -> Files<Noting<'n, 'a, D>> {
        Files {
            log: Noting {
                inner: files.log,
                ending: "-wal",
                notes: self,
            },
            db: Noting {
                inner: files.db,
                ending: "",
                notes: self,
            },
        }
    }

    /// Says what the file holds, in which no office could be opened, unless the system refused a
    /// call.
    pub(crate) fn say_content(&self) {
        if self.last.get().is_none() {
            note_content(self.rt, self.path);
        }
    }

    /// Says why the system refuses a call on a file. Content that is not as it must be, such as a
    /// file that ends too early, is no refusal.
    fn say(&self, ending: &str, error: io::Error) {
        let is_found = matches!(
            error.kind(),
            ErrorKind::UnexpectedEof | ErrorKind::InvalidInput
        ) && error.raw_os_error().is_none();
        if is_found || self.last.get() == Some(error.kind()) {
            return;
        }
        self.last.set(Some(error.kind()));
        let path = self.path;
        let Ok(name) = format!(in self.rt.alloc(); "{path}{ending}") else {
            return;
        };
        note_system(self.rt, name.as_str(), error);
    }
}

/// The answer of a call. If the system refused it, a note says so.
fn say_refusal<T>(notes: &CallNotes<'_>, ending: &str, answer: io::Result<T>) -> io::Result<T>
    ensures { result ≡ answer }
{
    match answer {
        Ok(value) => Ok(value),
        Err(error) => {
            notes.say(ending, error);
            Err(error)
        }
    }
}

impl<D: Disk> Disk for Noting<'_, '_, D> {
    ghost seen = { λ f. D.Disk.seen f.inner };

    ghost may_leave = { λ f. D.Disk.may_leave f.inner };

    ghost is_usable = { λ f. D.Disk.is_usable f.inner };

    ghost faults = { λ f. D.Disk.faults f.inner };

    ghost tally_of = { λ f. D.Disk.tally_of f.inner };

    ghost is_rotten = { λ f. D.Disk.is_rotten f.inner };

    ghost key_of = { λ f. D.Disk.key_of f.inner };

    ghost is_frozen = { λ f. D.Disk.is_frozen f.inner };

    ghost is_clean = { λ f. D.Disk.is_clean f.inner };

    ghost is_fair = { λ f. D.Disk.is_fair f.inner };

    ghost fair_if_clean = { λ f. D.Disk.fair_if_clean f.inner };

    ghost seen_may_stay = { λ f. D.Disk.seen_may_stay f.inner };

    ghost is_mixing = { λ f. D.Disk.is_mixing f.inner };

    fn mixes(&self) -> bool {
        self.inner.mixes()
    }

    fn key(&self) -> u64 {
        self.inner.key()
    }

    fn tally(&self) -> Tally {
        self.inner.tally()
    }

    fn may_be_used(&self) -> bool {
        self.inner.may_be_used()
    }

    fn len(&mut self) -> io::Result<usize> {
        let answer = self.inner.len();
        say_refusal(self.notes, self.ending, answer)
    }

    fn read_at(&mut self, at: usize, buf: &mut [u8]) -> io::Result<()> {
        let answer = self.inner.read_at(at, buf);
        say_refusal(self.notes, self.ending, answer)
    }

    fn read_checked(&mut self, key: u64, want: u64, at: usize, buf: &mut [u8]) -> io::Result<()> {
        let answer = self.inner.read_checked(key, want, at, buf);
        say_refusal(self.notes, self.ending, answer)
    }

    fn write_at(&mut self, at: usize, bytes: &[u8]) -> io::Result<()> {
        let answer = self.inner.write_at(at, bytes);
        say_refusal(self.notes, self.ending, answer)
    }

    fn set_len(&mut self, len: usize) -> io::Result<()> {
        let answer = self.inner.set_len(len);
        say_refusal(self.notes, self.ending, answer)
    }

    fn sync(&mut self) -> io::Result<()> {
        let answer = self.inner.sync();
        say_refusal(self.notes, self.ending, answer)
    }
}
