//! Whether another run wants the file of the office: such a run has a lock on the turn file.

use libc::types::timespec;
use std::fs::{File, TryLockError};
use std::mem;
use std::os::unix::fs::MetadataExt;

/// For how many milliseconds at least, and at most, a turn has the file before the first look,
/// unless there is nothing to do; between these, for as long as opening the file took.
const LEAST_SLICE: i64 = 20;

const LONGEST_SLICE: i64 = 500;

/// How many milliseconds pass between two looks, while there is more to do.
const PAUSE: i64 = 5;

/// How many milliseconds pass between two looks at the name of the turn file.
const NAME_PAUSE: i64 = 1_000;

/// For how many milliseconds at most clients are answered while the file is unavailable.
const LONGEST_AWAY: i64 = 500;

/// The milliseconds of a clock that never goes back.
fn now() -> i64 {
    let mut time = timespec {
        tv_sec: 0,
        tv_nsec: 0,
    };
    if libc::clock_gettime(libc::CLOCK_MONOTONIC, &mut time) != 0 {
        return 0;
    }
    let seconds = time.tv_sec.wrapping_mul(1_000);
    seconds.wrapping_add(time.tv_nsec / 1_000_000)
}

/// Whether another run has a lock on the file.
fn is_locked(file: &File) -> bool {
    match file.try_lock_shared() {
        Ok(()) => {
            let _ = file.unlock();
            false
        }
        Err(TryLockError::WouldBlock) => true,
        Err(_) => false,
    }
}

/// Whether the file was deleted: a run that wants the office then has a lock on another one.
fn is_deleted(file: &File) -> bool {
    match file.metadata() {
        Ok(found) => found.nlink() == 0,
        Err(_) => false,
    }
}

/// Which other run may want the file of the office.
#[derive(Drop)]
enum Rival {
    Nobody,
    /// Whoever has a lock on this file.
    Locking(File),
    /// One that has the file already.
    Owner,
}

/// A turn with the file of the office: how it sees that another run waits for the file, and when it
/// looks.
#[derive(Drop)]
pub struct Asking {
    rival: Rival,
    /// When it looks next while there is more to do, by `now`; before a turn, when its opening
    /// began.
    next_look: i64,
    /// When it looks next at the name of the turn file.
    next_name: i64,
    /// Whether a request was answered as unavailable: the file is to be opened anew.
    has_failed: bool,
}

impl Asking {
    /// The turn of an office that nobody else can want.
    pub fn never() -> Asking {
        Asking {
            rival: Rival::Nobody,
            next_look: 0,
            next_name: 0,
            has_failed: false,
        }
    }

    /// A turn for which the file of the office is about to be opened. Without a turn file, no run
    /// can be seen to want it.
    pub fn opening(turn_file: Option<File>) -> Asking {
        let Some(file) = turn_file else {
            return Asking::never();
        };
        Asking {
            rival: Rival::Locking(file),
            next_look: now(),
            next_name: 0,
            has_failed: false,
        }
    }

    /// A turn while the file is unavailable: it ends when there is nothing to do, or after
    /// `LONGEST_AWAY`.
    pub(crate) fn away() -> Asking {
        Asking {
            rival: Rival::Owner,
            next_look: now().wrapping_add(LONGEST_AWAY),
            next_name: 0,
            has_failed: false,
        }
    }

    /// Begins the turn: the file is open.
    pub(crate) fn begin(&mut self) {
        let time = now();
        let slice = time.wrapping_sub(self.next_look);
        let slice = slice.max(LEAST_SLICE).min(LONGEST_SLICE);
        self.next_look = time.wrapping_add(slice);
        self.next_name = time.wrapping_add(NAME_PAUSE);
    }

    /// Learns that a request was answered as unavailable: the turn ends at the next look, so that
    /// the file is opened anew.
    pub(crate) fn note_failure(&mut self) {
        self.has_failed = true;
    }

    /// Hands the turn over, and leaves one in which nobody wants the file.
    pub fn take(&mut self) -> Asking {
        mem::replace(self, Asking::never())
    }

    /// Whether anybody can want the file.
    pub(crate) fn may_be(&self) -> bool {
        !matches!(self.rival, Rival::Nobody)
    }

    /// Whether the turn is to end, if there is nothing to do.
    pub(crate) fn looks(&mut self) -> bool {
        let Asking {
            rival,
            next_name,
            has_failed,
            ..
        } = self;
        let file = match rival {
            Rival::Nobody => return false,
            Rival::Owner => return true,
            Rival::Locking(file) => file,
        };
        if *has_failed || is_locked(file) {
            return true;
        }
        let time = now();
        if time < *next_name {
            return false;
        }
        *next_name = time.wrapping_add(NAME_PAUSE);
        is_deleted(file)
    }

    /// Whether the turn is to end, if there is more to do: it looks only now and then.
    pub(crate) fn looks_in_time(&mut self) -> bool {
        if !self.may_be() {
            return false;
        }
        let time = now();
        if time < self.next_look {
            return false;
        }
        self.next_look = time.wrapping_add(PAUSE);
        self.looks()
    }
}
