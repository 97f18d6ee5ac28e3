//! Opens the two files of an office at a path, once it is this run's turn and no other run has them
//! open. It waits for both, up to the seconds of the caller.

ghost use Rattle.std.specs.Prelude.{◌≡◌, ◌<◌, ◌↔◌, IfErr, IsTrue, IsFalse};

use crate::notes::{note_name, note_random, note_refusal, note_wait};
use crate::turn::Turn;
use signal_office_faults::Fault;
use sqlite::{FileFrom, Options, Wary};
use sqlite_disk::Files;
use sqlite_std_file::OpenError;
use std::hash::{BuildHasher, RandomState};
use std::io::{self, ErrorKind};
use std::thread;
use std::time::{Duration, Instant};

/// The two files at a path. `Wary` stands for what they held as they were opened, which no clause
/// ties to the path.
pub(crate) type FilesAtPath = Files<FileFrom<Wary>>;

/// How many milliseconds pass between two tries.
const PAUSE: u64 = 2;

/// How many microseconds a second has.
const SECOND: u128 = 1_000_000;

/// Which notes are written on files that can't be opened at once.
#[derive(Clone, Copy, PartialEq)]
pub(crate) enum Notes {
    /// After a second, that this run waits for another; and why the files are refused.
    All,
    /// Why the files are refused.
    Refusal,
    /// None.
    Nothing,
}

/// The time for which a run waits for others, in microseconds.
#[derive(Clone, Copy)]
pub(crate) struct Patience {
    left: u128,
    waited: u128,
    notes: Notes,
}

impl Patience {
    /// So many seconds, with these notes.
    pub(crate) fn of_seconds(seconds: u32, notes: Notes) -> Patience {
        Patience {
            left: Duration::from_secs(u64::from(seconds)).as_micros(),
            waited: 0,
            notes,
        }
    }

    /// Whether a note has said that this run waits for another.
    fn was_told(&self) -> bool {
        self.notes == Notes::All && self.waited >= SECOND
    }
}

/// The microseconds since then.
fn passed_since(rt: &HostRuntime, then: io::Result<Instant>) -> io::Result<u128> {
    Ok(then?.elapsed(rt)?.as_micros())
}

/// Waits a moment for another run. When a second of waiting is over, a note says so, once.
fn wait_a_moment(rt: &HostRuntime, path: &str, patience: &mut Patience)
    ensures { 0 < patience.old.left → patience.new.left < patience.old.left }
{
    let begun = Instant::now(rt);
    thread::sleep(rt, Duration::from_millis(PAUSE));
    let passed = match passed_since(rt, begun) {
        Ok(passed) => passed.saturating_add(1),
        Err(_) => SECOND,
    };
    let was_told = patience.was_told();
    patience.left = patience.left.saturating_sub(passed);
    patience.waited = patience.waited.saturating_add(passed);
    if patience.was_told() && !was_told {
        note_wait(rt, path);
    }
}

/// Waits until it is this run's turn, as long as time is left, and gives whether it is.
fn await_turn(rt: &HostRuntime, path: &str, turn: &Turn, patience: &mut Patience) -> bool
    ensures { IsFalse result → patience.new.left ≡ 0 }
{
    while turn.is_taken() {
        if patience.left == 0 {
            return false;
        }
        wait_a_moment(rt, path, patience);
    }
    true
}

/// Whether to try again to open files: if another run has them open, and time is left.
fn tries_again(error: &OpenError, left: u128) -> bool
    ensures { IsTrue result ↔ ((error.now ≡ OpenError.Busy) × (0 < left)) }
{
    match error {
        OpenError::Busy => left > 0,
        _ => false,
    }
}

/// The two files at a path, which are made where they are missing. While another run has them open,
/// this run tries again, as long as time is left.
fn open_when_free(
    rt: &HostRuntime,
    path: &str,
    patience: &mut Patience,
) -> Result<FilesAtPath, OpenError>
    // The error is Busy only when no time is left.
    ensures waited { IfErr result (λ why. why ≡ OpenError.Busy → patience.new.left ≡ 0) }
{
    loop {
        let error = match sqlite_std_file::open(rt, path, Wary) {
            Ok(files) => return Ok(files),
            Err(error) => error,
        };
        if !tries_again(&error, patience.left) {
            return Err(error);
        }
        wait_a_moment(rt, path, patience);
    }
}

/// Opens the two files at a path in this run's turn, and then gives up the turn.
fn open_in_turn(
    rt: &HostRuntime,
    path: &str,
    turn: &Turn,
    patience: &mut Patience,
) -> Result<FilesAtPath, OpenError>
    ensures waited { IfErr result (λ why. why ≡ OpenError.Busy → patience.new.left ≡ 0) }
{
    if !await_turn(rt, path, turn, patience) {
        return Err(OpenError::Busy);
    }
    let opened = open_when_free(rt, path, patience);
    turn.let_go();
    opened
}

/// The fault that is reported of files that were not opened: `Memory` if memory was refused, else
/// `Store`.
fn fault_of_refusal(error: &OpenError) -> Fault {
    match error {
        OpenError::OutOfMemory => Fault::Memory,
        OpenError::Io(error) if error.kind() == ErrorKind::OutOfMemory => Fault::Memory,
        _ => Fault::Store,
    }
}

/// The options of the database: a random number for the salts of its log.
fn options(rt: &HostRuntime) -> io::Result<Options> {
    Ok(Options::new(RandomState::new(rt)?.hash_one(&0u8)))
}

/// Files that were opened at a path, the options of their database, and the turn in which they were
/// opened, which was given up.
pub(crate) type OpenedInTurn = (FilesAtPath, Options, Turn);

/// The two files at a path, which are made where they are missing. While it is the turn of another
/// run, or one has them open, this run waits, up to its patience. The fault is `Memory` if memory
/// was refused, else `Store`, also where SQLite does not take the path as the name of a file, or
/// the system gives no random number.
pub(crate) fn files_in_turn(
    rt: &HostRuntime,
    path: &str,
    patience: Patience,
) -> Result<OpenedInTurn, Fault> {
    if path == ":memory:" || path.starts_with("file:") {
        note_name(rt, path);
        return Err(Fault::Store);
    }
    let options = match options(rt) {
        Ok(options) => options,
        Err(error) => {
            note_random(rt, error);
            return Err(Fault::Store);
        }
    };
    let turn = Turn::at(rt, path);
    let mut patience = patience;
    match open_in_turn(rt, path, &turn, &mut patience) {
        Ok(files) => Ok((files, options, turn)),
        Err(error) => {
            if patience.notes != Notes::Nothing {
                note_refusal(rt, path, &error, patience.was_told());
            }
            Err(fault_of_refusal(&error))
        }
    }
}

/// The two files at a path, which are made where they are missing, for a run that waits for up to
/// `wait` seconds. The faults are those of `files_in_turn`.
pub(crate) fn files_at(
    rt: &HostRuntime,
    path: &str,
    wait: u32,
) -> Result<(FilesAtPath, Options), Fault> {
    let patience = Patience::of_seconds(wait, Notes::All);
    let (files, options, _turn) = files_in_turn(rt, path, patience)?;
    Ok((files, options))
}
