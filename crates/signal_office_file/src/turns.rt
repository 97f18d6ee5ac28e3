//! A task that is done in turns over the office in the file at a path: between two turns the file
//! is closed, and other runs may open it. No clause ties a path to what its file holds.

use crate::ended::Ended;
use crate::notes::note_away;
use crate::noting::CallNotes;
use crate::task::{OfficeTask, TakesTurns};
use crate::waiting::{Notes, OpenedInTurn, Patience, files_in_turn};
use crate::work::done_in;
use office_http::Sink;
use signal_office_faults::{Fault, is_missing};
use std::alloc::Global;
use std::time::Duration;
use std::{fs, thread};

/// How many seconds longer than a command a server waits for a file that it had open before.
const MINUTE: u32 = 60;

/// What came before a turn.
#[derive(Clone, Copy, PartialEq)]
enum Before {
    /// Nothing: if the file is refused now, the task ends.
    Nothing,
    /// Another turn.
    Turn,
    /// A turn for which the file was refused, after one that had it.
    Refusal,
}

/// How long a task with `wait` seconds waits for a turn, and which notes it writes.
fn patience_of(before: Before, wait: u32) -> Patience {
    match before {
        Before::Nothing => Patience::of_seconds(wait, Notes::All),
        Before::Turn => Patience::of_seconds(wait.saturating_add(MINUTE), Notes::Refusal),
        Before::Refusal => Patience::of_seconds(1, Notes::Nothing),
    }
}

/// Whether a path leads to a file that is not empty; false where the system does not say.
fn has_bytes(rt: &HostRuntime, path: &str) -> bool {
    match fs::metadata(rt, path) {
        Ok(found) => found.len() > 0,
        Err(_) => false,
    }
}

/// Whether the files of an office were made just now: both are empty.
fn are_new(rt: &HostRuntime, alloc: Global, path: &str) -> Result<bool, Fault> {
    let log = format!(in alloc; "{path}-wal")?;
    Ok(!has_bytes(rt, path) && !has_bytes(rt, log.as_str()))
}

/// The files of the office at a path, for the next turn. Only the first turn may make them: later
/// the fault is `File` if they are missing, also if they vanish while the task waits for its turn.
fn files_again(
    rt: &HostRuntime,
    alloc: Global,
    path: &str,
    wait: u32,
    before: Before,
) -> Result<OpenedInTurn, Fault> {
    if before == Before::Nothing {
        return files_in_turn(rt, path, patience_of(before, wait));
    }
    if is_missing(rt, alloc, path)? {
        return Err(Fault::File);
    }
    let opened = files_in_turn(rt, path, patience_of(before, wait))?;
    if are_new(rt, alloc, path)? {
        return Err(Fault::File);
    }
    Ok(opened)
}

/// How a turn ended.
#[derive(Drop)]
enum TurnEnd<T> {
    /// It was the last one, and the task gave this.
    Last(Result<T, Fault>),
    /// The task goes on in another one.
    GoesOn,
    /// There was no turn, since the file was refused.
    Refused(Fault),
}

/// Says what a file holds, if it was refused with `Store`, unless that was said before or the
/// system refused a call on it. Reading it may release its lock, which no write needs any more.
fn note_refused(notes: &CallNotes<'_>, fault: &Fault, before: Before) {
    if before != Before::Refusal && matches!(fault, Fault::Store) {
        notes.say_content();
    }
}

/// Does a task for one turn over the tables of the file at a path, and closes the file. The lock on
/// the file is released here in every case, so that another run may open it.
fn take_turn<Outcome: Drop, T: OfficeTask<Outcome> + TakesTurns, W: Sink>(
    rt: &HostRuntime,
    alloc: Global,
    notes: &CallNotes<'_>,
    path: &str,
    wait: u32,
    before: Before,
    task: &mut T,
    out: &mut W,
) -> TurnEnd<Outcome> {
    let (files, options, turn) = match files_again(rt, alloc, path, wait, before) {
        Ok(opened) => opened,
        Err(fault) => return TurnEnd::Refused(fault),
    };
    task.begin_turn(turn.into_file());
    let ended = done_in(rt, alloc, notes.on(files), options, task, out);
    let is_done = task.is_done();
    match ended {
        Ended::Closed(done, _files) => after_closing(done, is_done),
        Ended::Unclosed(fault, _left) => after_failure(fault, is_done),
        Ended::Refused(fault, _left) => {
            note_refused(notes, &fault, before);
            TurnEnd::Refused(fault)
        }
    }
}

/// How a turn ended whose file was closed: it was the last if the task is done or failed.
fn after_closing<T: Drop>(done: Result<T, Fault>, is_done: bool) -> TurnEnd<T> {
    if done.is_ok() && !is_done {
        return TurnEnd::GoesOn;
    }
    TurnEnd::Last(done)
}

/// How a turn ended whose file could not be closed: the task goes on with the file opened anew,
/// unless it is done or the fault is neither `Store` nor `Memory`.
fn after_failure<T>(fault: Fault, is_done: bool) -> TurnEnd<T> {
    if !is_done && matches!(fault, Fault::Store | Fault::Memory) {
        return TurnEnd::GoesOn;
    }
    TurnEnd::Last(Err(fault))
}

/// Has a task whose file was refused answer that the office is unavailable, and waits a second. The
/// first time, a note says why. Gives whether the task is to go on.
fn stays<T: TakesTurns>(
    rt: &HostRuntime,
    alloc: Global,
    path: &str,
    before: Before,
    fault: &Fault,
    task: &mut T,
) -> bool {
    if before == Before::Turn {
        note_away(rt, path, fault);
    }
    task.answer_unavailable(alloc);
    if task.is_done() {
        return false;
    }
    thread::sleep(rt, Duration::from_secs(1));
    true
}

/// Does a task in turns over the tables of the file at `path`, which are made in the first turn if
/// there are none. Each turn opens the file and closes it; between turns the task waits for work
/// without the file, and then for its turn: for the first one up to `wait` seconds, for later ones
/// a minute longer. If the file is refused for a later turn, since it was removed, has another
/// version or another run keeps it, a note says so, the task answers that the office is
/// unavailable, and the file is tried again each second. A database that failed is dropped and
/// opened again in the next turn. The fault is that of the task, of the first turn's file, or of a
/// file that was refused or not closed at the end.
pub fn do_in_turns<Outcome: Drop, T: OfficeTask<Outcome> + TakesTurns, W: Sink>(
    rt: &HostRuntime,
    alloc: Global,
    path: &str,
    wait: u32,
    task: &mut T,
    out: &mut W,
) -> Result<Outcome, Fault> {
    let notes = CallNotes::new(rt, path);
    let mut before = Before::Nothing;
    for _ in 0..u64::MAX {
        match take_turn(rt, alloc, &notes, path, wait, before, task, out) {
            TurnEnd::Last(done) => return done,
            TurnEnd::GoesOn => {
                before = Before::Turn;
                task.await_work();
            }
            TurnEnd::Refused(fault) => {
                if before == Before::Nothing || !stays(rt, alloc, path, before, &fault, task) {
                    return Err(fault);
                }
                before = Before::Refusal;
            }
        }
    }
    Err(Fault::Store)
}
