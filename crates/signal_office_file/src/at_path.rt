//! Work over the office in the file at a path: the file is opened, used and closed again. While
//! another run has it open, this run waits for up to `wait` seconds. No clause ties a path to what
//! its file holds.

use crate::copying::copied_in;
use crate::ended::Ended;
use crate::migrating::migrate_file;
use crate::noting::CallNotes;
use crate::task::OfficeTask;
use crate::waiting::files_at;
use crate::work::{answered_in, done_in};
use office_http::{ServeFault, Served, Sink, Source};
use signal_office_faults::Fault;
use sqlite_disk::Disk;
use std::alloc::Global;

/// The result of work over the files at a path, or the fault of files that were refused or could
/// not be closed. If they were refused with `Store` though the system refused no call, a note on
/// standard error says what the file holds. Reading it may release its lock, which no write needs
/// any more.
fn told_at<T: Drop, D: Disk + Drop>(notes: &CallNotes<'_>, ended: Ended<T, D>) -> Result<T, Fault> {
    if matches!(ended, Ended::Refused(Fault::Store, _)) {
        notes.say_content();
    }
    ended.told()
}

/// Does a task over the tables of the file at `path`, which are made where there are none, and
/// closes the file. The task writes to `out`. The fault is that of the task, or of a file that was
/// not opened, refused or not closed.
pub fn do_task<Outcome: Drop, T: OfficeTask<Outcome>, W: Sink>(
    rt: &HostRuntime,
    alloc: Global,
    path: &str,
    wait: u32,
    task: &mut T,
    out: &mut W,
) -> Result<Outcome, Fault> {
    let (files, options) = files_at(rt, path, wait)?;
    let notes = CallNotes::new(rt, path);
    let ended = done_in(rt, alloc, notes.on(files), options, task, out);
    told_at(&notes, ended)?
}

/// Answers at most `max_requests` requests of the source over the tables of the file at `path`,
/// which are made where there are none, and closes the file. The answers go to `out`. The fault is
/// that of a file that was not opened, refused or not closed.
pub fn answer_stream<R: Source, W: Sink>(
    rt: &HostRuntime,
    alloc: Global,
    path: &str,
    wait: u32,
    source: &mut R,
    out: &mut W,
    max_requests: u32,
) -> Result<Result<Served, ServeFault>, Fault> {
    let (files, options) = files_at(rt, path, wait)?;
    let notes = CallNotes::new(rt, path);
    let ended = answered_in(alloc, notes.on(files), options, source, out, max_requests);
    told_at(&notes, ended)
}

/// Brings the tables of the file at `path` to today's version, closes the file, and gives how many
/// rows were rewritten. On a fault the tables are as they were, if the file was closed.
pub fn migrate_at(rt: &HostRuntime, alloc: Global, path: &str, wait: u32) -> Result<u128, Fault> {
    let (files, options) = files_at(rt, path, wait)?;
    let notes = CallNotes::new(rt, path);
    told_at(&notes, migrate_file(alloc, notes.on(files), options))?
}

/// Opens the office in the file at `path` and closes it, so that its log is copied into the file,
/// and then writes the bytes of the file to `out`. If the file was closed, the copy fails with
/// `Store` if the file can't be read, `Memory` before any byte is written, or `Write` if `out`
/// fails or takes no byte.
pub fn copy_at<W: Sink>(
    rt: &HostRuntime,
    alloc: Global,
    path: &str,
    wait: u32,
    out: &mut W,
) -> Result<(), Fault> {
    let (files, options) = files_at(rt, path, wait)?;
    let notes = CallNotes::new(rt, path);
    told_at(&notes, copied_in(alloc, notes.on(files), options, out))?
}
