//! A task or a stream of requests over the two files of an office, which are opened for it and
//! closed after it.

ghost use Rattle.std.specs.Prelude.{◌≡◌};
ghost use Rattle.office_http_framing.specs.Serve.{ends_of};
ghost use Rattle.signal_office_file.specs.Ended.{EndsOver, stream_work, task_work};

use crate::ended::{Ended, first_fault};
use crate::opening::{close_office, open_file};
use crate::serving::serve_file;
use crate::task::OfficeTask;
use office_http::{ServeFault, Served, Sink, Source};
use signal_office_faults::Fault;
use sqlite::Options;
use sqlite_disk::{Disk, Files};
use std::alloc::Global;

/// Does a task over the tables in the two files, which are made where there are none, and closes
/// the files. The task writes to `out`.
pub fn done_in<D: Disk + Drop, Outcome: Drop, T: OfficeTask<Outcome>, W: Sink>(
    rt: &HostRuntime,
    alloc: Global,
    files: Files<D>,
    options: Options,
    task: &mut T,
    out: &mut W,
) -> Ended<Result<Outcome, Fault>, D>
    // Where the files were refused, the task did nothing, and the output took nothing.
    ensures { EndsOver files (task_work (T.effect task.old task.new)
        ((task.new ≡ task.old) × (out.new ≡ out.old))) result }
{
    let mut office = match open_file(alloc, files, options) {
        Ok(office) => office,
        Err((fault, left)) => return Ended::Refused(fault, left),
    };
    let done = task.done_with(rt, alloc, &mut office, out);
    match close_office(office) {
        Ok(files) => Ended::Closed(done, files),
        Err((fault, left)) => Ended::Unclosed(first_fault(done, fault), left),
    }
}

/// Answers at most `max_requests` requests of the source over the tables in the two files, which
/// are made where there are none, and closes the files. A change that was answered, and not by 503,
/// is in the files before they are closed.
pub fn answered_in<D: Disk + Drop, R: Source, W: Sink>(
    alloc: Global,
    files: Files<D>,
    options: Options,
    source: &mut R,
    out: &mut W,
    max_requests: u32,
) -> Ended<Result<Served, ServeFault>, D>
    ensures { EndsOver files (stream_work max_requests
        (ends_of (R.told source.old) (W.told out.old))
        (ends_of (R.told source.new) (W.told out.new))
        ((source.new ≡ source.old) × (out.new ≡ out.old))) result }
{
    let (office, served) = match serve_file(alloc, files, options, source, out, max_requests) {
        Ok(served) => served,
        Err((fault, left)) => return Ended::Refused(fault, left),
    };
    match close_office(office) {
        Ok(files) => Ended::Closed(served, files),
        Err((fault, left)) => Ended::Unclosed(first_fault(served, fault), left),
    }
}
