//! A command between two streams, over the same files.

ghost use Rattle.std.specs.Prelude.{◌∷◌, [], IfSome};
ghost use Rattle.sqlite.specs.Files.{image_of};
ghost use Rattle.sqlite.specs.WalReads.{AreClean};
ghost use Rattle.office_http_framing.specs.Serve.{ends_of};
ghost use Rattle.office_tables.specs.Content.{Content};
ghost use Rattle.signal_office_file.specs.Files.{HoldIn, KeepTables};
ghost use Rattle.office_lives.specs.Life.{Life, command, in_order};

use crate::ending::closed_after;
use crate::lives::{MOST, Outcome, served_once};
use office_http::{Sink, Source};
use signal_office_faults::Fault;
use signal_office_file::{OfficeTask, done_in};
use sqlite::Options;
use sqlite_disk::{Disk, Files};
use std::alloc::Global;

/// How two streams ended, what the command between them gave, and the files, closed after each of
/// the three.
#[derive(Drop)]
pub struct Around<D: Disk, Given> {
    pub first: Outcome,
    pub done: Result<Given, Fault>,
    pub second: Outcome,
    pub files: Files<D>,
}

/// Does a task by the office over the tables in the two files, and closes them. `None` says that
/// they were refused or could not be closed.
pub(crate) fn done_once<D: Disk + Drop, Given: Drop, T: OfficeTask<Given>, W: Sink>(
    rt: &HostRuntime,
    alloc: Global,
    files: Files<D>,
    task: &mut T,
    out: &mut W,
) -> Option<(Result<Given, Fault>, Files<D>)>
    ensures clean { IfSome result (λ it. AreClean D.Disk it.1.log it.1.db →
        AreClean D.Disk files.log files.db) }
    ensures made { IfSome result (λ it. AreClean D.Disk it.1.log it.1.db →
        (old : Content) × (new : Content) × HoldIn (image_of D.Disk files) old
        × (T.effect task.old task.new).does old it.0 new
        × KeepTables D.Disk it.1 new) }
{
    let ended = done_in(rt, alloc, files, Options::new(1), task, out);
    closed_after(ended)
}

/// Serves a first stream, does a command over the files that came back, and serves a second stream
/// over those that came back from the command; each stream is of at most `MOST` requests. The files
/// are closed each time. `None` says that at one of these steps they were refused or could not be
/// closed.
pub fn served_around<D: Disk + Drop, Given: Drop, T: OfficeTask<Given>, R: Source, W: Sink>(
    rt: &HostRuntime,
    alloc: Global,
    files: Files<D>,
    first_reader: &mut R,
    first_writer: &mut W,
    task: &mut T,
    out: &mut W,
    second_reader: &mut R,
    second_writer: &mut W,
) -> Option<Around<D, Given>>
    ensures { IfSome result (λ it. AreClean D.Disk it.files.log it.files.db →
        (old : Content) × (last : Content) × HoldIn (image_of D.Disk files) old
        × Life D.Disk old (in_order MOST
        (ends_of (R.told first_reader.old) (W.told first_writer.old))
        (ends_of (R.told first_reader.new) (W.told first_writer.new)) it.first
        ∷ command (λ found made. (T.effect task.old task.new).does found it.done made)
        ∷ in_order MOST
        (ends_of (R.told second_reader.old) (W.told second_writer.old))
        (ends_of (R.told second_reader.new) (W.told second_writer.new)) it.second
        ∷ []) last × KeepTables D.Disk it.files last) }
{
    let (first, files) = served_once(alloc, files, first_reader, first_writer)?;
    let (done, files) = done_once(rt, alloc, files, task, out)?;
    let (second, files) = served_once(alloc, files, second_reader, second_writer)?;
    Some(Around {
        first,
        done,
        second,
        files,
    })
}
