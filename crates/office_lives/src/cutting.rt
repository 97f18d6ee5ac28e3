//! A command that is stopped, or whose file could not be closed, and the run over what is left of
//! its files.

ghost use Rattle.std.specs.Prelude.{◌∷◌, [], IfSome};
ghost use Rattle.sqlite.specs.Files.{image_of};
ghost use Rattle.sqlite.specs.WalReads.{AreClean};
ghost use Rattle.office_http_framing.specs.Serve.{ends_of};
ghost use Rattle.office_tables.specs.Content.{Content};
ghost use Rattle.signal_office_file.specs.Files.{HoldIn, KeepTables};
ghost use Rattle.signal_office_file.specs.Left.{IsCleanFile, LeavesDatabases, MayLeaveOf};
ghost use Rattle.office_lives.specs.Life.{Life, Made, command_to_a_stop, in_order};

use crate::ending::left_after;
use crate::lives::{MOST, Outcome, served_once};
use crate::stopping::stop_office;
use office_http::{Sink, Source};
use signal_office_faults::Fault;
use signal_office_file::{FileLeft, OfficeTask, done_in, open_file};
use sqlite::Options;
use sqlite_disk::{Crash, Disk, Files};
use std::alloc::Global;

/// What a stopped command gave, how the stream after it ended, and the files, closed after the
/// stream.
#[derive(Drop)]
pub struct CutShort<D: Disk, Given> {
    pub done: Result<Given, Fault>,
    pub outcome: Outcome,
    pub files: Files<D>,
}

/// Does a command, stops, and serves a stream of at most `MOST` requests over what a stop leaves of
/// the files. This covers a stop at any moment of the command, seen as a disk that does nothing
/// more from then on. `None` says that the files were refused, or not closed after the stream.
pub fn served_after_a_command<
    D: Crash + Drop,
    Given: Drop,
    T: OfficeTask<Given>,
    R: Source,
    W: Sink,
>(
    rt: &HostRuntime,
    alloc: Global,
    files: Files<D>,
    task: &mut T,
    out: &mut W,
    reader: &mut R,
    writer: &mut W,
) -> Option<CutShort<D, Given>>
    ensures { IfSome result (λ it. AreClean D.Disk it.files.log it.files.db →
        (old : Content) × (last : Content) × HoldIn (image_of D.Disk files) old
        × Life D.Disk old (command_to_a_stop (T.effect task.old task.new).leaves ∷ in_order MOST
        (ends_of (R.told reader.old) (W.told writer.old))
        (ends_of (R.told reader.new) (W.told writer.new)) it.outcome
        ∷ []) last × KeepTables D.Disk it.files last) }
{
    let Ok(mut office) = open_file(alloc, files, Options::new(1)) else {
        return None;
    };
    let done = task.done_with(rt, alloc, &mut office, out);
    let files = stop_office(office);
    let (outcome, files) = served_once(alloc, files, reader, writer)?;
    Some(CutShort {
        done,
        outcome,
        files,
    })
}

/// Does a command over files that cannot be closed after it, and gives what is left of them. `None`
/// says that they were refused, or could be closed.
pub fn done_unclosed<D: Disk + Drop, Given: Drop, T: OfficeTask<Given>, W: Sink>(
    rt: &HostRuntime,
    alloc: Global,
    files: Files<D>,
    task: &mut T,
    out: &mut W,
) -> Option<FileLeft<D>>
    ensures databases { IfSome result (λ left. IsCleanFile left → LeavesDatabases left) }
    ensures made { IfSome result (λ left. IsCleanFile left →
        (old : Content) × HoldIn (image_of D.Disk files) old
        × ((found : Content) → ∥ MayLeaveOf left found ∥₁ →
        Made D.Disk (command_to_a_stop (T.effect task.old task.new).leaves) old found)) }
{
    let ended = done_in(rt, alloc, files, Options::new(1), task, out);
    left_after(ended)
}
