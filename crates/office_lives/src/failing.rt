//! Runs whose files could not be closed, and the run over what is left of them.

ghost use Rattle.std.specs.Prelude.{IfSome};
ghost use Rattle.sqlite.specs.Files.{image_of};
ghost use Rattle.sqlite.specs.WalReads.{AreClean};
ghost use Rattle.office_http_framing.specs.Serve.{ends_of};
ghost use Rattle.office_tables.specs.Content.{Content};
ghost use Rattle.signal_office_file.specs.Files.{HoldIn, KeepTables};
ghost use Rattle.signal_office_file.specs.Left.{IsCleanFile, LeavesDatabases, MayLeaveOf};
ghost use Rattle.office_lives.specs.Life.{IsNumbered, Made, in_order, unclosed};

use crate::ending::left_after;
use crate::lives::{MOST, Outcome, served_once};
use crate::stopping::abandon_files;
use office_http::{Sink, Source};
use signal_office_file::{FileLeft, answered_in};
use sqlite::Options;
use sqlite_disk::{Crash, Disk, Files};
use std::alloc::Global;

/// Serves a stream of at most `MOST` requests over files that cannot be closed after it, and gives
/// what is left of them. `None` says that they were refused, or could be closed.
pub fn served_unclosed<D: Disk + Drop, R: Source, W: Sink>(
    alloc: Global,
    files: Files<D>,
    reader: &mut R,
    writer: &mut W,
) -> Option<FileLeft<D>>
    ensures databases { IfSome result (λ left. IsCleanFile left → LeavesDatabases left) }
    ensures made { IfSome result (λ left. IsCleanFile left → (found : Content) →
        ∥ MayLeaveOf left found ∥₁ → (old : Content) × HoldIn (image_of D.Disk files) old
        × Made D.Disk (unclosed MOST (ends_of (R.told reader.old) (W.told writer.old))
        (ends_of (R.told reader.new) (W.told writer.new))) old found) }
{
    let ended = answered_in(alloc, files, Options::new(1), reader, writer, MOST);
    left_after(ended)
}

/// Serves a stream of at most `MOST` requests over what a run left of files that it could not
/// close, as an opening finds them after the process of that run ended. `None` says that no
/// database was left, or that the files were refused or could not be closed.
pub fn served_over<D: Crash + Drop, R: Source, W: Sink>(
    alloc: Global,
    left: FileLeft<D>,
    reader: &mut R,
    writer: &mut W,
) -> Option<(Outcome, Files<D>)>
    ensures clean { IfSome result (λ it. AreClean D.Disk it.1.log it.1.db → IsCleanFile left) }
    ensures made { IfSome result (λ it. AreClean D.Disk it.1.log it.1.db →
        LeavesDatabases left → IsNumbered left →
        (found : Content) × (last : Content) × ∥ MayLeaveOf left found ∥₁
        × Made D.Disk (in_order MOST (ends_of (R.told reader.old) (W.told writer.old))
        (ends_of (R.told reader.new) (W.told writer.new)) it.0) found last
        × KeepTables D.Disk it.1 last) }
{
    let files = abandon_files(left)?;
    let (outcome, files) = served_once(alloc, files, reader, writer)?;
    Some((outcome, files))
}
