//! Two runs over the same files: two streams, with the files closed or the first run stopped in
//! between; or a migration and a stream.

ghost use Rattle.std.specs.Prelude.{◌∷◌, [], IfSome, List};
ghost use Rattle.sqlite.specs.Files.{image_of};
ghost use Rattle.sqlite.specs.WalReads.{AreClean};
ghost use Rattle.office_http_framing.specs.Serve.{ends_of};
ghost use Rattle.office_tables.specs.Content.{Content};
ghost use Rattle.office_tables_shelf.specs.Cells.{Cell};
ghost use Rattle.signal_office_file.specs.Files.{HoldIn, KeepTables};
ghost use Rattle.office_lives.specs.Life.{HoldFormerly, Life, Made, in_order, migrated, to_a_stop};

use crate::ending::closed_after;
use crate::stopping::stop_office;
use office_http::{ServeFault, Served, Sink, Source};
use signal_office_file::{Ended, answered_in, migrate_file, serve_file};
use sqlite::Options;
use sqlite_disk::{Crash, Disk, Files};
use std::alloc::Global;

/// The most requests of one run, as many as the program serves of one stream.
pub const MOST: u32 = 1_000_000;

/// How a stream ended.
pub type Outcome = Result<Served, ServeFault>;

/// How two streams ended, and the files, closed after the second.
#[derive(Drop)]
pub struct Twice<D: Disk> {
    pub first: Outcome,
    pub second: Outcome,
    pub files: Files<D>,
}

/// Serves a stream of at most `MOST` requests by the office over the tables in the two files, and
/// closes them. `None` says that they were refused or could not be closed.
pub(crate) fn served_once<D: Disk + Drop, R: Source, W: Sink>(
    alloc: Global,
    files: Files<D>,
    reader: &mut R,
    writer: &mut W,
) -> Option<(Outcome, Files<D>)>
    ensures clean { IfSome result (λ it. AreClean D.Disk it.1.log it.1.db →
        AreClean D.Disk files.log files.db) }
    ensures made { IfSome result (λ it. AreClean D.Disk it.1.log it.1.db →
        (old : Content) × (new : Content) × HoldIn (image_of D.Disk files) old
        × Made D.Disk (in_order MOST (ends_of (R.told reader.old) (W.told writer.old))
        (ends_of (R.told reader.new) (W.told writer.new)) it.0) old new
        × KeepTables D.Disk it.1 new) }
{
    let ended = answered_in(alloc, files, Options::new(1), reader, writer, MOST);
    closed_after(ended)
}

/// Serves a first stream, closes the files, opens those that came back, and serves a second stream,
/// each of at most `MOST` requests. `None` says that in one of the runs the files were refused or
/// could not be closed.
pub fn served_twice<D: Disk + Drop, R: Source, W: Sink>(
    alloc: Global,
    files: Files<D>,
    first_reader: &mut R,
    first_writer: &mut W,
    second_reader: &mut R,
    second_writer: &mut W,
) -> Option<Twice<D>>
    // On a clean disk, the first stream was served from the tables that the files held, and the
    // second one from those that the first left.
    ensures { IfSome result (λ it. AreClean D.Disk it.files.log it.files.db →
        (old : Content) × (last : Content) × HoldIn (image_of D.Disk files) old
        × Life D.Disk old (in_order MOST
        (ends_of (R.told first_reader.old) (W.told first_writer.old))
        (ends_of (R.told first_reader.new) (W.told first_writer.new)) it.first
        ∷ in_order MOST
        (ends_of (R.told second_reader.old) (W.told second_writer.old))
        (ends_of (R.told second_reader.new) (W.told second_writer.new)) it.second
        ∷ []) last × KeepTables D.Disk it.files last) }
{
    let (first, files) = served_once(alloc, files, first_reader, first_writer)?;
    let (second, files) = served_once(alloc, files, second_reader, second_writer)?;
    Some(Twice {
        first,
        second,
        files,
    })
}

/// Serves a first stream, stops, and serves a second one over what a stop leaves of the files, each
/// of at most `MOST` requests. This covers a stop at any moment of the first run, seen as a disk
/// that does nothing more from then on. `None` says that the files were refused, or not closed
/// after the second stream.
pub fn served_after_a_stop<D: Crash + Drop, R: Source, W: Sink>(
    alloc: Global,
    files: Files<D>,
    first_reader: &mut R,
    first_writer: &mut W,
    second_reader: &mut R,
    second_writer: &mut W,
) -> Option<Twice<D>>
    ensures { IfSome result (λ it. AreClean D.Disk it.files.log it.files.db →
        (old : Content) × (last : Content) × HoldIn (image_of D.Disk files) old
        × Life D.Disk old (to_a_stop MOST
        (ends_of (R.told first_reader.old) (W.told first_writer.old))
        (ends_of (R.told first_reader.new) (W.told first_writer.new)) it.first
        ∷ in_order MOST
        (ends_of (R.told second_reader.old) (W.told second_writer.old))
        (ends_of (R.told second_reader.new) (W.told second_writer.new)) it.second
        ∷ []) last × KeepTables D.Disk it.files last) }
{
    let served = serve_file(
        alloc,
        files,
        Options::new(1),
        first_reader,
        first_writer,
        MOST,
    );
    let Ok((office, first)) = served else {
        return None;
    };
    let files = stop_office(office);
    let (second, files) = served_once(alloc, files, second_reader, second_writer)?;
    Some(Twice {
        first,
        second,
        files,
    })
}

/// Brings the tables in the files to today's version, and closes the files. `None` says that the
/// files or the migration were refused, or that the files could not be closed.
fn brought_today<D: Disk + Drop>(alloc: Global, files: Files<D>) -> Option<Files<D>>
    ensures { IfSome result (λ back. AreClean D.Disk back.log back.db →
        (version : List Cell) × (old : Content) × (new : Content)
        × HoldFormerly (image_of D.Disk files) version old
        × Made D.Disk (migrated version) old new × KeepTables D.Disk back new) }
{
    match migrate_file(alloc, files, Options::new(1)) {
        Ended::Closed(Ok(_), files) => Some(files),
        _ => None,
    }
}

/// Brings the tables in the files to today's version, closes them, and serves a stream of at most
/// `MOST` requests over the files that came back. `None` says that the files or the migration were
/// refused, or that the files could not be closed.
pub fn migrated_and_served<D: Disk + Drop, R: Source, W: Sink>(
    alloc: Global,
    files: Files<D>,
    reader: &mut R,
    writer: &mut W,
) -> Option<(Outcome, Files<D>)>
    ensures { IfSome result (λ it. AreClean D.Disk it.1.log it.1.db →
        (version : List Cell) × (old : Content) × (last : Content)
        × HoldFormerly (image_of D.Disk files) version old
        × Life D.Disk old (migrated version ∷ in_order MOST
        (ends_of (R.told reader.old) (W.told writer.old))
        (ends_of (R.told reader.new) (W.told writer.new)) it.0 ∷ []) last
        × KeepTables D.Disk it.1 last) }
{
    let files = brought_today(alloc, files)?;
    let (outcome, files) = served_once(alloc, files, reader, writer)?;
    Some((outcome, files))
}
