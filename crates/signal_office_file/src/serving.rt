//! Streams of requests, served by the office over the tables in files.

ghost use Rattle.std.specs.Prelude.{◌≡◌, IfOk, IfErr};
ghost use Rattle.sqlite.specs.Files.{file_state, image_of};
ghost use Rattle.sqlite.specs.Held.{state};
ghost use Rattle.sqlite.specs.Recovery.{Image};
ghost use Rattle.sqlite.specs.State.{HasCleanDisk};
ghost use Rattle.sqlite.specs.WalReads.{AreClean};
ghost use Rattle.office_tables.specs.SqlShelf.{IsCurrent};
ghost use Rattle.office_machine.specs.Office.{Office as OfficeState};
ghost use Rattle.office_desk.specs.StandFor.{StandForSound};
ghost use Rattle.office_tables.specs.Content.{Content};
ghost use Rattle.office_tables.specs.Stored.{content_now};
ghost use Rattle.office_http_framing.specs.Serve.{CallsEnds, Did, ends_of};
ghost use Rattle.office_http.specs.Protocol.{office_protocol};
ghost use Rattle.signal_office_file.specs.Files.{HoldIn};
ghost use Rattle.signal_office_file.specs.Serving.{AreOpenedIn, RefusedFiles, ServesFiles};

use crate::left::Refused;
use crate::opening::{FileOffice, open_file};
use office_desk::office::Office;
use office_http::{ServeFault, Served, Sink, Source, serve};
use office_tables::sql_shelf::SqlShelf;
use sqlite::{Alter, Options};
use sqlite_disk::{Disk, Files};
use std::alloc::Global;

/// An office that served a stream of requests, and how that ended.
pub type ServedOffice<D> = (FileOffice<D>, Result<Served, ServeFault>);

/// Serves at most `max_requests` requests that the reader gives, by the office over the tables in
/// the two files, which are made where there are none, and gives the office back, not closed. An
/// error is the fault with which the files were refused, `Version`, `Damaged`, `Store` or `Memory`,
/// with what is left of them; then nothing was read from the reader or written to the writer.
pub fn serve_file<D: Disk + Drop, R: Source, W: Sink>(
    alloc: Global,
    files: Files<D>,
    options: Options,
    reader: &mut R,
    writer: &mut W,
    max_requests: u32,
) -> Result<ServedOffice<D>, Refused<D>>
    // A disk that is clean after the run, as it has returned what was written, was so before.
    ensures clean { IfOk result (λ served. HasCleanDisk (file_state served.0.conn) →
        AreClean D.Disk files.log files.db) }
    // The headline. On a clean disk, whether or not a failure shut the database, and where the
    // tables in the files stood for a sound office: the bytes answered are those of the office
    // machine, run from that office over the requests of the bytes read; the tables that are kept
    // stand for the office after them; a crash leaves the office after the last request that
    // changed it and was not answered 503, or after a later one that was; and the run keeps the
    // laws of the office.
    ensures did { IfOk result (λ served. HasCleanDisk (file_state served.0.conn) →
        (held : Content) × HoldIn (image_of D.Disk files) held
        × ((before : OfficeState) → StandForSound held before → (after : OfficeState)
        × Did office_protocol (ServesFiles file_state held before served.0 after)
        max_requests (ends_of (R.told reader.old) (W.told writer.old))
        (ends_of (R.told reader.new) (W.told writer.new)) served.1)) }
    // Today's version is stored, also in whatever a crash may leave.
    ensures current { IfOk result (λ served. IsCurrent (file_state served.0.conn)) }
    // The outcome is `Read` or `Write` only if a call of that end failed, or the writer took no
    // byte. The reader is called only while a request is awaited, and in all at most once for each
    // byte that `max_requests` requests and one more can have, and once more.
    ensures calls { IfOk result (λ served. CallsEnds max_requests
        (ends_of (R.told reader.old) (W.told writer.old))
        (ends_of (R.told reader.new) (W.told writer.new)) served.1) }
    ensures refused { IfErr result (λ e. RefusedFiles files e.0 e.1) }
    ensures untouched { IfErr result (λ _.
        (reader.new ≡ reader.old) × (writer.new ≡ writer.old)) }
{
    match open_file(alloc, files, options) {
        Ok(office) => Ok(serve_over(alloc, office, reader, writer, max_requests)),
        Err(refused) => Err(refused),
    }
}

/// Serves at most `max_requests` requests that the reader gives, by an office over tables in SQL,
/// and gives the office back, with how the stream ended.
fn serve_over<S: Alter, R: Source, W: Sink>(
    alloc: Global,
    mut office: Office<SqlShelf<S>>,
    reader: &mut R,
    writer: &mut W,
    max_requests: u32,
) -> (Office<SqlShelf<S>>, Result<Served, ServeFault>)
    ensures clean { HasCleanDisk (state S.Store result.0.conn)
        → HasCleanDisk (state S.Store office.conn) }
    // On a clean disk, for an office that was just opened over files and wrote no row yet: the
    // answers are those of the office machine, from the sound office that its tables stood for.
    ensures did { HasCleanDisk (state S.Store result.0.conn) →
        (image : Image) → AreOpenedIn (state S.Store) image office → (before : OfficeState) →
        StandForSound (content_now (state S.Store office.conn)) before → (after : OfficeState)
        × Did office_protocol (ServesFiles (state S.Store)
        (content_now (state S.Store office.conn)) before result.0 after) max_requests
        (ends_of (R.told reader.old) (W.told writer.old))
        (ends_of (R.told reader.new) (W.told writer.new)) result.1 }
    // Today's version is stored, also in whatever a crash may leave.
    ensures current { IsCurrent (state S.Store result.0.conn) }
    ensures calls { CallsEnds max_requests (ends_of (R.told reader.old) (W.told writer.old))
        (ends_of (R.told reader.new) (W.told writer.new)) result.1 }
{
    let outcome = serve(alloc, &mut office, reader, writer, max_requests);
    office.shelf().known();
    (office, outcome)
}
