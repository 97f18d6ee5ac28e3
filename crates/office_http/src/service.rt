//! The office served over a stream of bytes.

ghost use Rattle.std.specs.Prelude.{◌≡◌, ◌+◌, ◌*◌, ◌≤◌, length, Err};
ghost use Rattle.office_machine.specs.Office.{Office as OfficeState};
ghost use Rattle.office_desk.specs.Running.{KeepsTheStreet};
ghost use Rattle.office_tables_shelf.specs.Content.{Content};
ghost use Rattle.office_http_framing.specs.Asks.{OnlyAsksAfter};
ghost use Rattle.office_http_framing.specs.Limits.{longest_request};
ghost use Rattle.office_http_framing.specs.Serve.{CallsEnds, Did, DidPart, TellsPart, ends_of};
ghost use Rattle.office_http_framing.specs.Stops.{KeepsState, moment_of};
ghost use Rattle.office_http.specs.Laws.{Serves};
ghost use Rattle.office_http.specs.Protocol.{office_protocol, office_storage};

use crate::machine::StreamTools;
use office_desk::office::Office;
use office_http_framing::buffer::Buffer;
use office_http_framing::ends::{Sink, Source};
use office_http_framing::engine;
use office_http_framing::engine::{Part, ServeFault, Served};
use office_tables_shelf::shelf::Shelf;
use std::alloc::Global;

/// Serves the requests that the reader gives, until it ends, or a fault of the framing or the last
/// request was answered, or `max_requests` were. Each answer is written before the next read. A
/// request for which memory or the tables were refused is answered unavailable, and no later answer
/// shows it, though a crash may leave its step.
///
/// The error is `Read` where the reader failed, `Write` where the writer failed or took no byte,
/// and `NoMemory` where the buffer was refused, which is taken before anything is read. The reader
/// is not asked to wait: a whole stream is never left before its end.
pub fn serve<S: Shelf, R: Source, W: Sink>(
    alloc: Global,
    office: &mut Office<S>,
    reader: &mut R,
    writer: &mut W,
    max_requests: u32,
) -> Result<Served, ServeFault>
    ensures clean { S.is_clean office.new → S.is_clean office.old }
    ensures honest { S.is_honest office.new → S.is_honest office.old }

    // On a clean disk, whether or not a failure shut the tables: the bytes answered are those of
    // the office machine, run over the requests of the bytes read, each written whole before the
    // next read; each request wrote the rows that its command may, and a query, a refused command
    // or no command left the tables as they were; the tables that are kept stand for the office
    // after them; a crash leaves the office after the last request that was answered and changed
    // rows, or after a later one; and the run keeps the laws.
    ensures did { let storage = office_storage S.is_honest S.content S.written S.may_leave in
        S.is_clean office.new →
        (before : OfficeState) (tables : Content) → KeepsState storage office.old tables before →
        (after : OfficeState) × (kept : Content) × Did office_protocol
        (Serves storage (S.may_leave office.old) (moment_of storage office.old tables before)
        office.new kept after)
        max_requests (ends_of (R.told reader.old) (W.told writer.old))
        (ends_of (R.told reader.new) (W.told writer.new)) result }

    // Each office of that run is sound, and each committed set of a sound office keeps the laws of
    // the street.
    ensures street { KeepsTheStreet }

    // Only the last call of an end may have failed or moved no byte, as the result says; and the
    // reader is called only while a request is awaited: not again after the last one, a fault, a
    // failure or a read of no byte.
    ensures calls { CallsEnds max_requests (ends_of (R.told reader.old) (W.told writer.old))
        (ends_of (R.told reader.new) (W.told writer.new)) result }
    // If the buffer was refused, nothing was touched, whatever the tables stood for.
    ensures untouched { result ≡ Err ServeFault.NoMemory → office.new ≡ office.old }
{
    let mut tools = StreamTools::new();
    engine::serve(alloc, office, &mut tools, reader, writer, max_requests)
}

/// Serves a part of a stream as `serve` does, first from the buffer, which holds what was read
/// before and not answered. Before each answer and each read it asks the reader whether to leave
/// the stream there: to pause, so that the buffer keeps what was read and not answered, or, between
/// two requests, to give way to another client. Another call serves what follows, over the same
/// buffer, by an office that may have been closed and opened in between.
///
/// The error is `Read` or `Write`, as for `serve`, and never `NoMemory`.
pub fn serve_buffered<S: Shelf, R: Source, W: Sink>(
    alloc: Global,
    office: &mut Office<S>,
    buffer: &mut Buffer,
    reader: &mut R,
    writer: &mut W,
    max_requests: u32,
) -> Result<Part, ServeFault>
    ensures clean { S.is_clean office.new → S.is_clean office.old }
    ensures honest { S.is_honest office.new → S.is_honest office.old }

    // What `serve` ensures for its stream, for a part that begins with the bytes that are buffered.
    // If the stream was left, all requests of the part were answered whole, and the buffer keeps
    // what follows them; if it gave way, that is nothing.
    ensures did { let storage = office_storage S.is_honest S.content S.written S.may_leave in
        S.is_clean office.new →
        (before : OfficeState) (tables : Content) → KeepsState storage office.old tables before →
        (after : OfficeState) × (kept : Content) × DidPart office_protocol
        (Serves storage (S.may_leave office.old) (moment_of storage office.old tables before)
        office.new kept after)
        max_requests buffer.old buffer.new (ends_of (R.told reader.old) (W.told writer.old))
        (ends_of (R.told reader.new) (W.told writer.new)) result }

    // Only the last call of an end may have failed or moved no byte, as the result says, and none
    // did if the stream was left.
    ensures fault { TellsPart (ends_of (R.told reader.old) (W.told writer.old))
        (ends_of (R.told reader.new) (W.told writer.new)) result }
    ensures asks { OnlyAsksAfter max_requests buffer.old (R.told reader.old)
        (R.told reader.new) }
    // Each read but one gives at least one byte.
    ensures reads { (R.told reader.new).counts.calls + length buffer.old
        ≤ (R.told reader.old).counts.calls + longest_request * max_requests
        + length buffer.new + 1 }
    ensures bound { length buffer.old ≤ longest_request → length buffer.new ≤ longest_request }
{
    let mut tools = StreamTools::new();
    engine::serve_buffered(
        alloc,
        office,
        &mut tools,
        buffer,
        reader,
        writer,
        max_requests,
        true,
    )
}
