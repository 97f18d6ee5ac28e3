//! The office over new tables in memory. Nothing has to be assumed about them.

ghost use Rattle.office_machine.specs.Office.{Office as OfficeState};
ghost use Rattle.office_http.specs.Protocol.{office_protocol};
ghost use Rattle.office_http_framing.specs.Serve.{CallsEnds, Did, ends_of};
ghost use Rattle.signal_office.specs.Memory.{ServesInMemory, StandsInMemory, new_office};

use office_desk::office::Office;
use office_http::{ServeFault, Served, Sink, Source, serve};
use office_tables_maps::map_shelf::MapShelf;
use std::alloc::Global;

/// An office without intersections, over tables in memory.
pub fn open_in_memory(alloc: Global) -> Office<MapShelf>
    ensures { StandsInMemory result new_office }
{
    let shelf = MapShelf::new(alloc);
    Office::new(shelf)
}

/// Serves at most `max_requests` requests of the reader by a new office over tables in memory, with
/// no premise on these or on a disk. The fault is Read where the reader failed, Write where the
/// writer failed or took no byte, and NoMemory where the buffer was refused.
pub fn serve_new_office<R: Source, W: Sink>(
    alloc: Global,
    reader: &mut R,
    writer: &mut W,
    max_requests: u32,
) -> Result<Served, ServeFault>
    // The bytes answered are those of the office machine, run over the requests of the bytes read;
    // each request wrote the rows that its command may, and one that changes nothing left the
    // tables as they were; and the run keeps the laws of the office: each of its offices is sound.
    ensures did { (after : OfficeState)
        × Did office_protocol (ServesInMemory after) max_requests
        (ends_of (R.told reader.old) (W.told writer.old))
        (ends_of (R.told reader.new) (W.told writer.new)) result }
    // The fault is Read or Write only if a call of that end failed, or the writer took no byte; the
    // reader is called only while a request is awaited.
    ensures calls { CallsEnds max_requests (ends_of (R.told reader.old) (W.told writer.old))
        (ends_of (R.told reader.new) (W.told writer.new)) result }
{
    let mut office = open_in_memory(alloc);
    serve(alloc, &mut office, reader, writer, max_requests)
}
