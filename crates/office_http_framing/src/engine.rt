//! The engine: it serves the requests of a stream, one after another.

ghost use Rattle.std.specs.Prelude.{◌≡◌, ◌+◌, ◌-◌, ◌*◌, ◌≤◌, ℕ, List, length, true, false, Err, IfOk, IfSome, if◌then◌else◌};
ghost use Rattle.office_http_framing.specs.Asks.{OnlyAsksAfter};
ghost use Rattle.office_http_framing.specs.Ends.{StopsAtOnce, WritesOrBreaksOff};
ghost use Rattle.office_http_framing.specs.Front.{plain};
ghost use Rattle.office_http_framing.specs.Limits.{longest_request};
ghost use Rattle.office_http_framing.specs.Protocol.{AnswersFault};
ghost use Rattle.office_http_framing.specs.Serve.{CallsEnds, Did, DidPart, MayBeLeft, TellsPart, ends_of};
ghost use Rattle.office_http_framing.specs.Stops.{Deals, How, KeepsState, Ran, moment_of};

use crate::buffer::Buffer;
use crate::ends::{NextStep, Sink, Source, Wait, WriteFailed, write_all};
use crate::front::{Fault, Front, Request, next_request};
use crate::machine::Machine;
use std::alloc::Global;

/// A stream was served to its end.
#[derive(Clone, Copy, PartialEq)]
pub struct Served {
    /// How many whole requests were answered.
    pub requests: u32,
}

/// How a part of a stream ended.
#[derive(Clone, Copy, PartialEq)]
pub enum PartEnd {
    /// The stream was served to its end.
    Ended,
    /// The source gave way to another client, between two requests: nothing is buffered.
    GaveWay,
    /// The source paused the stream: the buffer keeps what was read of requests that were not
    /// answered.
    Paused,
}

/// A part of a stream was served.
#[derive(Clone, Copy, PartialEq)]
pub struct Part {
    /// How many whole requests were answered.
    pub requests: u32,
    pub end: PartEnd,
}

/// Why a stream was not served to its end.
#[derive(Clone, Copy, PartialEq)]
pub enum ServeFault {
    /// The source failed after so many requests, each of which was answered.
    Read { requests: u32 },
    /// The sink failed, or took no byte, at the answer to the last of so many requests, or to a
    /// fault after them.
    Write { requests: u32 },
    /// The buffer was refused, and nothing was read.
    NoMemory,
}

/// Answers one request, and writes the answer. If the machine is unavailable, it writes the text
/// that says so, and tells the reader. The error means that not all of it was written.
fn serve_request<Tools, M: Machine<Tools>, R: Source, W: Sink>(
    alloc: Global,
    machine: &mut M,
    tools: &mut Tools,
    request: &Request<'_>,
    reader: &mut R,
    writer: &mut W,
) -> Result<(), WriteFailed>
    ensures clean { M.is_clean machine.new → M.is_clean machine.old }
    ensures honest { M.storage.is_honest machine.new → M.storage.is_honest machine.old }
    ensures step { M.is_clean machine.new →
        (before : M.State) (held : M.Stored) → KeepsState M.storage machine.old held before →
        (answer : List ℕ) × (how : How) × (kept : M.Stored) × (after : M.State)
        × Deals M.protocol M.storage how (plain request.now) answer machine.old machine.new
        (moment_of M.storage machine.old held before) (moment_of M.storage machine.new kept after)
        × WritesOrBreaksOff result (W.told writer.old) (W.told writer.new) answer }
    ensures stops { StopsAtOnce result (W.told writer.old).counts (W.told writer.new).counts }
    ensures told { R.told reader.new ≡ R.told reader.old }
{
    match machine.answer(alloc, tools, request) {
        Ok(answer) => write_all(writer, answer.as_bytes()),
        Err(_) => {
            reader.note_unavailable();
            write_all(writer, M::unavailable())
        }
    }
}

/// Writes the answer to a fault, or, if memory for that was refused, the text that says so. The
/// error means that not all of it was written.
fn serve_fault<Tools, M: Machine<Tools>, W: Sink>(
    alloc: Global,
    fault: Fault,
    writer: &mut W,
) -> Result<(), WriteFailed>
    ensures answer { (answer : List ℕ) × AnswersFault M.protocol fault answer
        × WritesOrBreaksOff result (W.told writer.old) (W.told writer.new) answer }
    ensures stops { StopsAtOnce result (W.told writer.old).counts (W.told writer.new).counts }
{
    match M::fault_answer(alloc, fault) {
        Ok(answer) => write_all(writer, &answer),
        Err(_) => write_all(writer, M::unavailable()),
    }
}

/// How many requests may follow one, if `left` were allowed with it: none after the last.
fn left_after(left: u32, last: bool) -> u32
    ensures left { result ≡ if last then 0 else left - 1 }
    ensures fewer { result ≤ left - 1 }
{
    if last { 0 } else { left.saturating_sub(1) }
}

/// How a stream is left before its next step, if it may be left and its source says so. `front` is
/// what its buffer begins with.
fn left_before<R: Source>(
    reader: &mut R,
    front: Front<'_>,
    is_empty: bool,
    may_leave: bool,
) -> Option<PartEnd>
    ensures told { R.told reader.new ≡ R.told reader.old }
    ensures left { IfSome result (λ end. (may_leave ≡ true) × MayBeLeft end is_empty) }
{
    if !may_leave {
        return None;
    }
    let next = match front {
        Front::More if is_empty => NextStep::ReadNext,
        Front::More => NextStep::ReadMore,
        _ => NextStep::Answer,
    };
    match reader.wait(next) {
        Wait::Pause => Some(PartEnd::Paused),
        Wait::GiveWay if is_empty => Some(PartEnd::GaveWay),
        _ => None,
    }
}

/// Serves the requests of a stream, one after another, first from the bytes in the buffer: until
/// the source ends, or a fault or the last request was answered, or `max_requests` were. It reads
/// only while it holds no whole request and no fault. If `may_leave`, it asks the source before
/// each answer and each read whether to leave the stream there: to pause, so that the buffer keeps
/// what was read and not answered, or to give way to another client. The error is never `NoMemory`.
pub fn serve_buffered<Tools, M: Machine<Tools>, R: Source, W: Sink>(
    alloc: Global,
    machine: &mut M,
    tools: &mut Tools,
    buffer: &mut Buffer,
    reader: &mut R,
    writer: &mut W,
    max_requests: u32,
    may_leave: bool,
) -> Result<Part, ServeFault>
    ensures clean { M.is_clean machine.new → M.is_clean machine.old }
    ensures honest { M.storage.is_honest machine.new → M.storage.is_honest machine.old }

    // What `serve` ensures for its stream, for a part that begins with the bytes that are buffered.
    // If the stream was left, all requests of the part were answered whole, and the buffer keeps
    // what follows them; if it gave way, that is nothing.
    ensures did { M.is_clean machine.new →
        (before : M.State) (held : M.Stored) → KeepsState M.storage machine.old held before →
        (after : M.State) × (kept : M.Stored) × DidPart M.protocol
        (Ran M.protocol M.storage (M.storage.may_leave machine.old)
        (moment_of M.storage machine.old held before) machine.new kept after)
        max_requests buffer.old buffer.new (ends_of (R.told reader.old) (W.told writer.old))
        (ends_of (R.told reader.new) (W.told writer.new)) result }
    ensures fault { TellsPart (ends_of (R.told reader.old) (W.told writer.old))
        (ends_of (R.told reader.new) (W.told writer.new)) result }
    ensures whole { may_leave ≡ false → IfOk result (λ part. part.end ≡ PartEnd.Ended) }
    ensures asks { OnlyAsksAfter max_requests buffer.old (R.told reader.old)
        (R.told reader.new) }
    // Each read but one gives at least one byte.
    ensures reads { (R.told reader.new).counts.calls + length buffer.old
        ≤ (R.told reader.old).counts.calls + longest_request * max_requests
        + length buffer.new + 1 }
    ensures bound { length buffer.old ≤ longest_request → length buffer.new ≤ longest_request }
{
    let end = PartEnd::Ended;
    let mut requests = 0;
    let mut left = max_requests;
    while left > 0 {
        let held = buffer.content();
        let front = next_request(held);
        let is_empty = held.is_empty();
        if let Some(end) = left_before(reader, front, is_empty, may_leave) {
            return Ok(Part { requests, end });
        }
        match front {
            Front::Whole { request, length } => {
                let last = request.last;
                requests += 1;
                if serve_request(alloc, machine, tools, &request, reader, writer).is_err() {
                    return Err(ServeFault::Write { requests });
                }
                buffer.consume(length);
                left = left_after(left, last);
            }
            Front::Bad(fault) => {
                if serve_fault::<Tools, M, W>(alloc, fault, writer).is_err() {
                    return Err(ServeFault::Write { requests });
                }
                return Ok(Part { requests, end });
            }
            Front::More => match buffer.fill(reader) {
                Ok(0) => return Ok(Part { requests, end }),
                Ok(_) => {}
                Err(_) => return Err(ServeFault::Read { requests }),
            },
        }
    }
    Ok(Part { requests, end })
}

/// Serves the requests that the source gives, one after another, until the source ends, or a fault
/// or the last request was answered, or `max_requests` were. It reads only while it holds no whole
/// request and no fault, and does not ask the source to wait: a stream of its own is never left
/// before its end.
pub fn serve<Tools, M: Machine<Tools>, R: Source, W: Sink>(
    alloc: Global,
    machine: &mut M,
    tools: &mut Tools,
    reader: &mut R,
    writer: &mut W,
    max_requests: u32,
) -> Result<Served, ServeFault>
    ensures clean { M.is_clean machine.new → M.is_clean machine.old }
    ensures honest { M.storage.is_honest machine.new → M.storage.is_honest machine.old }

    // What was read, answered and written is a run of the protocol, whether or not a failure shut
    // the machine; each answer was written whole before the next read; each request made the writes
    // that it may; what is kept stands for the state after it; and a crash leaves no more than the
    // run lets it.
    ensures did { M.is_clean machine.new →
        (before : M.State) (held : M.Stored) → KeepsState M.storage machine.old held before →
        (after : M.State) × (kept : M.Stored) × Did M.protocol
        (Ran M.protocol M.storage (M.storage.may_leave machine.old)
        (moment_of M.storage machine.old held before) machine.new kept after)
        max_requests (ends_of (R.told reader.old) (W.told writer.old))
        (ends_of (R.told reader.new) (W.told writer.new)) result }
    // The fault is Read if the source failed, Write if the sink failed or took no byte.
    ensures calls { CallsEnds max_requests (ends_of (R.told reader.old) (W.told writer.old))
        (ends_of (R.told reader.new) (W.told writer.new)) result }
    // If the buffer was refused, the machine was not touched, whatever it stood for.
    ensures untouched { result ≡ Err ServeFault.NoMemory → machine.new ≡ machine.old }
{
    let Ok(mut buffer) = Buffer::new(alloc) else {
        return Err(ServeFault::NoMemory);
    };
    let buffer = &mut buffer;
    match serve_buffered(
        alloc,
        machine,
        tools,
        buffer,
        reader,
        writer,
        max_requests,
        false,
    ) {
        Ok(part) => Ok(Served {
            requests: part.requests,
        }),
        Err(fault) => Err(fault),
    }
}
