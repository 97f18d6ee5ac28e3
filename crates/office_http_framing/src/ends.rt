//! The two ends of a stream: where its bytes come from, and where the answers go.

ghost use Rattle.std.specs.Prelude.{◌≡◌, ◌<◌, length, OnErr};
ghost use Rattle.std.specs.Io.{ReadsAtMost, WritesAtMost};
ghost use Rattle.std.specs.Io.KnownBytes.{ReadConsumes, WriteAppends};
ghost use Rattle.office_http_framing.specs.Ends.{Grows, FailsOrGivesNone, WritesOrBreaksOff, StopsAtOnce, no_calls};

use std::io;
use std::io::{Read, Write};

/// How the calls of a source or a sink went. Each count stays at `u64::MAX` once it reaches that.
#[derive(Clone, Copy, Default)]
pub struct Counts {
    pub calls: u64,
    pub failures: u64,
    /// How many calls answered 0 bytes.
    pub empties: u64,
}

impl Counts {
    ghost use Rattle.office_http_framing.specs.Ends.{call_counts_after};

    /// Counts one more call, by its outcome.
    pub fn count(&mut self, outcome: &io::Result<usize>)
        ensures { self.new ≡ call_counts_after outcome.now self.old }
    {
        self.calls = self.calls.saturating_add(1);
        match outcome {
            Ok(0) => self.empties = self.empties.saturating_add(1),
            Ok(_) => {}
            Err(_) => self.failures = self.failures.saturating_add(1),
        }
    }
}

/// The next step of a stream that is served in parts, if its source lets the stream go on.
#[derive(Clone, Copy)]
pub enum NextStep {
    /// To answer a request that has come whole, or a fault.
    Answer,
    /// To read the next request: no byte of it has come.
    ReadNext,
    /// To read more of a request: a part of it has come.
    ReadMore,
}

/// What a source says before the next step of a stream that is served in parts.
#[derive(Clone, Copy)]
pub enum Wait {
    /// The step is taken.
    GoOn,
    /// The stream pauses here, to be served on later. What was read and not answered is kept.
    Pause,
    /// The stream ends here for another client. If a byte of a request has come, it goes on
    /// instead.
    GiveWay,
}

/// Where the bytes of a stream come from. Contracts see those bytes and the counts of its calls.
pub trait Source {
    ghost use Rattle.office_http_framing.specs.Ends.{Told, call_counts_after};

    // The bytes that reads will give from here on, where they are known, and the counts.
    ghost told: { Self → Told };

    /// Reads some bytes to the front of the slice, which is not empty, and says how many: none only
    /// at the end. An interrupted read is a failure.
    fn read(&mut self, buf: &mut [u8]) -> io::Result<usize>
        requires { 0 < length buf.old }
        ensures bound { ReadsAtMost result buf.new }
        ensures bytes { ReadConsumes (told self.old).bytes (told self.new).bytes result buf.new }
        ensures counts { (told self.new).counts ≡ call_counts_after result (told self.old).counts };

    /// Waits until the next step of a stream that is served in parts can be taken, and says whether
    /// to take it: always, unless a source says otherwise. It takes no byte and counts as no call.
    /// It is not called for a stream that is served as a whole.
    fn wait(&mut self, _next: NextStep) -> Wait
        ensures { told self.new ≡ told self.old }
    {
        Wait::GoOn
    }

    /// Learns that a request was answered as unavailable: memory or the store was refused. It takes
    /// no byte and counts as no call.
    fn note_unavailable(&mut self)
        ensures { told self.new ≡ told self.old }
    {}
}

/// Where the answers go. Contracts see the bytes that it took and the counts of its calls.
pub trait Sink {
    ghost use Rattle.office_http_framing.specs.Ends.{Told, call_counts_after};

    // The bytes that the sink holds, where they are known, and the counts.
    ghost told: { Self → Told };

    /// Writes some bytes from the front of the slice, which is not empty, and says how many: none
    /// if the sink takes no more. An interrupted write is a failure.
    fn write(&mut self, buf: &[u8]) -> io::Result<usize>
        requires { 0 < length buf.now }
        ensures bound { WritesAtMost result buf.now }
        ensures bytes { WriteAppends (told self.old).bytes (told self.new).bytes result buf.now }
        ensures counts { (told self.new).counts ≡ call_counts_after result (told self.old).counts };
}

/// A source over any reader, which counts its calls.
#[derive(Drop)]
pub struct FromRead<R> {
    pub reader: R,
    pub counts: Counts,
}

impl<R> FromRead<R> {
    /// The source over this reader, before its first call.
    pub fn new(reader: R) -> FromRead<R>
        ensures reader { result.reader ≡ reader }
        ensures counts { result.counts ≡ no_calls }
    {
        FromRead {
            reader,
            counts: Counts::default(),
        }
    }
}

impl<R: Read> Source for FromRead<R> {
    ghost told = { λ s. record { bytes = R.remaining s.reader; counts = s.counts } };

    fn read(&mut self, buf: &mut [u8]) -> io::Result<usize> {
        let outcome = self.reader.read(buf);
        self.counts.count(&outcome);
        outcome
    }
}

/// A sink over any writer, which counts its calls.
#[derive(Drop)]
pub struct ToWrite<W> {
    pub writer: W,
    pub counts: Counts,
}

impl<W> ToWrite<W> {
    /// The sink over this writer, before its first call.
    pub fn new(writer: W) -> ToWrite<W>
        ensures writer { result.writer ≡ writer }
        ensures counts { result.counts ≡ no_calls }
    {
        ToWrite {
            writer,
            counts: Counts::default(),
        }
    }
}

impl<W: Write> Sink for ToWrite<W> {
    ghost told = { λ s. record { bytes = W.contents s.writer; counts = s.counts } };

    fn write(&mut self, buf: &[u8]) -> io::Result<usize> {
        let outcome = self.writer.write(buf);
        self.counts.count(&outcome);
        outcome
    }
}

/// Not all bytes were written: the sink failed, or took none. Its counts tell which.
#[derive(Clone, Copy)]
pub struct WriteFailed;

/// Writes all the bytes, by as many writes as it takes. On an error the sink has taken only the
/// first of them, or none, and is not called again.
pub fn write_all<W: Sink>(writer: &mut W, bytes: &[u8]) -> Result<(), WriteFailed>
    ensures bytes { WritesOrBreaksOff result (W.told writer.old) (W.told writer.new) bytes.now }
    ensures counts { Grows (W.told writer.old).counts (W.told writer.new).counts }
    ensures fault { OnErr result
        (FailsOrGivesNone (W.told writer.old).counts (W.told writer.new).counts) }
    // After a write that failed or took no byte the sink is not called again.
    ensures stops { StopsAtOnce result (W.told writer.old).counts (W.told writer.new).counts }
{
    let mut rest = bytes;
    while !rest.is_empty() {
        match writer.write(rest) {
            Ok(0) | Err(_) => return Err(WriteFailed),
            Ok(n) => rest = &rest[n..],
        }
    }
    Ok(())
}
