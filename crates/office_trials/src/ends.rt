//! The two ends of a stream in memory: a reader that ends, fails, waits or goes on after its bytes,
//! and a writer with limited room.

use crate::asking::Bench;
use office_desk::office::Office;
use office_http::{
    Buffer, FromRead, NextStep, Part, PartEnd, ServeFault, Served, Source, ToWrite, Wait, serve,
    serve_buffered,
};
use office_tables_shelf::shelf::Shelf;
use std::cell::Cell;
use std::io;
use std::io::{ErrorKind, Read, Write};
use std::process::Abort;

/// What comes after the bytes of a reader, again and again, once the writer has taken so many
/// bytes. A read before that fails.
type After<'a> = (&'a [u8], usize);

pub(crate) const END: After<'static> = (b"", 0);

pub(crate) const FAILURE: After<'static> = (b"", usize::MAX);

/// What a reader gives: bytes, by reads of so many at most, and what comes after them.
type Stream<'a> = (&'a [u8], usize, After<'a>);

/// How many bytes a writer takes, and whether it fails without room or takes none.
type Room = (usize, bool);

pub(crate) const ANY: Room = (usize::MAX, true);

/// A reader, which sees how many bytes the writer took.
#[derive(Drop)]
struct Feed<'a> {
    bytes: &'a [u8],
    most: usize,
    after: After<'a>,
    taken: &'a Cell<usize>,
    calls: u64,
}

impl Read for Feed<'_> {
    fn read(&mut self, buf: &mut [u8]) -> io::Result<usize> {
        self.calls = self.calls.saturating_add(1);
        if self.bytes.is_empty() {
            if self.taken.get() < self.after.1 {
                return Err(io::Error::from(ErrorKind::Interrupted));
            }
            self.bytes = self.after.0;
        }
        let n = buf.len().min(self.most);
        self.bytes.read(&mut buf[..n])
    }
}

/// A writer that keeps what it takes.
#[derive(Drop)]
struct Taker<'a> {
    bytes: Vec<u8>,
    room: Room,
    taken: &'a Cell<usize>,
    calls: u64,
}

impl Write for Taker<'_> {
    fn write(&mut self, buf: &[u8]) -> io::Result<usize> {
        self.calls = self.calls.saturating_add(1);
        let n = buf.len().min(self.room.0.saturating_sub(self.bytes.len()));
        let is_kept = self.bytes.extend_from_slice(&buf[..n]).is_ok();
        if !is_kept || n == 0 && self.room.1 {
            return Err(io::Error::from(ErrorKind::Interrupted));
        }
        self.taken.set(self.bytes.len());
        Ok(n)
    }

    fn flush(&mut self) -> io::Result<()> {
        Ok(())
    }
}

/// Serves at most `limit` requests of a stream. Gives how it ended and after how many requests, and
/// what a writer with this room took. Each counted call of an end must be one of its reader or
/// writer.
pub(crate) fn serve_ends<S: Shelf>(
    rt: &Bench<impl Abort>,
    office: &mut Office<S>,
    stream: Stream<'_>,
    room: Room,
    limit: u32,
) -> ((&'static str, u32), Vec<u8>) {
    let taken = Cell::new(0);
    let (bytes, most, after) = stream;
    let mut source = FromRead::new(Feed {
        bytes,
        most,
        after,
        taken: &taken,
        calls: 0,
    });
    let mut sink = ToWrite::new(Taker {
        bytes: Vec::new(rt.1),
        room,
        taken: &taken,
        calls: 0,
    });
    let ended = match serve(rt.1, office, &mut source, &mut sink, limit) {
        Ok(Served { requests }) => ("end", requests),
        Err(ServeFault::Read { requests }) => ("read", requests),
        Err(ServeFault::Write { requests }) => ("write", requests),
        Err(ServeFault::NoMemory) => ("memory", 0),
    };
    let is_right = source.reader.calls == source.counts.calls;
    assert!(rt; is_right, "the calls of a reader");
    let is_right = sink.writer.calls == sink.counts.calls;
    assert!(rt; is_right, "the calls of a writer");
    (ended, sink.writer.bytes)
}

/// A source that pauses once before each step.
#[derive(Drop)]
struct Pausing<'a> {
    source: FromRead<Feed<'a>>,
    has_paused: bool,
}

impl Source for Pausing<'_> {
    ghost use Rattle.std.specs.Prelude.{None};

    ghost told = { λ s. record { bytes = None; counts = s.source.counts } };

    fn read(&mut self, buf: &mut [u8]) -> io::Result<usize> {
        self.source.read(buf)
    }

    fn wait(&mut self, _next: NextStep) -> Wait {
        self.has_paused = !self.has_paused;
        if self.has_paused {
            Wait::Pause
        } else {
            Wait::GoOn
        }
    }
}

/// Serves a stream in parts, by reads of at most `most` bytes, with a pause before each step. Gives
/// how many requests were answered, how often it paused and was read, and what a writer took.
pub(crate) fn serve_in_parts<S: Shelf>(
    rt: &Bench<impl Abort>,
    office: &mut Office<S>,
    bytes: &[u8],
    most: usize,
) -> ((u32, u64, u64), Vec<u8>) {
    let taken = Cell::new(0);
    let mut source = Pausing {
        source: FromRead::new(Feed {
            bytes,
            most,
            after: END,
            taken: &taken,
            calls: 0,
        }),
        has_paused: false,
    };
    let mut sink = ToWrite::new(Taker {
        bytes: Vec::new(rt.1),
        room: ANY,
        taken: &taken,
        calls: 0,
    });
    let mut buffer = Buffer::new(rt.1).expect(rt, "memory");
    let mut counts: (u32, u64) = (0, 0);
    for _ in 0..10_000 {
        let part = serve_buffered(rt.1, office, &mut buffer, &mut source, &mut sink, 10_000);
        let Ok(Part { requests, end }) = part else {
            break;
        };
        counts.0 = counts.0.saturating_add(requests);
        if end != PartEnd::Paused {
            break;
        }
        counts.1 = counts.1.saturating_add(1);
    }
    let reads = source.source.counts.calls;
    ((counts.0, counts.1, reads), sink.writer.bytes)
}
