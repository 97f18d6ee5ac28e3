//! The reader of a connection. It waits for its client, and looks meanwhile whether to leave the
//! connection.

ghost use Rattle.std.specs.Prelude.{◌≡◌, ◌<◌, length};
ghost use Rattle.std.specs.Io.{ReadsAtMost};
ghost use Rattle.office_http_framing.specs.Ends.{no_calls};

use crate::asking::Asking;
use libc::net as c;
use libc::types::pollfd;
use office_http_framing::ends::{Counts, NextStep, Source, Wait};
use office_http_framing::giving_way::{Ready, gives_way};
use std::io;
use std::io::{ErrorKind, Read};
use std::net::{Shutdown, TcpStream};
use std::os::fd::{AsRawFd, RawFd};

/// How many milliseconds a connection may wait for its next bytes.
const LONGEST_WAIT: i32 = 30_000;

/// How many milliseconds a new connection has for its first bytes, even while another client waits.
const FIRST_WAIT: i32 = 100;

/// How many milliseconds to wait at a time, if another run may want the file of the office.
pub(crate) const SLICE: i32 = 20;

/// A question to the system, for `poll`: whether a read of this socket returns at once.
pub(crate) fn readiness(socket: RawFd) -> pollfd {
    pollfd {
        fd: socket,
        events: c::POLLIN,
        revents: 0,
    }
}

/// The reader of a connection. Between two requests it gives way to another client that waits at
/// the listener; and it pauses, also within a request, when another run waits for the file of the
/// office.
#[derive(Drop)]
pub struct ConnectionReader {
    stream: TcpStream,
    /// The listener that accepted the connection, and lives longer.
    listener: RawFd,
    /// The turn in which the connection is served.
    asking: Asking,
    /// The next step, as the last `wait` got it.
    next: NextStep,
    /// For how many milliseconds it has waited for the next bytes.
    waited: i32,
    /// Why the next read fails, if the wait before it failed.
    failure: Option<ErrorKind>,
    pub counts: Counts,
}

impl ConnectionReader {
    /// The reader of a connection that this listener accepted, before its first call.
    pub fn new(stream: TcpStream, listener: RawFd) -> ConnectionReader
        ensures { result.counts ≡ no_calls }
    {
        ConnectionReader {
            stream,
            listener,
            asking: Asking::never(),
            next: NextStep::ReadNext,
            waited: 0,
            failure: None,
            counts: Counts::default(),
        }
    }

    /// Begins a part of the connection in this turn.
    pub(crate) fn begin(&mut self, asking: Asking)
        ensures { self.new.counts ≡ self.old.counts }
    {
        self.asking = asking;
    }

    /// Ends a part of the connection, and hands its turn back.
    pub(crate) fn pause(&mut self) -> Asking
        ensures { self.new.counts ≡ self.old.counts }
    {
        self.asking.take()
    }

    /// Ends the sending side, so that the client sees the end after the last answer, and gives the
    /// stream, which may still be read.
    pub fn end(self) -> TcpStream {
        let ConnectionReader { stream, .. } = self;
        let _ = stream.shutdown(Shutdown::Write);
        stream
    }

    /// Waits for at most `longest` milliseconds until the connection can be read or, if `is_next`,
    /// another client waits, and gives which is so; `None` if the wait itself failed.
    fn ready_within(&mut self, is_next: bool, longest: i32) -> Option<Ready>
        ensures { self.new.counts ≡ self.old.counts }
    {
        let mut both = [readiness(self.stream.as_raw_fd()), readiness(self.listener)];
        let found = if is_next {
            c::poll(&mut both, longest)
        } else {
            c::poll(&mut both[..1], longest)
        };
        if found == 0 {
            self.waited = self.waited.saturating_add(longest);
        }
        if found < 0 {
            return None;
        }
        Some(Ready {
            is_readable: both[0].revents != 0,
            is_awaited: both[1].revents != 0,
        })
    }

    /// How many milliseconds to wait before the next look whether to leave the connection; and
    /// whether to watch for other clients meanwhile.
    fn slice(&self, is_next: bool) -> (i32, bool) {
        let is_first = self.counts.calls == 0 && self.waited < FIRST_WAIT;
        let longest = if is_first { FIRST_WAIT } else { LONGEST_WAIT };
        let left = longest.saturating_sub(self.waited).max(0);
        let slice = if self.asking.may_be() {
            left.min(SLICE)
        } else {
            left
        };
        (slice, is_next && !is_first)
    }

    /// Waits until the connection can be read, or is to be left. If that takes longer than
    /// `LONGEST_WAIT`, or the wait fails, the next read fails.
    fn await_bytes(&mut self, is_next: bool) -> Wait
        ensures { self.new.counts ≡ self.old.counts }
    {
        for _ in 0..LONGEST_WAIT {
            let (slice, looks_at_others) = self.slice(is_next);
            let Some(ready) = self.ready_within(looks_at_others, slice) else {
                self.failure = Some(ErrorKind::Interrupted);
                return Wait::GoOn;
            };
            if ready.is_readable {
                self.waited = 0;
                return Wait::GoOn;
            }
            if gives_way(ready) {
                return Wait::GiveWay;
            }
            if self.waited >= LONGEST_WAIT {
                break;
            }
            if self.asking.looks() {
                return Wait::Pause;
            }
        }
        self.failure = Some(ErrorKind::TimedOut);
        Wait::GoOn
    }

    /// Waits, while another run may have the file of the office, until it is needed for the next
    /// step. The time counts as time in which nothing came.
    pub(crate) fn await_need(&mut self)
        ensures { self.new.counts ≡ self.old.counts }
    {
        let is_next = match self.next {
            NextStep::Answer => return,
            NextStep::ReadNext => true,
            NextStep::ReadMore => false,
        };
        let left = LONGEST_WAIT.saturating_sub(self.waited).max(0);
        let _ = self.ready_within(is_next, left);
    }

    /// Reads some bytes, or fails as the wait before it did.
    fn read_or_fail(&mut self, buf: &mut [u8]) -> io::Result<usize>
        ensures bound { ReadsAtMost result buf.new }
        ensures counts { self.new.counts ≡ self.old.counts }
    {
        match self.failure.take() {
            Some(kind) => Err(io::Error::from(kind)),
            None => self.stream.read(buf),
        }
    }
}

impl Source for ConnectionReader {
    ghost use Rattle.std.specs.Prelude.{None};

    ghost told = { λ s. record { bytes = None; counts = s.counts } };

    fn read(&mut self, buf: &mut [u8]) -> io::Result<usize> {
        let outcome = self.read_or_fail(buf);
        self.counts.count(&outcome);
        outcome
    }

    fn wait(&mut self, next: NextStep) -> Wait {
        self.next = next;
        match next {
            NextStep::Answer if self.asking.looks_in_time() => Wait::Pause,
            NextStep::Answer => Wait::GoOn,
            NextStep::ReadNext => self.await_bytes(true),
            // If no run can want the file, the read itself waits.
            NextStep::ReadMore if !self.asking.may_be() => Wait::GoOn,
            NextStep::ReadMore => self.await_bytes(false),
        }
    }

    fn note_unavailable(&mut self) {
        self.asking.note_failure();
    }
}
