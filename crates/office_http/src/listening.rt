//! The office served to the connections of a listener, one after another, turn by turn.

ghost use Rattle.std.specs.Prelude.{◌≡◌, List, None, IfOk, OnErr};
ghost use Rattle.office_machine.specs.Office.{Office as OfficeState};
ghost use Rattle.office_tables_shelf.specs.Content.{Content};
ghost use Rattle.office_http_framing.specs.Serve.{as_served, told_requests};
ghost use Rattle.office_http_framing.specs.Stops.{KeepsState};
ghost use Rattle.office_http.specs.Away.{AnswersAway};
ghost use Rattle.office_http.specs.Protocol.{office_storage};
ghost use Rattle.office_http.specs.Listening.{
  Connected,
  EndsListening,
  Listens,
  ListensBy,
  ServesConnection,
  bytes_in,
  connection_between,
  connection_limit,
  has_paused,
  listen_counts_after,
  ran_by,
  connection_state,
};

use crate::away::Away;
use crate::machine::StreamTools;
use office_desk::office::Office;
use office_http_framing::buffer::Buffer;
use office_http_framing::ends::{Sink, Source};
use office_http_framing::engine::{Part, PartEnd, ServeFault, serve_buffered};
use office_http_framing::machine::Machine;
use office_tables_shelf::shelf::Shelf;
use std::alloc::{AllocError, Global};
use std::io;

/// The most requests of one connection.
const CONNECTION_LIMIT: u32 = 10_000;

/// How the calls of a listener went. Each count stays at `u64::MAX` once it reaches that.
#[derive(Clone, Copy, Default)]
pub struct ListenCounts {
    /// How many calls gave a new connection.
    pub accepted: u64,
    /// How many calls failed.
    pub failures: u64,
}

impl ListenCounts {
    /// Counts one more call, by its outcome.
    pub fn count<C>(&mut self, outcome: &io::Result<C>)
        ensures { self.new ≡ listen_counts_after outcome.now self.old }
    {
        match outcome {
            Ok(_) => self.accepted = self.accepted.saturating_add(1),
            Err(_) => self.failures = self.failures.saturating_add(1),
        }
    }
}

/// A connection that is served in parts: its two ends, and what is kept from one part to the next.
/// It is given back to its listener.
#[derive(Drop)]
pub struct Connection<R, W> {
    pub reader: R,
    pub writer: W,
    /// What was read of requests that were not answered yet, once a part was served.
    pub buffer: Option<Buffer>,
    /// How many requests may still come.
    pub left: u32,
}

impl<R, W> Connection<R, W> {
    /// A connection of these ends before its first part.
    pub fn new(reader: R, writer: W) -> Connection<R, W>
        ensures reader { result.reader ≡ reader }
        ensures writer { result.writer ≡ writer }
        ensures buffer { result.buffer ≡ None }
        ensures left { result.left ≡ connection_limit }
    {
        Connection {
            reader,
            writer,
            buffer: None,
            left: CONNECTION_LIMIT,
        }
    }
}

/// How a turn of serving connections ended.
#[derive(Clone, Copy)]
pub enum TurnEnd {
    /// As many connections were served as were asked for.
    Served,
    /// The turn is to end, as when another run waits for the file of the office. A connection that
    /// was not served to its end is kept.
    Asked,
}

/// Where connections come from. Contracts see the counts of its calls, the connection that it keeps
/// from one turn to the next and, where they are known, the ends of the connections that it gave
/// and of those that it got back, as they were then.
pub trait Listen {
    ghost use Rattle.std.specs.Prelude.{[], ◌∷◌, Some};
    ghost use Rattle.office_http.specs.Listening.{ListenerMoves, Gives, Listening, connection_state};

    type Reader: Source;

    type Writer: Sink;

    // How the listener's calls went so far, what it gave and got back, and what it keeps.
    ghost told: { Self → Listening };

    /// Gives the connection that was kept, or waits for a new one, on which nothing was read or
    /// written yet. It gives none if the turn is to end, as when another run waits for the file of
    /// the office. An error means that none could be accepted, and counts as a failure.
    fn accept(&mut self) -> io::Result<Option<Connection<Self::Reader, Self::Writer>>>
        ensures { Gives (connection_state Self.Reader.told Self.Writer.told) result
            (told self.old) (told self.new) };

    /// Keeps a connection for the next turn.
    fn keep(&mut self, connection: Connection<Self::Reader, Self::Writer>)
        ensures { ListenerMoves (told self.old) (told self.new) (told self.old).counts [] []
            (Some (connection_state Self.Reader.told Self.Writer.told connection)) };

    /// Takes a connection back and ends it. It may stay open for a while for what its client still
    /// sends.
    fn take_back(&mut self, connection: Connection<Self::Reader, Self::Writer>)
        ensures { ListenerMoves (told self.old) (told self.new) (told self.old).counts []
            ((connection_state Self.Reader.told Self.Writer.told connection).ends ∷ [])
            (told self.old).kept };
}

/// Why not all connections of a listener were served.
#[derive(Clone, Copy)]
pub enum ServeStop {
    /// The next connection could not be accepted.
    Accept,
    /// The buffer of a connection was refused, and nothing was read from that connection.
    NoMemory,
}

/// Whether a part of a connection paused, so that it is to be served on.
fn pauses(outcome: &Result<Part, ServeFault>) -> bool
    ensures { result ≡ has_paused outcome.now }
{
    match outcome {
        Ok(part) => matches!(part.end, PartEnd::Paused),
        Err(_) => false,
    }
}

/// How many requests were dealt with in a part of a connection.
fn requests_of(outcome: &Result<Part, ServeFault>) -> u32
    ensures { result ≡ told_requests (as_served outcome.now) }
{
    match outcome {
        Ok(part) => part.requests,
        Err(ServeFault::Read { requests }) => *requests,
        Err(ServeFault::Write { requests }) => *requests,
        Err(ServeFault::NoMemory) => 0,
    }
}

/// Takes the buffer of a connection out of its place; it is made if there is none yet.
fn take_buffer(alloc: Global, place: &mut Option<Buffer>) -> Result<Buffer, AllocError>
    ensures taken { IfOk result (λ buffer. buffer ≡ bytes_in place.old) }
    ensures kept { OnErr result (place.new ≡ place.old) }
{
    match place.take() {
        Some(buffer) => Ok(buffer),
        None => Buffer::new(alloc),
    }
}

/// Serves a part of a connection by a machine: first from what is buffered, and at most as many
/// requests as are left. If its ends fail the connection ends, which is no error. Gives whether it
/// goes on with another part. The error means that its buffer was refused.
fn serve_connection<Tools, M: Machine<Tools>, R: Source, W: Sink>(
    alloc: Global,
    machine: &mut M,
    tools: &mut Tools,
    connection: &mut Connection<R, W>,
) -> Result<bool, AllocError>
    ensures clean { M.is_clean machine.new → M.is_clean machine.old }
    ensures honest { M.storage.is_honest machine.new → M.storage.is_honest machine.old }
    ensures did { M.is_clean machine.new →
        (before : M.State) (held : M.Stored) → KeepsState M.storage machine.old held before →
        IfOk result (λ goes_on. (after : M.State) × (kept : M.Stored)
        × ServesConnection M.protocol (ran_by M.protocol M.storage)
        machine.old held before machine.new kept after
        (connection_between goes_on (connection_state R.told W.told connection.old)
        (connection_state R.told W.told connection.new))) }
    // If its buffer was refused, nothing was touched.
    ensures untouched { OnErr result (
        (connection_state R.told W.told connection.new
        ≡ connection_state R.told W.told connection.old)
        × (machine.new ≡ machine.old)) }
{
    let mut buffer = take_buffer(alloc, &mut connection.buffer)?;
    let reader = &mut connection.reader;
    let writer = &mut connection.writer;
    let left = connection.left;
    let outcome = serve_buffered(
        alloc,
        machine,
        tools,
        &mut buffer,
        reader,
        writer,
        left,
        true,
    );
    connection.buffer = Some(buffer);
    connection.left = left.saturating_sub(requests_of(&outcome));
    Ok(pauses(&outcome))
}

/// Serves `left` connections by a machine, one after the other, each at most 10,000 requests, and
/// counts `left` down. A connection whose ends fail counts too, and the next one follows it. It
/// stops when the listener gives none, or when a connection pauses, which the listener keeps.
/// `Accept` if the next connection could not be accepted, `NoMemory` if the buffer of one was
/// refused.
fn serve_by<Tools, M: Machine<Tools>, L: Listen>(
    alloc: Global,
    listener: &mut L,
    left: &mut u32,
    machine: &mut M,
    tools: &mut Tools,
) -> Result<TurnEnd, ServeStop>
    ensures clean { M.is_clean machine.new → M.is_clean machine.old }
    ensures honest { M.storage.is_honest machine.new → M.storage.is_honest machine.old }
    ensures did { (served : List Connected)
        × EndsListening left.old left.new (L.told listener.old) (L.told listener.new) served result
        × (M.is_clean machine.new →
        (before : M.State) (held : M.Stored) → KeepsState M.storage machine.old held before →
        ListensBy M.protocol M.storage (ran_by M.protocol M.storage)
        machine.old held before machine.new served) }
{
    while *left > 0 {
        let Ok(next) = listener.accept() else {
            return Err(ServeStop::Accept);
        };
        let Some(mut connection) = next else {
            return Ok(TurnEnd::Asked);
        };
        match serve_connection(alloc, machine, tools, &mut connection) {
            Ok(true) => {
                listener.keep(connection);
                return Ok(TurnEnd::Asked);
            }
            Ok(false) => {
                listener.take_back(connection);
                *left -= 1;
            }
            Err(_) => {
                listener.take_back(connection);
                return Err(ServeStop::NoMemory);
            }
        }
    }
    Ok(TurnEnd::Served)
}

/// Serves `left` connections in a turn, one after the other, each at most 10,000 requests, and
/// counts `left` down. A connection whose ends fail counts too, and the next one follows it. The
/// turn ends when another run waits for the file of the office. The listener keeps a connection
/// that is not at its end then, and the next turn goes on from there, also within a request.
/// `Accept` if the next connection could not be accepted, `NoMemory` if the buffer of one was
/// refused.
pub fn serve_each<S: Shelf, L: Listen>(
    alloc: Global,
    listener: &mut L,
    left: &mut u32,
    office: &mut Office<S>,
) -> Result<TurnEnd, ServeStop>
    ensures clean { S.is_clean office.new → S.is_clean office.old }
    ensures honest { S.is_honest office.new → S.is_honest office.old }

    // Each connection that the listener gave was served part by part, as `serve_buffered` does,
    // from its first call until it was given back, and no other one; and the listener says how many
    // it gave and got back, which one it keeps, and that it failed, if that is the reason.
    ensures did { let storage = office_storage S.is_honest S.content S.written S.may_leave in
        (served : List Connected)
        × EndsListening left.old left.new (L.told listener.old) (L.told listener.new) served result
        × (S.is_clean office.new →
        (before : OfficeState) (tables : Content) → KeepsState storage office.old tables before →
        Listens storage office.old tables before office.new served) }
{
    let mut tools = StreamTools::new();
    serve_by(alloc, listener, left, office, &mut tools)
}

/// Answers the requests of connections while the file of the office is unavailable, by saying so.
/// Connections are given, counted and kept as by `serve_each`.
pub fn answer_away<L: Listen>(
    alloc: Global,
    listener: &mut L,
    left: &mut u32,
) -> Result<TurnEnd, ServeStop>
    ensures { (served : List Connected)
        × EndsListening left.old left.new (L.told listener.old) (L.told listener.new) served result
        × AnswersAway served }
{
    serve_by(alloc, listener, left, &mut Away, &mut ())
}
