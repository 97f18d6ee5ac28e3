//! The connections of a listener of the system.

ghost use Rattle.std.specs.Prelude.{◌≡◌, None, IfOk, List};
ghost use Rattle.office_machine.specs.Office.{Office as OfficeState};
ghost use Rattle.office_tables_shelf.specs.Content.{Content};
ghost use Rattle.office_http_framing.specs.Stops.{KeepsState};
ghost use Rattle.office_http.specs.Protocol.{office_storage};
ghost use Rattle.office_http.specs.Listening.{
  Connected,
  IsNew,
  Listens,
  ServesAsMany,
  listen_counts_after,
  no_listening,
  system_listening,
  system_state,
};

use crate::asking::Asking;
use crate::connection_reader::{ConnectionReader, SLICE, readiness};
use crate::ended::Ended;
use crate::listening::{Connection, Listen, ListenCounts, ServeStop, TurnEnd, serve_each};
use crate::waiting::WaitsOnce;
use libc::net as c;
use office_desk::office::Office;
use office_http_framing::ends::ToWrite;
use office_tables_shelf::shelf::Shelf;
use std::alloc::Global;
use std::io;
use std::marker::Model;
use std::net::{TcpListener, TcpStream};
use std::os::fd::{AsRawFd, RawFd};
use std::time::Duration;

/// How many seconds one read or one write of a connection may wait. After that it has failed.
const LONGEST_WAIT: u64 = 30;

/// A connection of a listener of the system.
type Accepted = Connection<ConnectionReader, ToWrite<WaitsOnce<TcpStream>>>;

/// A listener of the system, which counts its calls. Clauses see it as these counts and the
/// connection that it keeps, which no other module can set.
#[derive(Drop)]
pub struct FromListener {
    listener: TcpListener,
    counts: ListenCounts,
    ended: Ended,
    /// The turn in which connections are served. While one is served, its reader has the turn.
    asking: Asking,
    /// A connection that was not served to its end yet.
    kept: Option<Accepted>,
}

impl Model for FromListener {
    ghost use Rattle.std.specs.Option.{option_map};
    ghost use Rattle.office_http.specs.Listening.{Listening, system_listening, system_state};

    ghost Value = { Listening };

    ghost view = { λ s. system_listening s.counts (option_map system_state s.kept) };
}

impl FromListener {
    /// The listener before its first counted call.
    pub fn new(listener: TcpListener) -> FromListener
        ensures { result ≡ system_listening no_listening None }
    {
        FromListener {
            listener,
            counts: ListenCounts::default(),
            ended: Ended::new(),
            asking: Asking::never(),
            kept: None,
        }
    }

    /// How the calls went so far.
    pub fn counts(&self) -> ListenCounts
        ensures { result ≡ self.now.counts }
    {
        self.counts
    }

    /// Begins a turn, for which the file of the office was opened: until it ends another run may
    /// want the file.
    pub fn begin_turn(&mut self, asking: Asking)
        ensures { self.new ≡ self.old }
    {
        self.asking = asking;
        self.asking.begin();
    }

    /// Goes on while the file of the office is unavailable: it gives no connection for which it
    /// would have to wait.
    pub fn go_away(&mut self)
        ensures { self.new ≡ self.old }
    {
        self.asking = Asking::away();
    }

    /// Waits, while another run may have the file of the office, until it is needed: the connection
    /// that is kept has sent something, or has waited long enough, or another client waits.
    pub fn await_need(&mut self) {
        match &mut self.kept {
            Some(kept) => kept.reader.await_need(),
            None => {
                let _ = c::poll(&mut [readiness(self.listener.as_raw_fd())], -1);
            }
        }
    }
}

/// Waits for a client of this listener in this turn, and gives whether one came; if not, the turn
/// is to end. If no run can want the file, it does not wait, since accepting does.
fn await_client(listener: &TcpListener, asking: &mut Asking) -> bool {
    if !asking.may_be() {
        return true;
    }
    if asking.looks_in_time() {
        return false;
    }
    for _ in 0..u64::MAX {
        if c::poll(&mut [readiness(listener.as_raw_fd())], SLICE) != 0 {
            return true;
        }
        if asking.looks() {
            return false;
        }
    }
    true
}

/// The connection of this stream that this listener accepted. No read and no write waits longer
/// than `LONGEST_WAIT`. Each answer is sent at once, however short; if the system refuses that, it
/// may hold an answer back for a moment. The error is the system's, if it sets no time limit or
/// gives no second handle.
fn open_ends(stream: TcpStream, listener: RawFd) -> io::Result<Accepted>
    ensures { IfOk result (λ it. IsNew (system_state it)) }
{
    let wait = Duration::from_secs(LONGEST_WAIT);
    stream.set_read_timeout(Some(wait))?;
    stream.set_write_timeout(Some(wait))?;
    let _ = stream.set_nodelay(true);
    let writer = ToWrite::new(WaitsOnce::new(stream.try_clone()?));
    let reader = ConnectionReader::new(stream, listener);
    Ok(Connection::new(reader, writer))
}

/// Accepts a connection of this listener, which counts as a call.
fn accept_new(listener: &TcpListener, counts: &mut ListenCounts) -> io::Result<Accepted>
    ensures new { IfOk result (λ it. IsNew (system_state it)) }
    ensures counts { counts.new ≡ listen_counts_after result counts.old }
{
    let outcome = match listener.accept() {
        Ok((stream, _)) => open_ends(stream, listener.as_raw_fd()),
        Err(error) => Err(error),
    };
    counts.count(&outcome);
    outcome
}

impl Listen for FromListener {
    ghost use Rattle.std.specs.Prelude.{[], ◌∷◌, Some};
    ghost use Rattle.office_http.specs.Listening.{ListenerMoves, system_state};

    type Reader = ConnectionReader;

    type Writer = ToWrite<WaitsOnce<TcpStream>>;

    ghost told = { λ s. s };

    fn accept(&mut self) -> io::Result<Option<Accepted>> {
        if let Some(mut kept) = self.kept.take() {
            kept.reader.begin(self.asking.take());
            return Ok(Some(kept));
        }
        if !await_client(&self.listener, &mut self.asking) {
            return Ok(None);
        }
        let mut connection = accept_new(&self.listener, &mut self.counts)?;
        connection.reader.begin(self.asking.take());
        Ok(Some(connection))
    }

    fn keep(&mut self, mut connection: Accepted)
        ensures { ListenerMoves self.old self.new self.old.counts [] []
            (Some (system_state connection)) }
    {
        self.asking = connection.reader.pause();
        self.kept = Some(connection);
    }

    fn take_back(&mut self, mut connection: Accepted)
        ensures { ListenerMoves self.old self.new self.old.counts []
            ((system_state connection).ends ∷ []) self.old.kept }
    {
        self.asking = connection.reader.pause();
        let Connection { reader, writer, .. } = connection;
        drop(writer);
        self.ended.add(reader.end());
    }
}

/// Serves `count` connections of a listener of the system, one after the other, each at most 10,000
/// requests. A connection whose ends fail counts too. `Accept` if one could not be accepted, or the
/// system gives no second handle of the listener; `NoMemory` if the buffer of one was refused.
/// Connections that were ended are closed at the end.
pub fn serve_on<S: Shelf>(
    alloc: Global,
    listener: &TcpListener,
    count: u32,
    office: &mut Office<S>,
) -> Result<(), ServeStop>
    ensures clean { S.is_clean office.new → S.is_clean office.old }
    ensures honest { S.is_honest office.new → S.is_honest office.old }
    ensures did { let storage = office_storage S.is_honest S.content S.written S.may_leave in
        (served : List Connected) × ServesAsMany count served result
        × (S.is_clean office.new →
        (before : OfficeState) (tables : Content) → KeepsState storage office.old tables before →
        Listens storage office.old tables before office.new served) }
{
    let Ok(listener) = listener.try_clone() else {
        return Err(ServeStop::Accept);
    };
    let mut left = count;
    match serve_each(alloc, &mut FromListener::new(listener), &mut left, office)? {
        TurnEnd::Served => Ok(()),
        // This listener has no turn file, so no run can be seen to want the file.
        TurnEnd::Asked => Err(ServeStop::Accept),
    }
}
