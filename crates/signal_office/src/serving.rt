//! The office on a port of the loopback network, in turns with other runs over its file.

ghost use Rattle.std.specs.Prelude.{◌≡◌, List, None, Some, Err, IfOk, IfErr};
ghost use Rattle.office_machine.specs.Office.{Office as OfficeState};
ghost use Rattle.office_tables_shelf.specs.Content.{Content};
ghost use Rattle.office_http_framing.specs.Ends.{FailsOrGivesNone};
ghost use Rattle.office_http_framing.specs.Stops.{KeepsState};
ghost use Rattle.office_http.specs.Listening.{Connected, Listening, Listens, no_listening, system_listening};
ghost use Rattle.office_http.specs.Protocol.{office_storage};
ghost use Rattle.signal_office.specs.Serving.{IsUnheard, ServesPort, ended_as};

use office_desk::office::Office;
use office_http::{
    Asking, FromListener, ServeStop, Sink, TurnEnd, answer_away, serve_each, write_all,
};
use office_tables_shelf::shelf::Shelf;
use signal_office_faults::{Fault, note_system};
use signal_office_file::{OfficeTask, TakesTurns};
use std::alloc::Global;
use std::fs::File;
use std::io;
use std::net::{Ipv4Addr, SocketAddr, TcpListener};

/// Prints that the program listens on a port of 127.0.0.1. The fault is Memory, or Write where the
/// output failed or took no byte.
fn say<W: Sink>(alloc: Global, port: u16, out: &mut W) -> Result<(), Fault>
    ensures unheard { IfErr result (λ why. IsUnheard (Err why)) }
    ensures unwritten { result ≡ Err Fault.Write →
        FailsOrGivesNone (W.told out.old).counts (W.told out.new).counts }
{
    let line = format!(in alloc; "listening on 127.0.0.1:{port}\n")?;
    match write_all(out, line.as_bytes()) {
        Ok(()) => Ok(()),
        Err(_) => Err(Fault::Write),
    }
}

/// Says why the system refuses a port of 127.0.0.1.
fn note_port(rt: &HostRuntime, alloc: Global, port: u16, error: io::Error) {
    if let Ok(name) = format!(in alloc; "port {port} of 127.0.0.1") {
        note_system(rt, name.as_str(), error);
    }
}

/// Listens on a port of 127.0.0.1, and prints that. The fault is Bind if the system refuses the
/// port, Write if the line was not written, or Memory.
fn listen<W: Sink>(
    rt: &HostRuntime,
    alloc: Global,
    port: u16,
    out: &mut W,
) -> Result<FromListener, Fault>
    ensures listening { IfOk result (λ it. it ≡ system_listening no_listening None) }
    ensures unheard { IfErr result (λ why. IsUnheard (Err why)) }
    ensures unwritten { IfErr result (λ why. why ≡ Fault.Write →
        FailsOrGivesNone (W.told out.old).counts (W.told out.new).counts) }
{
    let address = SocketAddr::from((Ipv4Addr::LOCALHOST, port));
    let listener = match TcpListener::bind(rt, address) {
        Ok(listener) => listener,
        Err(error) => {
            note_port(rt, alloc, port, error);
            return Err(Fault::Bind);
        }
    };
    match say(alloc, port, out) {
        Ok(()) => Ok(FromListener::new(listener)),
        Err(fault) => Err(fault),
    }
}

/// How a turn of serving a listener ended: without a fault, or with the one that says why it did
/// not serve all connections.
fn outcome_of(ended: Result<TurnEnd, ServeStop>) -> Result<(), Fault>
    ensures { result ≡ ended_as ended }
{
    match ended {
        Ok(_) => Ok(()),
        Err(ServeStop::Accept) => Err(Fault::Bind),
        Err(ServeStop::NoMemory) => Err(Fault::Memory),
    }
}

/// The task of serving connections on a port of 127.0.0.1 by an office, in turns.
#[derive(Drop)]
pub(crate) struct Serving {
    port: u16,
    /// How many connections are left to be served.
    left: u32,
    /// The listener, once the port is listened on.
    listener: Option<FromListener>,
    /// The turn that begins next.
    asking: Asking,
}

impl Serving {
    /// Serving `count` connections on a port, before the first turn.
    pub(crate) fn new(port: u16, count: u32) -> Serving
        ensures { (result.left ≡ count) × (result.listener ≡ None) }
    {
        Serving {
            port,
            left: count,
            listener: None,
            asking: Asking::never(),
        }
    }

    /// The listener; if there is none yet, listens on the port, and prints that.
    fn take_listener<W: Sink>(
        &mut self,
        rt: &HostRuntime,
        alloc: Global,
        out: &mut W,
    ) -> Result<FromListener, Fault>
        ensures left { self.new.left ≡ self.old.left }
        ensures taken { self.new.listener ≡ None }
        ensures kept { IfOk result (λ listener.
            (it : Listening) → self.old.listener ≡ Some it → listener ≡ it) }
        ensures listening { IfOk result (λ listener.
            self.old.listener ≡ None → listener ≡ system_listening no_listening None) }
        ensures refused { IfErr result (λ _. self.old.listener ≡ None) }
        // The line is printed only for a new listener.
        ensures said { (it : Listening) → self.old.listener ≡ Some it → out.new ≡ out.old }
        ensures unheard { IfErr result (λ why. IsUnheard (Err why)) }
        ensures unwritten { IfErr result (λ why. why ≡ Fault.Write →
            FailsOrGivesNone (W.told out.old).counts (W.told out.new).counts) }
    {
        match self.listener.take() {
            Some(listener) => Ok(listener),
            None => listen(rt, alloc, self.port, out),
        }
    }

    /// Serves the connections that are left in this turn, one after the other, each at most 10,000
    /// requests, until all were served or another run waits for the file of the office. The first
    /// turn begins by listening on the port, and prints that. The fault is Bind if the port or a
    /// connection was refused, Write if the line was not written, or Memory.
    pub(crate) fn serve_port<S: Shelf, W: Sink>(
        &mut self,
        rt: &HostRuntime,
        alloc: Global,
        office: &mut Office<S>,
        out: &mut W,
    ) -> Result<(), Fault>
        ensures clean { S.is_clean office.new → S.is_clean office.old }
        ensures honest { S.is_honest office.new → S.is_honest office.old }

        // The office served each of these parts of connections as `serve_buffered` does, and no
        // other; the listener counts the connections that were accepted, and the fault says what
        // failed.
        ensures did { let storage = office_storage S.is_honest S.content S.written S.may_leave in
            (served : List Connected) × ServesPort self.old self.new served result
            × (S.is_clean office.new → (before : OfficeState) (tables : Content) →
            KeepsState storage office.old tables before →
            Listens storage office.old tables before office.new served) }
        ensures unwritten { result ≡ Err Fault.Write →
            FailsOrGivesNone (W.told out.old).counts (W.told out.new).counts }
        // The line is printed only for a new listener.
        ensures said { (it : Listening) → self.old.listener ≡ Some it → out.new ≡ out.old }
    {
        let mut listener = match self.take_listener(rt, alloc, out) {
            Ok(listener) => listener,
            Err(fault) => return Err(fault),
        };
        listener.begin_turn(self.asking.take());
        let ended = serve_each(alloc, &mut listener, &mut self.left, office);
        self.listener = Some(listener);
        outcome_of(ended)
    }
}

impl OfficeTask<()> for Serving {
    ghost use Rattle.signal_office.specs.Serving.{serve_effect};

    ghost effect = { serve_effect };

    fn done_with<S: Shelf, W: Sink>(
        &mut self,
        rt: &HostRuntime,
        alloc: Global,
        office: &mut Office<S>,
        out: &mut W,
    ) -> Result<(), Fault> {
        self.serve_port(rt, alloc, office, out)
    }
}

impl TakesTurns for Serving {
    fn begin_turn(&mut self, turn_file: Option<File>) {
        self.asking = Asking::opening(turn_file);
    }

    fn is_done(&self) -> bool {
        self.left == 0
    }

    fn await_work(&mut self) {
        if let Some(listener) = &mut self.listener {
            listener.await_need();
        }
    }

    fn answer_unavailable(&mut self, alloc: Global) {
        if let Some(listener) = &mut self.listener {
            listener.go_away();
            // If this fails, the next turn fails too, and reports why.
            let _ = answer_away(alloc, listener, &mut self.left);
        }
    }
}
