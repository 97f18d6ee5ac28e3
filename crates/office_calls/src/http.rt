//! `office_http`: requests, answers, the two ends of a stream, and the engine.

ghost use Rattle.std.specs.Prelude.{None};

use office_desk::office::Office;
use office_desk::{Command, Reply};
use office_http::{
    AskFault, Asked, Counts, Fault, Form, FromRead, Front, More, Request, ServeFault, Served, Sink,
    Source, ToWrite, answer_of, command_of, fault_answer, next_request, serve, serve_on,
    unavailable,
};
use office_tables_maps::map_shelf::MapShelf;
use office_tables_shelf::shelf::Shelf;
use std::alloc::Global;
use std::io;
use std::io::Read;
use std::net::{Ipv4Addr, SocketAddr, TcpListener};
use std::test::Fail;

/// A request, and another one that ends its stream.
const STREAM: &[u8] = b"GET /stock HTTP/1.1\r\n\r\nGET /x HTTP/1.0\r\n\r\n";

/// How many bytes its first request takes.
const FIRST: usize = 23;

/// A caller's own source: it needs one function.
#[derive(Drop)]
struct Given<'a> {
    bytes: &'a [u8],
    counts: Counts,
}

impl Source for Given<'_> {
    ghost told = { λ s. record { bytes = None; counts = s.counts } };

    fn read(&mut self, buf: &mut [u8]) -> io::Result<usize> {
        let outcome = self.bytes.read(buf);
        self.counts.count(&outcome);
        outcome
    }
}

/// A caller's own sink, which keeps only its counts.
#[derive(Drop)]
struct Counting {
    counts: Counts,
}

impl Sink for Counting {
    ghost told = { λ s. record { bytes = None; counts = s.counts } };

    fn write(&mut self, buf: &[u8]) -> io::Result<usize> {
        let outcome = Ok(buf.len());
        self.counts.count(&outcome);
        outcome
    }
}

/// The request at the front of some bytes, if it takes `FIRST` bytes.
fn front(bytes: &[u8]) -> Option<Request<'_>> {
    match next_request(bytes) {
        Front::Whole { request, length } if length == FIRST => Some(request),
        Front::Whole { .. } | Front::More => None,
        Front::Bad(Fault::Head) => None,
        Front::Bad(_) => None,
    }
}

/// Whether the request asks for the stock, in JSON.
fn is_asked(alloc: Global, request: &Request<'_>) -> bool {
    let asked: Result<Asked, AskFault> = command_of(alloc, request);
    match asked {
        Ok(
            Asked {
                command: Command::Stock,
                form: Form::Json,
            },
        ) => true,
        _ => false,
    }
}

/// Whether the parts of a request are those of its bytes, and what it asks.
fn request_is_read(alloc: Global) -> Result<bool, Fail> {
    let request = front(STREAM).ok_or("a request")?;
    let Request {
        method,
        path,
        body,
        last,
    } = request;
    let parts = (method, path) == (b"GET".as_slice(), b"/stock".as_slice());
    Ok(parts && body.is_empty() && !last && is_asked(alloc, &request))
}

/// Whether an answer, a fault and the fixed answer are written.
fn answers_are_written(alloc: Global) -> Result<bool, Fail> {
    let added: Vec<u8> = answer_of(alloc, &Reply::Added, Form::Json)?;
    let fault: Vec<u8> = fault_answer(alloc, 6, More::Nothing)?;
    let fixed: &'static [u8] = unavailable();
    Ok(
        added.ends_with(b"{\"result\":\"added\"}")
            && fault.ends_with(b"{\"error\":\"NoRoute\",\"number\":6}")
            && fixed.ends_with(b"{\"error\":\"Unavailable\",\"number\":90}"),
    )
}

/// How a stream ended, and after how many requests.
fn end_of(served: &Result<Served, ServeFault>) -> (&'static str, u32) {
    match served {
        Ok(Served { requests }) => ("end", *requests),
        Err(ServeFault::Read { requests }) => ("read", *requests),
        Err(ServeFault::Write { requests }) => ("write", *requests),
        Err(ServeFault::NoMemory) => ("memory", 0),
    }
}

/// How the stream ends over that source and that sink, and how often each is called.
fn counted<S: Shelf>(alloc: Global, office: &mut Office<S>) -> ((&'static str, u32), [u64; 2]) {
    let mut source = Given {
        bytes: STREAM,
        counts: Counts::default(),
    };
    let mut sink = Counting {
        counts: Counts::default(),
    };
    let served: Result<Served, ServeFault> = serve(alloc, office, &mut source, &mut sink, 9);
    (end_of(&served), [source.counts.calls, sink.counts.calls])
}

/// What a writer takes when one request of the stream is served.
fn serve_a_writer<S: Shelf>(alloc: Global, office: &mut Office<S>) -> Vec<u8> {
    let mut source = FromRead::new(STREAM);
    let mut sink = ToWrite::new(Vec::new(alloc));
    let _served = serve(alloc, office, &mut source, &mut sink, 1);
    sink.writer
}

/// Whether serving no connection of a listener succeeds.
fn listens<S: Shelf>(
    rt: &HostRuntime,
    alloc: Global,
    office: &mut Office<S>,
) -> Result<bool, Fail> {
    let address = SocketAddr::from((Ipv4Addr::LOCALHOST, 0));
    let listener = TcpListener::bind(rt, address)?;
    Ok(serve_on(alloc, &listener, 0, office).is_ok())
}

#[test]
fn wire(rt: HostRuntime) -> Result<(), Fail> {
    let alloc = rt.alloc();
    assert!(rt; request_is_read(alloc)?);
    assert!(rt; answers_are_written(alloc)?);
    let mut office = Office::new(MapShelf::new(alloc));
    assert_eq!(rt; counted(alloc, &mut office), (("end", 2), [1, 2]));
    assert!(rt; serve_a_writer(alloc, &mut office).ends_with(b"{\"hand\":[]}"));
    assert!(rt; listens(&rt, alloc, &mut office)?);
    Ok(())
}
