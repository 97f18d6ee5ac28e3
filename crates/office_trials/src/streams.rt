//! Streams of bytes by `serve`: worked ones over maps and over a database, and ends that fail, are
//! full, wait or never stop, and connections.

use crate::asking::{Bench, bytes_of, bytes_of_answers, in_maps, requests, same};
use crate::ends::{ANY, END, FAILURE, serve_ends, serve_in_parts};
use office_desk::office::Office;
use office_http::{FromListener, TurnEnd, serve_each, serve_on};
use office_http_framing::laws::{one_front, one_list_of_requests};
use office_tables_shelf::shelf::Shelf;
use std::io;
use std::io::Write;
use std::net::{Ipv4Addr, Shutdown, SocketAddr, TcpListener, TcpStream};
use std::process::Abort;

/// The answers to the first seven requests. The first three have 93, 53 and 76 bytes, and their
/// answers 89, 184 and 126.
static ANSWERS: [&str; 7] = [
    r#"200 OK|{"result":"added"}"#,
    "200 OK|{\"id\":12,\"interval\":365,\"name\":\"Main St\",\"owner\":null,\"revision\":0,\
    \"rows\":0,\"state\":\"normal\",\"verify\":\"notDone\"}",
    r#"200 OK|{"revision":0,"state":"transaction","verify":"notDone"}"#,
    r#"200 OK|{"revision":0,"state":"transaction","verify":"notDone"}"#,
    r#"200 OK|{"revision":0,"state":"verify","verify":"notDone"}"#,
    r#"200 OK|{"revision":0,"state":"done","verify":"doneWithNoError"}"#,
    r#"200 OK|{"revision":1,"state":"normal","verify":"notDone"}"#,
];

/// A request with two equal lengths, and after it one that would add an intersection.
const TWO_LENGTHS: &[u8] =
    b"POST /import HTTP/1.1\r\nContent-Length: 2\r\nContent-Length: 2\r\n\r\n{}\
    POST /intersections HTTP/1.1\r\nContent-Length: 41\r\n\r\n\
    {\"id\":12,\"interval\":365,\"name\":\"Main St\"}";

/// The one answer to `TWO_LENGTHS`, and the answer if there is no such intersection.
static REFUSED: [&str; 1] = [r#"400 Bad Request|{"error":"Length","number":3}"#];

static UNKNOWN: [&str; 1] = [r#"404 Not Found|{"error":"UnknownIntersection","number":10}"#];

/// Serves bytes, by reads of so many at most. The stream must end after `requests` requests, with
/// these answers.
fn serve_as<S: Shelf>(
    rt: &Bench<impl Abort>,
    office: &mut Office<S>,
    stream: (&[u8], usize),
    requests: usize,
    answers: &[&str],
) {
    let stream = (stream.0, stream.1, END);
    let ((end, count), came) = serve_ends(rt, office, stream, ANY, 10_000);
    let is_right = end == "end" && count as usize == requests;
    assert!(rt; is_right, "the end of a stream");
    let wanted = bytes_of_answers(rt, answers);
    same(rt, "a worked stream", wanted.as_bytes(), &came);
}

/// Serves streams by reads of so many bytes at most. Two equal lengths end the first, so that
/// nothing is added; then come a request for the missing intersection, two requests, none, and five
/// that commit a plan.
pub(crate) fn serve_worked<S: Shelf>(
    rt: &Bench<impl Abort>,
    office: &mut Office<S>,
    requests: &[&'static str],
    most: usize,
) {
    serve_as(rt, office, (TWO_LENGTHS, most), 0, &REFUSED);
    for (part, answers) in [
        (requests.get(1..2), UNKNOWN.as_slice()),
        (requests.get(..2), &ANSWERS[..2]),
        (None, &ANSWERS[..0]),
        (requests.get(2..7), &ANSWERS[2..]),
    ] {
        let part = part.unwrap_or(&[]);
        let bytes = bytes_of(rt, part);
        serve_as(rt, office, (bytes.as_bytes(), most), part.len(), answers);
    }
}

/// A reader fails or ends after so many bytes, never ends, or gives its second request only once
/// the answer to the first was taken, and is not called before. A writer takes no byte, or takes
/// 100 bytes and then none, or fails after these. So many bytes of the answers are taken.
#[test]
fn ends_fail_and_wait(host: HostRuntime) {
    let rt = (&host, host.alloc());
    let bytes = bytes_of(&rt, &requests(&rt, 3));
    let bytes = bytes.as_bytes();
    let answers = bytes_of_answers(&rt, &ANSWERS[..3]);
    let (first, others) = bytes.split_at_checked(93).expect(&rt, "a request");
    for &(end, after, room, limit, wanted, count) in &[
        (0, FAILURE, ANY, 9, ("read", 0), 0),
        (93, FAILURE, ANY, 9, ("read", 1), 89),
        (100, FAILURE, ANY, 9, ("read", 1), 89),
        (100, END, ANY, 9, ("end", 1), 89),
        (93, (first, 0), ANY, 9, ("end", 9), 89 + 8 * 88),
        (93, (others, 89), ANY, 3, ("end", 3), 399),
        (222, END, (0, false), 9, ("write", 1), 0),
        (222, END, (100, false), 9, ("write", 2), 100),
        (222, END, (100, true), 9, ("write", 2), 100),
    ] {
        let stream = (bytes.get(..end).unwrap_or(b""), usize::MAX, after);
        let (ended, taken) = serve_ends(&rt, &mut in_maps(&rt), stream, room, limit);
        let begun = answers.as_bytes().get(..count).unwrap_or(b"");
        let is_right = ended == wanted && taken.len() == count && taken.starts_with(begun);
        assert!(rt; is_right, "{end} bytes: {} {}", ended.0, ended.1);
    }
}

/// A stream that is left before each answer and each read, and served on from its buffer, has the
/// answers of the whole: seven requests, by reads of all their bytes, of 100 at most, and of one.
#[test]
fn a_stream_is_served_in_parts(host: HostRuntime) {
    let rt = (&host, host.alloc());
    let bytes = bytes_of(&rt, &requests(&rt, 7));
    let bytes = bytes.as_bytes();
    let answers = bytes_of_answers(&rt, &ANSWERS);
    for most in [usize::MAX, 100, 1] {
        let (counts, taken) = serve_in_parts(&rt, &mut in_maps(&rt), bytes, most);
        same(&rt, "a stream in parts", answers.as_bytes(), &taken);
        let (requests, pauses, reads) = counts;
        let is_right = requests == 7 && pauses == reads.saturating_add(7);
        assert!(rt; is_right, "{requests} requests, {pauses} pauses");
    }
}

/// Sends these bytes to the listener, and closes the sending side.
fn send(rt: &HostRuntime, listener: &TcpListener, bytes: &[u8]) -> io::Result<TcpStream> {
    let mut wire = TcpStream::connect(rt, listener.local_addr()?)?;
    wire.write_all(bytes)?;
    wire.shutdown(Shutdown::Write)?;
    Ok(wire)
}

/// Serves two connections of a listener.
fn serve_two<S: Shelf>(rt: &Bench<impl Abort>, listener: TcpListener, office: &mut Office<S>) {
    assert!(rt; serve_on(rt.1, &listener, 1, office).is_ok());
    let mut listener = FromListener::new(listener);
    let mut left = 1;
    let ended = serve_each(rt.1, &mut listener, &mut left, office);
    assert!(rt; matches!(ended, Ok(TurnEnd::Served)) && left == 0);
    let counts = listener.counts();
    assert!(rt; counts.accepted == 1 && counts.failures == 0);
}

/// A connection gets two answers.
fn gets(rt: &Bench<impl Abort>, connection: Option<TcpStream>, answers: [&str; 2]) {
    let connection = connection.expect(rt, "a connection");
    let came = io::read_to_string(rt.1, connection)
        .ok()
        .expect(rt, "answers");
    let wanted = bytes_of_answers(rt, &answers);
    same(rt, "a connection", wanted.as_bytes(), came.as_bytes());
}

/// Two connections wait, and each gets its own two answers: the first adds the intersection, and
/// the second finds it there. It also calls the two laws.
#[test]
fn two_connections_are_served(host: HostRuntime) {
    let rt = (&host, host.alloc());
    one_front();
    one_list_of_requests();
    let bytes = bytes_of(&rt, &requests(&rt, 2));
    let address = SocketAddr::from((Ipv4Addr::LOCALHOST, 0));
    let listener = TcpListener::bind(&host, address)
        .ok()
        .expect(&rt, "a listener");
    let first = send(&host, &listener, bytes.as_bytes()).ok();
    let second = send(&host, &listener, bytes.as_bytes()).ok();
    serve_two(&rt, listener, &mut in_maps(&rt));
    let again = r#"200 OK|{"result":"same"}"#;
    gets(&rt, first, [ANSWERS[0], ANSWERS[1]]);
    gets(&rt, second, [again, ANSWERS[1]]);
}
