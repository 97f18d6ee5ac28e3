//! Requests to an office, which come as streams, and what an office over maps answers to them and
//! shows then.

use crate::ends::{ANY, END, serve_ends};
use office_desk::office::Office;
use office_tables_maps::map_shelf::MapShelf;
use office_tables_shelf::shelf::Shelf;
use std::alloc::Global;
use std::process::Abort;

/// What ends a test that fails, and the allocator.
pub(crate) type Bench<R> = (R, Global);

/// A new office over maps.
pub(crate) fn in_maps(rt: &Bench<impl Abort>) -> Office<MapShelf> {
    Office::new(MapShelf::new(rt.1))
}

/// A copy of bytes.
pub(crate) fn copy(rt: &Bench<impl Abort>, bytes: &[u8]) -> Vec<u8> {
    Vec::from_slice(rt.1, bytes).expect(rt, "memory")
}

/// Fails the test if what came is not what was wanted.
pub(crate) fn same(rt: &Bench<impl Abort>, what: &str, wanted: &[u8], came: &[u8]) {
    let wants = String::from_utf8_lossy(rt.1, wanted).expect(rt, "memory");
    let seen = String::from_utf8_lossy(rt.1, came).expect(rt, "memory");
    assert!(rt; wanted == came, "{what}: wanted {wants}, came {seen}");
}

/// The bytes of messages, each given as a first line, to be put between `before` and `behind`, a
/// bar, and its content.
fn bytes_of_messages(rt: &Bench<impl Abort>, lines: &[&str], before: &str, behind: &str) -> String {
    let mut bytes = String::new(rt.1);
    for message in lines {
        let (line, content) = message.split_once('|').unwrap_or((message, ""));
        let size = content.len();
        let made = write!(
            bytes,
            "{before}{line}{behind}\r\nContent-Length: {size}\r\n\r\n{content}"
        );
        made.expect(rt, "memory");
    }
    bytes
}

/// The bytes of requests.
pub(crate) fn bytes_of(rt: &Bench<impl Abort>, requests: &[&str]) -> String {
    bytes_of_messages(rt, requests, "", " HTTP/1.1")
}

/// The bytes of answers.
pub(crate) fn bytes_of_answers(rt: &Bench<impl Abort>, answers: &[&str]) -> String {
    let kind = "\r\nContent-Type: application/json";
    bytes_of_messages(rt, answers, "HTTP/1.1 ", kind)
}

/// The bytes that an office answers to requests of one stream.
pub(crate) fn answers_to<S: Shelf>(
    rt: &Bench<impl Abort>,
    office: &mut Office<S>,
    requests: &[&str],
) -> Vec<u8> {
    let bytes = bytes_of(rt, requests);
    let stream = (bytes.as_bytes(), usize::MAX, END);
    serve_ends(rt, office, stream, ANY, 10_000).1
}

/// Requests whose answers show all that an office with intersection 12 holds.
static QUERIES: [&str; 7] = [
    "GET /intersections/12",
    "GET /intersections/12/timing",
    "GET /intersections/12/draft",
    "GET /intersections/12/cabinet",
    "GET /intersections/12/open-orders",
    "GET /stock",
    "GET /overdue/2027-05-03",
];

/// All that an office shows of intersection 12, of the stock and of what is overdue.
pub(crate) fn state_of<S: Shelf>(rt: &Bench<impl Abort>, office: &mut Office<S>) -> Vec<u8> {
    answers_to(rt, office, &QUERIES)
}

/// Requests, separated by semicolons, each with its content after a bar. Intersection 12 is added
/// and shown, and a plan of eleven rows committed; a draft is abandoned, records are imported and
/// come again after a closing, the stock is filled, and one record of each other kind is taken.
/// Four changed rows are committed; at last a row is removed, put back twice as it is committed,
/// and removed.
fn requests_text() -> &'static str {
    "POST /intersections|{\"id\":12,\"interval\":365,\"name\":\"Main St\"};GET /intersections/12;\
    POST /intersections/12/begin|{\"clerk\":\"Ana\"};\
    POST /intersections/12/edit-csv|{\"clerk\":\"Ana\",\
    \"csv\":\"phase,2,1,8,20,40,40,15,6,7,12,490,60,0,0\\nphase,4,1,8,20,40,40,15,8\\n\
    phase,6,2,8,20,40,40,15,2\\nphase,8,2,8,20,40,40,15,4\\nseq,1,1,2 4\\nseq,1,2,6 8\\n\
    split,1,2,35,2,1\\nsplit,1,4,25,2,0\\nsplit,1,6,35,2,1\\nsplit,1,8,25,2,0\\n\
    pattern,1,60,0,1,1\\n\"};POST /intersections/12/verify|{\"clerk\":\"Ana\"};\
    POST /intersections/12/check|{\"clerk\":\"Ana\"};\
    POST /intersections/12/commit|{\"clerk\":\"Ana\"};\
    POST /intersections/12/begin|{\"clerk\":\"Ana\"};\
    POST /intersections/12/edit-csv|{\"clerk\":\"Ana\",\"csv\":\"split,1,6,34,2,1\\n\
    split,1,8,26,2,0\\n\"};POST /intersections/12/abandon|{\"clerk\":\"Bo\"};\
    POST /import|{\"csv\":\"delivery,RELAY,1,2026-05-01,10\\ninspection,12,1,2026-05-01,Ana,Fan\\n\
    order,12,1,2026-05-01,Ana,Relay\\norder,12,2,2026-05-01,Ana,\\\"Door, north\\\"\\n\
    use,12,1,1,RELAY,2\\n\"};POST /intersections/12/orders/1/close|{\"clerk\":\"Bo\",\
    \"day\":\"2026-05-03\"};POST /import|{\"csv\":\"delivery,RELAY,1,2026-05-01,10\\n\
    order,12,1,2026-05-01,Ana,Relay\\n\"};\
    POST /deliveries|{\"count\":999999991,\"day\":\"2026-05-01\",\"number\":2,\"part\":\"RELAY\"};\
    POST /deliveries|{\"count\":999999990,\"day\":\"2026-05-01\",\"number\":2,\"part\":\"RELAY\"};\
    POST /deliveries|{\"count\":1,\"day\":\"2026-05-01\",\"number\":3,\"part\":\"RELAY\"};\
    POST /intersections/12/inspections|{\"clerk\":\"Ana\",\"day\":\"2026-05-02\",\
    \"number\":2,\"text\":\"Fan\"};POST /intersections/12/orders|{\"clerk\":\"Ana\",\
    \"day\":\"2026-05-02\",\"number\":3,\"text\":\"Relay\"};\
    POST /intersections/12/orders/3/parts|{\"count\":2,\"line\":1,\"part\":\"RELAY\"};\
    POST /intersections/12/begin|{\"clerk\":\"Ana\"};\
    POST /intersections/12/edit-csv|{\"clerk\":\"Ana\",\"csv\":\"seq,1,1,2 4\\nsplit,1,2,46,2,1\\n\
    split,1,4,14,2,0\\nsplit,1,6,46,2,1\\nsplit,1,8,14,2,0\\npattern,1,60,0,1,1\\n\"};\
    POST /intersections/12/verify|{\"clerk\":\"Ana\"};\
    POST /intersections/12/check|{\"clerk\":\"Ana\"};\
    POST /intersections/12/commit|{\"clerk\":\"Ana\"};\
    POST /intersections/12/begin|{\"clerk\":\"Ana\"};\
    POST /intersections/12/edit-csv|{\"clerk\":\"Ana\",\"csv\":\"remove,pattern,1\\n\"};\
    POST /intersections/12/edit-csv|{\"clerk\":\"Ana\",\"csv\":\"pattern,1,60,0,1,1\\n\"};\
    POST /intersections/12/edit-csv|{\"clerk\":\"Ana\",\"csv\":\"pattern,1,60,0,1,1\\n\"};\
    POST /intersections/12/edit-csv|{\"clerk\":\"Ana\",\"csv\":\"remove,pattern,1\\n\"};\
    POST /intersections/12/verify|{\"clerk\":\"Ana\"};\
    POST /intersections/12/check|{\"clerk\":\"Ana\"};\
    POST /intersections/12/commit|{\"clerk\":\"Ana\"}"
}

/// Requests with their answers, and what is shown before each and after the last.
#[derive(Drop)]
pub(crate) struct Script {
    pub(crate) requests: Vec<&'static str>,
    pub(crate) answers: Vec<Vec<u8>>,
    pub(crate) states: Vec<Vec<u8>>,
}

/// The first `count` requests of `requests_text`.
pub(crate) fn requests(rt: &Bench<impl Abort>, count: usize) -> Vec<&'static str> {
    let mut requests = Vec::new(rt.1);
    for request in requests_text().split(';').take(count) {
        requests.push(request).expect(rt, "memory");
    }
    requests
}

/// The first `count` requests of `requests_text`, with the answers of an office over maps.
pub(crate) fn script_of(rt: &Bench<impl Abort>, count: usize) -> Script {
    let requests = requests(rt, count);
    let mut office = in_maps(rt);
    let (mut answers, mut states) = (Vec::new(rt.1), Vec::new(rt.1));
    states.push(state_of(rt, &mut office)).expect(rt, "memory");
    for request in &requests {
        let answer = answers_to(rt, &mut office, &[*request]);
        answers.push(answer).expect(rt, "memory");
        states.push(state_of(rt, &mut office)).expect(rt, "memory");
    }
    Script {
        requests,
        answers,
        states,
    }
}

/// The answer in place of one for which memory or the store was refused.
const UNAVAILABLE: &[u8] = b"HTTP/1.1 503 Service Unavailable\r\nContent-Type: application/json\r\n\
    Content-Length: 35\r\n\r\n{\"error\":\"Unavailable\",\"number\":90}";

/// Makes the requests of a script from number `from` on, and gives the number of the first that is
/// answered as unavailable, or the count of all. The test fails if another answer is not the
/// script's.
pub(crate) fn play<S: Shelf>(
    rt: &Bench<impl Abort>,
    office: &mut Office<S>,
    script: &Script,
    from: usize,
) -> usize {
    let steps = script.requests.iter().zip(&script.answers);
    for (n, (request, answer)) in steps.enumerate().skip(from) {
        let came = answers_to(rt, office, &[*request]);
        if came.as_slice() == UNAVAILABLE {
            return n;
        }
        same(rt, request, answer, &came);
    }
    script.requests.len()
}

/// How many answers of a script are in these bytes, before one that is missing or unavailable.
pub(crate) fn count_answered(rt: &Bench<impl Abort>, script: &Script, answers: &[u8]) -> usize {
    let mut rest = answers;
    for (n, answer) in script.answers.iter().enumerate() {
        if rest.is_empty() || rest.starts_with(UNAVAILABLE) {
            return n;
        }
        rest = rest.strip_prefix(answer.as_slice()).expect(rt, "an answer");
    }
    script.answers.len()
}
