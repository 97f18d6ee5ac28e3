//! What the bytes of a stream begin with.

ghost use Rattle.std.specs.Prelude.{◌≡◌, ◌==◌, ◌≤◌, length};
ghost use Rattle.std.specs.List.{before_first};
ghost use Rattle.httparse.specs.Spans.{IsRequestWithin, IsRequestOf};
ghost use Rattle.office_http_framing.specs.Front.{window, IsFrontOf};

use crate::fields::{body_length, closes};
use httparse::Status;
use httparse::spans::{EMPTY_HEADER_SPAN, HeaderSpan, RequestSpans, parse_request};

/// A head has to be whole within this many bytes from the front.
pub const HEAD_LIMIT: usize = 8_192;

/// The most fields of a head.
pub const FIELD_LIMIT: usize = 64;

const QUESTION_MARK: u8 = b'?';

/// Why no request can be read at the front.
#[derive(Clone, Copy)]
pub enum Fault {
    /// The bytes can become no head of a request with at most `FIELD_LIMIT` fields.
    Head,
    /// The head is not whole in the first `HEAD_LIMIT` bytes.
    HeadTooLarge,
    /// A Content-Length is not digits alone, or there is more than one.
    Length,
    /// Content-Length is more than 262,144 bytes.
    BodyTooLarge,
    /// The message has a Transfer-Encoding.
    Coded,
}

/// A whole request, which borrows the bytes of the stream.
#[derive(Clone, Copy)]
pub struct Request<'b> {
    pub method: &'b [u8],
    /// The target up to its first question mark.
    pub path: &'b [u8],
    pub body: &'b [u8],
    /// Whether the stream ends after the answer.
    pub last: bool,
}

/// What the bytes of a stream begin with.
#[derive(Clone, Copy)]
pub enum Front<'b> {
    /// A whole request, and how many bytes it takes.
    Whole { request: Request<'b>, length: usize },
    /// A part of a request, which has not come whole, or nothing yet.
    More,
    Bad(Fault),
}

fn path_of(target: &[u8]) -> &[u8]
    ensures { result.now ≡ before_first (λ b. b == QUESTION_MARK) target.now }
{
    match target.iter().position(|b| *b == QUESTION_MARK) {
        Some(end) => &target[..end],
        None => target,
    }
}

/// What bytes begin with whose head is this one: the request, a part of it, or the fault of its
/// fields. `start` is the first `HEAD_LIMIT` bytes.
fn front_with_head<'b>(
    bytes: &'b [u8],
    start: &[u8],
    head: &RequestSpans,
    headers: &[HeaderSpan],
) -> Front<'b>
    requires start { start.now ≡ window bytes.now }
    requires within { IsRequestWithin start.now headers.now head.now }
    requires head { IsRequestOf start.now headers.now head.now }
    requires room { length headers.now ≤ FIELD_LIMIT }
    ensures { IsFrontOf bytes.now result }
{
    let fields = &headers[..head.headers];
    let size = match body_length(start, fields) {
        Ok(size) => size,
        Err(fault) => return Front::Bad(fault),
    };
    let length = head.len + size;
    if bytes.len() < length {
        return Front::More;
    }
    let request = Request {
        method: head.method.of(bytes),
        path: path_of(head.path.of(bytes)),
        body: &bytes[head.len..length],
        last: head.version == 0 || closes(start, fields),
    };
    Front::Whole { request, length }
}

/// What these bytes begin with: a whole request, a part of one, or a fault. It takes no memory.
pub fn next_request(bytes: &[u8]) -> Front<'_>
    ensures { IsFrontOf bytes.now result }
{
    let start = &bytes[..bytes.len().min(HEAD_LIMIT)];
    let mut headers = [EMPTY_HEADER_SPAN; FIELD_LIMIT];
    match parse_request(start, &mut headers) {
        Ok(Status::Complete(head)) => front_with_head(bytes, start, &head, &headers),
        Ok(Status::Partial) if bytes.len() < HEAD_LIMIT => Front::More,
        Ok(Status::Partial) => Front::Bad(Fault::HeadTooLarge),
        Err(_) => Front::Bad(Fault::Head),
    }
}
