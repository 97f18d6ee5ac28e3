//! The head of an answer.
ghost use Rattle.std.specs.Prelude.{◌≡◌, ◌++◌, IfOk, OnOk, codes, decimal, unwrap_or};
ghost use Rattle.http.specs.StatusCode.{reason_phrase, status_text};
ghost use Rattle.office_http_responses.specs.Answers.{PutsBytes, answer_with};

use http::StatusCode;
use std::alloc::{AllocError, Global};

/// The room in bytes that a head needs, whatever its status.
const HEAD_ROOM: usize = 120;

/// The whole answer with this status and this content: the head, and then the content.
pub(crate) fn with_head(
    alloc: Global,
    status: StatusCode,
    content: &[u8],
) -> Result<Vec<u8>, AllocError>
    ensures { IfOk result (λ answer. answer.items ≡ answer_with status content.now) }
{
    let room = content.len().saturating_add(HEAD_ROOM);
    let mut answer = Vec::with_capacity(alloc, room)?;
    put_status(&mut answer, status)?;
    put(
        &mut answer,
        b"\r\nContent-Type: application/json\r\nContent-Length: ",
    )?;
    put_number(&mut answer, content.len())?;
    put(&mut answer, b"\r\n\r\n")?;
    put(&mut answer, content)?;
    Ok(answer)
}

fn put(answer: &mut Vec<u8>, bytes: &[u8]) -> Result<(), AllocError>
    ensures { OnOk result (PutsBytes answer.old.items answer.new.items bytes.now) }
{
    answer.extend_from_slice(bytes)
}

fn put_number(answer: &mut Vec<u8>, n: usize) -> Result<(), AllocError>
    ensures { OnOk result (PutsBytes answer.old.items answer.new.items (decimal n)) }
{
    let mut digits = itoa::Buffer::new();
    put(answer, digits.format(n).as_bytes())
}

// Puts the status line, without its end.
fn put_status(answer: &mut Vec<u8>, status: StatusCode) -> Result<(), AllocError>
    ensures { OnOk result (PutsBytes answer.old.items answer.new.items
        (codes "HTTP/1.1 " ++ status_text status)) }
{
    put(answer, b"HTTP/1.1 ")?;
    put_number(answer, usize::from(status.as_u16()))?;
    put(answer, b" ")?;
    put(answer, reason(status).as_bytes())?;
    Ok(())
}

fn reason(status: StatusCode) -> &'static str
    ensures { result.now ≡ unwrap_or (reason_phrase status) (codes "<unknown status code>") }
{
    match status.canonical_reason() {
        Some(phrase) => phrase,
        None => "<unknown status code>",
    }
}
