//! The bytes of the answer to a reply.
ghost use Rattle.std.specs.Prelude.{◌≡◌, IfOk};
ghost use Rattle.serde_json.specs.Written.{compact_text};
ghost use Rattle.office_machine.specs.Refusal.{line_of};
ghost use Rattle.office_machine.specs.declared.refusal.Refusal.TheVariants.{Damaged};
ghost use Rattle.office_machine.specs.declared.reply.Reply.TheVariants.{Refused};
ghost use Rattle.office_http_requests.specs.declared.form.Form.{Form};
ghost use Rattle.office_http_responses.specs.Answers.{answer_bytes, status_of};
ghost use Rattle.office_http_responses.specs.Trees.{tree_in};

use crate::head::with_head;
use crate::reply::write_in_form;
use http::StatusCode;
use json::Writer;
use office_http_requests::Form;
use office_machine::refusal::Refusal;
use office_machine::reply::Reply;
use std::alloc::{AllocError, Global};

const DAMAGED: &[u8] = b"HTTP/1.1 500 Internal Server Error\r\nContent-Type: application/json\r\n\
      Content-Length: 31\r\n\r\n{\"error\":\"Damaged\",\"number\":91}";

/// The room in bytes that most contents need.
pub(crate) const CONTENT_ROOM: usize = 240;

/// The answer if a stored row is no record, in any form. It takes no memory.
pub fn damaged() -> &'static [u8]
    ensures { (form : Form) → result.now ≡ answer_bytes (Refused Damaged) form }
{
    DAMAGED
}

/// The whole HTTP answer with a reply in a form. Only the committed rows or the cabinet of an
/// intersection can be in CSV; any other reply is in JSON, whatever the form.
pub fn answer_of(alloc: Global, reply: &Reply, form: Form) -> Result<Vec<u8>, AllocError>
    ensures { IfOk result (λ answer. answer.items ≡ answer_bytes reply.now form) }
{
    let content = content_of(alloc, reply, form)?;
    with_head(alloc, status(reply), content.as_slice())
}

// The content with a reply in a form, as compact JSON.
fn content_of(alloc: Global, reply: &Reply, form: Form) -> Result<Vec<u8>, AllocError>
    ensures { IfOk result (λ content. content.items ≡ compact_text (tree_in form reply.now)) }
{
    let mut to = Writer::new(Vec::with_capacity(alloc, CONTENT_ROOM)?);
    write_in_form(alloc, &mut to, reply, form)?;
    Ok(to.into_inner())
}

// The HTTP status of a reply: that of its refusal, or 200.
fn status(reply: &Reply) -> StatusCode
    ensures { result ≡ status_of reply.now }
{
    match reply {
        Reply::Refused(refusal) => refusal_status(*refusal),
        _ => StatusCode::OK,
    }
}

// The HTTP status of a refusal. Each has a code that HTTP knows, so the fallback is never used.
fn refusal_status(refusal: Refusal) -> StatusCode
    ensures { result ≡ (line_of refusal).status }
{
    StatusCode::from_u16(refusal.status()).unwrap_or(StatusCode::INTERNAL_SERVER_ERROR)
}
