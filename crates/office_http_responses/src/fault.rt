//! The answers to requests that ask nothing of the office.
ghost use Rattle.std.specs.Prelude.{◌≡◌, ◌≢◌, IfOk};
ghost use Rattle.serde_json.specs.Written.{compact_text};
ghost use Rattle.office_http_requests.specs.declared.fault.AskFault.TheVariants.{NoMemory};
ghost use Rattle.office_http_responses.specs.Faults.{line_of, first_numbered, kind_numbered, framing_kind, fault_tree, fault_bytes, ask_fault_text, framing_fault_text, IsFault};
ghost use Rattle.office_http_responses.specs.Writing.{AddsTree};

use crate::answer::CONTENT_ROOM;
use crate::head::with_head;
use crate::writing::Scalar::{Number, Text};
use crate::writing::object;
use http::StatusCode;
use json::Writer;
use office_files::BadRow;
use office_http_framing::front::Fault;
use office_http_requests::{AskFault, Field};
use std::alloc::{AllocError, Global};

/// What the answer to a fault shows besides its name and number.
#[derive(Clone, Copy)]
pub enum More {
    Nothing,
    Field(Field),
    /// Which row is bad, and what is wrong with it.
    Row(BadRow),
}

/// A fault of a request: of its framing, or of what it asks.
#[derive(Clone, Copy)]
pub(crate) enum FaultKind {
    Head,
    HeadTooLarge,
    Length,
    BodyTooLarge,
    Coded,
    NoRoute,
    Method,
    Json,
    Field,
    BadRow,
}

/// The faults with the numbers 1 to 9, in that order.
const BEFORE_ROWS: [FaultKind; 9] = [
    FaultKind::Head,
    FaultKind::HeadTooLarge,
    FaultKind::Length,
    FaultKind::BodyTooLarge,
    FaultKind::Coded,
    FaultKind::NoRoute,
    FaultKind::Method,
    FaultKind::Json,
    FaultKind::Field,
];

// A line of the table of faults: what the answer shows of a fault.
#[derive(Clone, Copy)]
struct FaultLine {
    number: u32,
    name: &'static str,
    status: StatusCode,
}

impl FaultKind {
    /// The fault's line of the table: the number and the name by which clients know it, and the
    /// HTTP status of its answer.
    fn line(self) -> FaultLine
        ensures number { result.number ≡ (line_of self).number }
        ensures name { result.name.now ≡ (line_of self).name }
        ensures status { result.status ≡ (line_of self).status }
    {
        let (number, name, status) = match self {
            FaultKind::Head => (1, "Head", StatusCode::BAD_REQUEST),
            FaultKind::HeadTooLarge => (2, "HeadTooLarge", StatusCode::BAD_REQUEST),
            FaultKind::Length => (3, "Length", StatusCode::BAD_REQUEST),
            FaultKind::BodyTooLarge => (4, "BodyTooLarge", StatusCode::PAYLOAD_TOO_LARGE),
            FaultKind::Coded => (5, "Coded", StatusCode::NOT_IMPLEMENTED),
            FaultKind::NoRoute => (6, "NoRoute", StatusCode::NOT_FOUND),
            FaultKind::Method => (7, "Method", StatusCode::METHOD_NOT_ALLOWED),
            FaultKind::Json => (8, "Json", StatusCode::BAD_REQUEST),
            FaultKind::Field => (9, "Field", StatusCode::BAD_REQUEST),
            FaultKind::BadRow => (31, "BadRow", StatusCode::BAD_REQUEST),
        };
        FaultLine {
            number,
            name,
            status,
        }
    }

    /// The kind of a fault of a request's framing.
    fn of_framing(fault: Fault) -> FaultKind
        ensures { result ≡ framing_kind fault }
    {
        match fault {
            Fault::Head => FaultKind::Head,
            Fault::HeadTooLarge => FaultKind::HeadTooLarge,
            Fault::Length => FaultKind::Length,
            Fault::BodyTooLarge => FaultKind::BodyTooLarge,
            Fault::Coded => FaultKind::Coded,
        }
    }
}

// The first of these faults that has this number, or `BadRow` where none has.
fn first_numbered(number: u32, kinds: &[FaultKind]) -> FaultKind
    ensures { result ≡ first_numbered number kinds.now }
{
    match kinds {
        [] => FaultKind::BadRow,
        [first, rest @ ..] => {
            if number == first.line().number {
                *first
            } else {
                first_numbered(number, rest)
            }
        }
    }
}

// The fault that has this number, or `BadRow` where none of 1 to 9 has.
fn kind_numbered(number: u32) -> FaultKind
    ensures { result ≡ kind_numbered number }
{
    first_numbered(number, &BEFORE_ROWS)
}

fn write_fault(
    alloc: Global,
    to: &mut Writer,
    kind: FaultKind,
    more: More,
) -> Result<(), AllocError>
    ensures { AddsTree result to.old to.new (fault_tree kind more) }
{
    let line = kind.line();
    let error = Text(line.name);
    let shown = Number(u64::from(line.number));
    match more {
        More::Nothing => object(alloc, to, &[("error", error), ("number", shown)]),
        More::Field(field) => object(
            alloc,
            to,
            &[
                ("error", error),
                ("field", Text(field.name())),
                ("number", shown),
            ],
        ),
        More::Row(bad) => object(
            alloc,
            to,
            &[
                ("error", error),
                ("fault", Text(bad.fault.name())),
                ("field", Number(u64::from(bad.fault.field().unwrap_or(0)))),
                ("number", shown),
                ("record", Number(bad.at as u64)),
            ],
        ),
    }
}

// The content of the answer to a fault, as compact JSON.
fn content_of_fault(alloc: Global, kind: FaultKind, more: More) -> Result<Vec<u8>, AllocError>
    ensures { IfOk result (λ content. content.items ≡ compact_text (fault_tree kind more)) }
{
    let mut to = Writer::new(Vec::with_capacity(alloc, CONTENT_ROOM)?);
    write_fault(alloc, &mut to, kind, more)?;
    Ok(to.into_inner())
}

// The whole answer to a fault.
fn kind_answer(alloc: Global, kind: FaultKind, more: More) -> Result<Vec<u8>, AllocError>
    ensures { IfOk result (λ answer. answer.items ≡ fault_bytes kind more) }
{
    let content = content_of_fault(alloc, kind, more)?;
    with_head(alloc, kind.line().status, content.as_slice())
}

/// The whole answer to a fault by its number: of a request's framing (1 to 5) or of what it asks (6
/// to 9, and 31).
pub fn fault_answer(alloc: Global, number: u32, more: More) -> Result<Vec<u8>, AllocError>
    requires { IsFault number more }
    ensures { IfOk result (λ answer. answer.items ≡ fault_bytes (kind_numbered number) more) }
{
    kind_answer(alloc, kind_numbered(number), more)
}

/// The whole answer to a request that asks nothing. The error means that memory was refused, here
/// or in reading the request: the fault `NoMemory` has no answer of its own.
pub fn ask_fault_answer(alloc: Global, fault: AskFault) -> Result<Vec<u8>, AllocError>
    ensures { IfOk result (λ answer. (fault ≢ NoMemory) × (answer.items ≡ ask_fault_text fault)) }
{
    match fault {
        AskFault::NoRoute => kind_answer(alloc, FaultKind::NoRoute, More::Nothing),
        AskFault::Method => kind_answer(alloc, FaultKind::Method, More::Nothing),
        AskFault::Json => kind_answer(alloc, FaultKind::Json, More::Nothing),
        AskFault::Field(field) => kind_answer(alloc, FaultKind::Field, More::Field(field)),
        AskFault::BadRow(bad) => kind_answer(alloc, FaultKind::BadRow, More::Row(bad)),
        AskFault::NoMemory => Err(AllocError),
    }
}

/// The whole answer to a fault of a request's framing.
pub fn framing_fault_answer(alloc: Global, fault: Fault) -> Result<Vec<u8>, AllocError>
    ensures { IfOk result (λ answer. answer.items ≡ framing_fault_text fault) }
{
    kind_answer(alloc, FaultKind::of_framing(fault), More::Nothing)
}
