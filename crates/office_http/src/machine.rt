//! The office as the machine that answers the requests of an HTTP stream.

ghost use Rattle.std.specs.Prelude.{◌≡◌, ◌≢◌, Ok, IsOk, IfOk};
ghost use Rattle.office_http_responses.specs.Faults.{ask_fault_text};
ghost use Rattle.office_machine.specs.Office.{Office as OfficeState};
ghost use Rattle.office_tables_shelf.specs.Content.{Content};
ghost use Rattle.office_http_framing.specs.Front.{PlainRequest};
ghost use Rattle.office_http_framing.specs.Protocol.{bytes_of};
ghost use Rattle.office_http_framing.specs.Stops.{DealsBy, KeepsState, moment_of};
ghost use Rattle.office_http_responses.specs.Answers.{answer_bytes};
ghost use Rattle.office_http.specs.Protocol.{office_protocol, office_storage, read_of};

use office_desk::office::Office;
use office_http_framing::front::{Fault, Request};
use office_http_framing::machine::{Answer, Machine, Unavailable};
use office_http_requests::{AskFault, Asked, Form, RouteCache};
use office_http_responses::{answer_of, ask_fault_answer, damaged, framing_fault_answer};
use office_machine::refusal::Refusal;
use office_machine::reply::Reply;
use office_tables_shelf::shelf::Shelf;
use std::alloc::{AllocError, Global};

/// What is made once for a stream: the table of routes.
#[derive(Drop)]
pub(crate) struct StreamTools {
    pub(crate) routes: RouteCache,
}

impl StreamTools {
    pub(crate) fn new() -> StreamTools {
        StreamTools {
            routes: RouteCache::new(),
        }
    }
}

/// The whole HTTP answer with a reply of the office, in this form; `Unavailable` if memory or the
/// store was refused. `Damaged`, that a stored row is no record, is always answered: its text takes
/// no memory.
fn answer_to(alloc: Global, reply: &Reply, form: Form) -> Result<Answer, Unavailable>
    ensures told { IfOk result (λ _. reply.now ≢ Reply.Refused Refusal.Unavailable) }
    ensures text { IfOk result (λ answer. bytes_of answer ≡ answer_bytes reply.now form) }
    // Damaged is never answered with 503.
    ensures damaged { reply.now ≡ Reply.Refused Refusal.Damaged → IsOk result }
{
    match reply {
        Reply::Refused(Refusal::Unavailable) => Err(Unavailable),
        Reply::Refused(Refusal::Damaged) => Ok(Answer::Fixed(damaged())),
        _ => match answer_of(alloc, reply, form) {
            Ok(answer) => Ok(Answer::Written(answer)),
            Err(_) => Err(Unavailable),
        },
    }
}

/// The whole HTTP answer to a request that is no command: it says why. `Unavailable` means that
/// memory was refused.
fn answer_fault(alloc: Global, fault: AskFault) -> Result<Answer, Unavailable>
    ensures { IfOk result (λ answer. (fault ≢ AskFault.NoMemory)
        × (bytes_of answer ≡ ask_fault_text fault)) }
{
    match ask_fault_answer(alloc, fault) {
        Ok(answer) => Ok(Answer::Written(answer)),
        Err(_) => Err(Unavailable),
    }
}

/// Decides a command, builds its whole answer, and then makes its changes; or makes none.
fn answer_asked<S: Shelf>(
    office: &mut Office<S>,
    alloc: Global,
    asked: &Asked,
) -> Result<Answer, Unavailable>
    ensures clean { S.is_clean office.new → S.is_clean office.old }
    ensures honest { S.is_honest office.new → S.is_honest office.old }
    // A request that is read as this is dealt with, whichever office the kept tables stand for.
    ensures deals { let storage = office_storage S.is_honest S.content S.written S.may_leave in
        S.is_clean office.new → (before : OfficeState) (tables : Content) (request : PlainRequest) →
        read_of request ≡ Ok asked.now → KeepsState storage office.old tables before →
        DealsBy office_protocol storage office.old office.new
        (moment_of storage office.old tables before) request result }
{
    let decided = office.decide(alloc, &asked.command);
    let Ok(answer) = answer_to(alloc, &decided.reply, asked.form) else {
        return Err(Unavailable);
    };
    match office.apply(alloc, decided.changes.as_slice()) {
        Ok(()) => Ok(answer),
        Err(_) => Err(Unavailable),
    }
}

impl<S: Shelf> Machine<StreamTools> for Office<S> {
    ghost use Rattle.office_machine.specs.Office.{Office as OfficeState};
    ghost use Rattle.office_tables_shelf.specs.Content.{Content};
    ghost use Rattle.office_http.specs.Protocol.{office_protocol, office_storage};

    ghost State = { OfficeState };

    ghost Stored = { Content };

    ghost storage = { office_storage S.is_honest S.content S.written S.may_leave };

    ghost is_clean = { λ shelf. S.is_clean shelf };

    ghost protocol = { office_protocol };

    fn answer(
        &mut self,
        alloc: Global,
        tools: &mut StreamTools,
        request: &Request<'_>,
    ) -> Result<Answer, Unavailable> {
        match tools.routes.command_of(alloc, request) {
            Ok(asked) => answer_asked(self, alloc, &asked),
            Err(fault) => answer_fault(alloc, fault),
        }
    }

    fn fault_answer(alloc: Global, fault: Fault) -> Result<Vec<u8>, AllocError> {
        framing_fault_answer(alloc, fault)
    }

    fn unavailable() -> &'static [u8] {
        office_http_responses::unavailable()
    }
}
