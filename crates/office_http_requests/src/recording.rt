//! From a request to a command of the register.
ghost use Rattle.office_http_requests.specs.FaultsInOrder.{Gives};
ghost use Rattle.office_http_requests.specs.Recording.{received_in, record_asked};
ghost use Rattle.office_http_requests.specs.declared.kind.RecordKind.TheVariants as kind;

use crate::fault::AskFault;
use crate::kind::RecordKind;
use crate::{body, path, record};
use cabinet_core::RecordCommand;
use std::alloc::Global;

/// The command of a kind, by the path and the body, or the first fault: a field of the path from
/// the left, the fault of the body, a key of the body by name.
#[tactic(auto, unfolding(crate::specs::Recording::record_asked))]
pub(crate) fn command_of(
    alloc: Global,
    kind: RecordKind,
    path: &[u8],
    body: &[u8],
) -> Result<RecordCommand, AskFault>
    ensures { Gives result (record_asked kind path.now body.now) }
{
    match kind {
        RecordKind::Inspect => inspect(alloc, path, body),
        RecordKind::OpenOrder => open_order(alloc, path, body),
        RecordKind::UsePart => use_part(alloc, path, body),
        RecordKind::CloseOrder => close_order(alloc, path, body),
        RecordKind::Receive => receive(alloc, body),
    }
}

#[tactic(auto, unfolding(crate::specs::Recording::record_asked))]
fn inspect(alloc: Global, path: &[u8], body: &[u8]) -> Result<RecordCommand, AskFault>
    ensures { Gives result (record_asked kind.Inspect path.now body.now) }
{
    let id = path::id(path)?;
    let body = body::read_object(alloc, body)?;
    let inspection = record::inspection(alloc, &body)?;
    Ok(RecordCommand::Inspect { id, inspection })
}

#[tactic(auto, unfolding(crate::specs::Recording::record_asked))]
fn open_order(alloc: Global, path: &[u8], body: &[u8]) -> Result<RecordCommand, AskFault>
    ensures { Gives result (record_asked kind.OpenOrder path.now body.now) }
{
    let id = path::id(path)?;
    let body = body::read_object(alloc, body)?;
    let opening = record::opening(alloc, &body)?;
    Ok(RecordCommand::OpenOrder { id, opening })
}

#[tactic(auto, unfolding(crate::specs::Recording::record_asked))]
fn use_part(alloc: Global, path: &[u8], body: &[u8]) -> Result<RecordCommand, AskFault>
    ensures { Gives result (record_asked kind.UsePart path.now body.now) }
{
    let id = path::id(path)?;
    let order = path::order(path)?;
    let body = body::read_object(alloc, body)?;
    let line = record::used_part(alloc, order, &body)?;
    Ok(RecordCommand::UsePart { id, line })
}

#[tactic(auto, unfolding(crate::specs::Recording::record_asked))]
fn close_order(alloc: Global, path: &[u8], body: &[u8]) -> Result<RecordCommand, AskFault>
    ensures { Gives result (record_asked kind.CloseOrder path.now body.now) }
{
    let id = path::id(path)?;
    let order = path::order(path)?;
    let body = body::read_object(alloc, body)?;
    let closing = record::order_closing(alloc, &body)?;
    Ok(RecordCommand::CloseOrder { id, order, closing })
}

#[tactic(auto, unfolding(crate::specs::Recording::received_in))]
fn receive(alloc: Global, body: &[u8]) -> Result<RecordCommand, AskFault>
    ensures { Gives result (received_in body.now) }
{
    let body = body::read_object(alloc, body)?;
    let delivery = record::delivery(alloc, &body)?;
    Ok(RecordCommand::Receive { delivery })
}
