//! The records that bodies describe. Keys are judged in the order of their names.
ghost use Rattle.serde_json.specs.View.{view};
ghost use Rattle.office_http_requests.specs.FaultsInOrder.{Gives};
ghost use Rattle.office_http_requests.specs.Recording.{inspection_in, opening_in, used_in, closing_in, delivery_in};

use crate::body as keys;
use crate::fault::AskFault;
use crate::field::Field;
use cabinet_core::{Closing, Delivery, Inspection, Opening, UsedLine};
use serde_json::Value;
use signal_records::RecordNo;
use std::alloc::Global;

/// The inspection that a body describes, or the fault of the first bad key.
#[tactic(auto, unfolding(crate::specs::Recording::inspection_in))]
pub(crate) fn inspection(alloc: Global, body: &Value) -> Result<Inspection, AskFault>
    ensures { Gives result (inspection_in (view body.now)) }
{
    let clerk = keys::words(alloc, body, Field::Clerk)?;
    let day = keys::day(body)?;
    let number = keys::number(body, Field::Number)?;
    let text = keys::words(alloc, body, Field::Text)?;
    Ok(Inspection {
        number,
        day,
        clerk,
        text,
    })
}

/// The opening of an order that a body describes, or the fault of the first bad key.
#[tactic(auto, unfolding(crate::specs::Recording::opening_in))]
pub(crate) fn opening(alloc: Global, body: &Value) -> Result<Opening, AskFault>
    ensures { Gives result (opening_in (view body.now)) }
{
    let clerk = keys::words(alloc, body, Field::Clerk)?;
    let day = keys::day(body)?;
    let number = keys::number(body, Field::Number)?;
    let text = keys::words(alloc, body, Field::Text)?;
    Ok(Opening {
        number,
        day,
        clerk,
        text,
    })
}

/// The part that a body describes, used for the order of this number, or the fault of the first bad
/// key.
#[tactic(auto, unfolding(crate::specs::Recording::used_in))]
pub(crate) fn used_part(alloc: Global, order: RecordNo, body: &Value) -> Result<UsedLine, AskFault>
    ensures { Gives result (used_in order (view body.now)) }
{
    let count = keys::number(body, Field::Count)?;
    let line = keys::number(body, Field::Line)?;
    let part = keys::part(alloc, body)?;
    Ok(UsedLine {
        order,
        line,
        part,
        count,
    })
}

/// The closing of an order that a body describes, or the fault of the first bad key.
#[tactic(auto, unfolding(crate::specs::Recording::closing_in))]
pub(crate) fn order_closing(alloc: Global, body: &Value) -> Result<Closing, AskFault>
    ensures { Gives result (closing_in (view body.now)) }
{
    let closer = keys::words(alloc, body, Field::Clerk)?;
    let day = keys::day(body)?;
    Ok(Closing { day, closer })
}

/// The delivery of a part that a body describes, or the fault of the first bad key.
#[tactic(auto, unfolding(crate::specs::Recording::delivery_in))]
pub(crate) fn delivery(alloc: Global, body: &Value) -> Result<Delivery, AskFault>
    ensures { Gives result (delivery_in (view body.now)) }
{
    let count = keys::number(body, Field::Count)?;
    let day = keys::day(body)?;
    let number = keys::number(body, Field::Number)?;
    let part = keys::part(alloc, body)?;
    Ok(Delivery {
        part,
        number,
        day,
        count,
    })
}
