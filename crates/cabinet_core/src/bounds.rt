//! What the types of the records guarantee to callers: numbers, days and texts are within their
//! limits.

ghost use Rattle.cabinet_core.specs.Within.{IsInspectionWithin, IsOpeningWithin, IsClosingWithin, IsUsedLineWithin, IsDeliveryWithin, IsRecordWithin};

use crate::command::RecordCommand;
use crate::record::{Closing, Delivery, Inspection, Opening, UsedLine};

/// Shows that an inspection is within its limits, which its types ensure.
pub(crate) fn inspection_is_within(inspection: &Inspection)
    ensures { IsInspectionWithin inspection.now }
{
    let _numbers = (inspection.number.get(), inspection.day.number());
    let _clerk = inspection.clerk.as_str();
    let _text = inspection.text.as_str();
}

/// Shows that an opening is within its limits, which its types ensure.
pub(crate) fn opening_is_within(opening: &Opening)
    ensures { IsOpeningWithin opening.now }
{
    let _numbers = (opening.number.get(), opening.day.number());
    let _clerk = opening.clerk.as_str();
    let _text = opening.text.as_str();
}

/// Shows that a closing is within its limits, which its types ensure.
pub(crate) fn closing_is_within(closing: &Closing)
    ensures { IsClosingWithin closing.now }
{
    let _day = closing.day.number();
    let _closer = closing.closer.as_str();
}

/// Shows that a used part is within its limits, which its types ensure.
pub(crate) fn used_line_is_within(used: &UsedLine)
    ensures { IsUsedLineWithin used.now }
{
    let _numbers = (used.order.get(), used.line.get(), used.count.get());
    let _part = used.part.as_str();
}

/// Shows that a delivery is within its limits, which its types ensure.
pub(crate) fn delivery_is_within(delivery: &Delivery)
    ensures { IsDeliveryWithin delivery.now }
{
    let _numbers = (
        delivery.number.get(),
        delivery.day.number(),
        delivery.count.get(),
    );
    let _part = delivery.part.as_str();
}

/// Shows that a command is within its limits, which its types ensure.
pub fn record_is_within(command: &RecordCommand)
    ensures { IsRecordWithin command.now }
{
    match command {
        RecordCommand::Inspect { id, inspection } => {
            let _id = id.get();
            inspection_is_within(inspection);
        }
        RecordCommand::OpenOrder { id, opening } => {
            let _id = id.get();
            opening_is_within(opening);
        }
        RecordCommand::UsePart { id, line } => {
            let _id = id.get();
            used_line_is_within(line);
        }
        RecordCommand::CloseOrder { id, order, closing } => {
            let _numbers = (id.get(), order.get());
            closing_is_within(closing);
        }
        RecordCommand::Receive { delivery } => delivery_is_within(delivery),
    }
}
