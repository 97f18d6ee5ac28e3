//! The commands of the register, decided.
ghost use Rattle.std.specs.Prelude.{◌≡◌, []};
ghost use Rattle.cabinet_core.specs.declared.command.RecordCommand.{RecordCommand};
ghost use Rattle.office_tables_decisions.specs.Reads.{OnlyReads};
ghost use Rattle.office_desk_cabinet.specs.Decides.{DecidesRecord};

use crate::pending::{Pending, record_at};
use crate::rows::report_record;
use cabinet_core::{
    Delivery, RecordCommand, UsedLine, close_order, inspect, open_order, receive, use_part,
};
use office_machine::refusal::Refusal;
use office_tables_shelf::register::{RegisterKey, RegisterRecord};
use office_tables_shelf::rows::RowChange;
use office_tables_shelf::shelf::{Shelf, ShelfFault};
use signal_records::InterId;
use std::alloc::Global;

/// What comes of a record of the register.
#[derive(Clone, Copy)]
pub enum Taken {
    /// The record is new: it is added.
    Added,
    /// An equal record is there: nothing is added.
    Same,
    /// The record is refused, for this reason.
    Refused(Refusal),
}

/// Decides whether a part is used for an order on an intersection: the first that holds of
/// `LineDiffers`, `UnknownOrder`, `OrderClosed` and `NoStock` refuses it.
fn decide_use_part<S: Shelf>(
    shelf: &mut S,
    alloc: Global,
    pending: &Pending,
    id: InterId,
    line: &UsedLine,
) -> Result<(Taken, Vec<RowChange>), ShelfFault>
    ensures decides { DecidesRecord (S.is_honest shelf.new) (S.content shelf.old) pending.now
        (RecordCommand.UsePart id line.now) result }
    ensures reads { OnlyReads S.Shelf (pending.now ≡ []) result shelf.old shelf.new }
{
    let found = record_at(shelf, alloc, pending, &RegisterKey::Part(&line.part))?;
    let hand = RegisterRecord::hand(found);
    let key = RegisterKey::Line(id, line.order, line.line);
    let there = RegisterRecord::line(record_at(shelf, alloc, pending, &key)?);
    let key = RegisterKey::Order(id, line.order);
    let order = RegisterRecord::order(record_at(shelf, alloc, pending, &key)?);
    let decision = use_part(alloc, &there, &order, hand, line);
    report_record(alloc, Some(id), decision)
}

/// Decides whether a delivery is received: the first that holds of `DeliveryDiffers` and
/// `StockFull` refuses it.
fn decide_receive<S: Shelf>(
    shelf: &mut S,
    alloc: Global,
    pending: &Pending,
    delivery: &Delivery,
) -> Result<(Taken, Vec<RowChange>), ShelfFault>
    ensures decides { DecidesRecord (S.is_honest shelf.new) (S.content shelf.old) pending.now
        (RecordCommand.Receive delivery.now) result }
    ensures reads { OnlyReads S.Shelf (pending.now ≡ []) result shelf.old shelf.new }
{
    let found = record_at(shelf, alloc, pending, &RegisterKey::Part(&delivery.part))?;
    let hand = RegisterRecord::hand(found);
    let key = RegisterKey::Delivery(&delivery.part, delivery.number);
    let there = RegisterRecord::delivery(record_at(shelf, alloc, pending, &key)?);
    let decision = receive(alloc, &there, hand, delivery);
    report_record(alloc, None, decision)
}

/// Decides a command of the register, on what the shelf will hold once the pending rows are
/// written, and gives the rows that it adds. The caller tests that the intersection is there. Want
/// of memory is no refusal here, but the fault `ShelfFault::NoMemory`.
pub fn decide_record<S: Shelf>(
    shelf: &mut S,
    alloc: Global,
    pending: &Pending,
    command: &RecordCommand,
) -> Result<(Taken, Vec<RowChange>), ShelfFault>
    ensures decides { DecidesRecord (S.is_honest shelf.new) (S.content shelf.old) pending.now
        command.now result }
    ensures reads { OnlyReads S.Shelf (pending.now ≡ []) result shelf.old shelf.new }
{
    match command {
        RecordCommand::Inspect { id, inspection } => {
            let key = RegisterKey::Inspection(*id, inspection.number);
            let found = record_at(shelf, alloc, pending, &key)?;
            let there = RegisterRecord::inspection(found);
            let _number = id.get();
            let decision = inspect(alloc, &there, inspection);
            report_record(alloc, Some(*id), decision)
        }
        RecordCommand::OpenOrder { id, opening } => {
            let key = RegisterKey::Order(*id, opening.number);
            let found = record_at(shelf, alloc, pending, &key)?;
            let there = RegisterRecord::order(found);
            let decision = open_order(alloc, &there, opening);
            report_record(alloc, Some(*id), decision)
        }
        RecordCommand::UsePart { id, line } => decide_use_part(shelf, alloc, pending, *id, line),
        RecordCommand::CloseOrder { id, order, closing } => {
            let key = RegisterKey::Order(*id, *order);
            let found = record_at(shelf, alloc, pending, &key)?;
            let there = RegisterRecord::order(found);
            let decision = close_order(alloc, &there, closing);
            report_record(alloc, Some(*id), decision)
        }
        RecordCommand::Receive { delivery } => decide_receive(shelf, alloc, pending, delivery),
    }
}
