//! What the register holds where it refuses a record, to be told with the refusal.
ghost use Rattle.std.specs.Prelude.{◌≡◌, IfOk};
ghost use Rattle.office_tables_shelf.specs.Places.{found_at, place_of};
ghost use Rattle.office_tables_decisions.specs.Reads.{OnlyReads, Reports};
ghost use Rattle.office_desk.specs.Checking.{MeetsThere, TellsThere, place_told, told_there};
ghost use Rattle.office_tables_shelf.specs.Places as place;

use cabinet_core::{
    CabinetRefusal, Delivery, Hand, Inspection, Order, PartCode, RecordCommand, UsedLine,
};
use office_desk_cabinet::{Pending, Taken, record_at};
use office_machine::refusal::Refusal;
use office_tables_shelf::register::{RegisterKey, RegisterRecord};
use office_tables_shelf::shelf::{Shelf, ShelfFault};
use signal_records::NoMemory;
use std::alloc::Global;

/// What the register holds where it refuses a record. Nothing, where no record stands there or
/// the register was not asked.
#[derive(Drop)]
pub enum There {
    Nothing,
    Inspection(Inspection),
    Order(Order),
    UsedLine(UsedLine),
    Delivery(Delivery),
    /// How many pieces of the part are on hand.
    OnHand(PartCode, u32),
}

/// How many pieces of a part are on hand, to be told with a refusal: 0 where the part has no row.
fn on_hand(part: &PartCode, hand: Option<Hand>) -> Result<There, NoMemory>
    ensures { IfOk result (λ there. there ≡ told_there (place.Part part.now) hand) }
{
    let code = part.clone()?;
    match hand {
        Some(hand) => Ok(There::OnHand(code, hand.get())),
        None => Ok(There::OnHand(code, 0)),
    }
}

/// What was found under a key of the register, to be told with a refusal.
fn there_at(key: &RegisterKey<'_>, found: Option<RegisterRecord>) -> Result<There, NoMemory>
    ensures { IfOk result (λ there.
        there ≡ told_there (place_of key.now) (found_at (place_of key.now) found)) }
{
    match key {
        RegisterKey::Inspection(..) => {
            let inspection = RegisterRecord::inspection(found);
            Ok(inspection.map(There::Inspection).unwrap_or(There::Nothing))
        }
        RegisterKey::Order(..) => {
            let order = RegisterRecord::order(found);
            Ok(order.map(There::Order).unwrap_or(There::Nothing))
        }
        RegisterKey::Line(..) => {
            let line = RegisterRecord::line(found);
            Ok(line.map(There::UsedLine).unwrap_or(There::Nothing))
        }
        RegisterKey::Part(part) => on_hand(part, RegisterRecord::hand(found)),
        RegisterKey::Delivery(..) => {
            let delivery = RegisterRecord::delivery(found);
            Ok(delivery.map(There::Delivery).unwrap_or(There::Nothing))
        }
    }
}

/// The key of the register whose record is told with a refused one: its own, that of its order or
/// that of its part, by its kind and the refusal.
fn key_told<'a>(command: &'a RecordCommand, why: CabinetRefusal) -> RegisterKey<'a>
    ensures { place_of result ≡ place_told command.now why }
{
    match command {
        RecordCommand::Inspect { id, inspection } => {
            RegisterKey::Inspection(*id, inspection.number)
        }
        RecordCommand::OpenOrder { id, opening } => RegisterKey::Order(*id, opening.number),
        RecordCommand::UsePart { id, line } => match why {
            CabinetRefusal::LineDiffers => RegisterKey::Line(*id, line.order, line.line),
            CabinetRefusal::NoStock => RegisterKey::Part(&line.part),
            _ => RegisterKey::Order(*id, line.order),
        },
        RecordCommand::CloseOrder { id, order, .. } => RegisterKey::Order(*id, *order),
        RecordCommand::Receive { delivery } => match why {
            CabinetRefusal::DeliveryDiffers => {
                RegisterKey::Delivery(&delivery.part, delivery.number)
            }
            _ => RegisterKey::Part(&delivery.part),
        },
    }
}

/// What the register holds where it refuses a record that was taken so, once the pending rows are
/// written; nothing where it does not refuse it. The fault is that of the shelf.
pub(crate) fn what_is_there<S: Shelf>(
    shelf: &mut S,
    alloc: Global,
    pending: &Pending,
    command: &RecordCommand,
    taken: Taken,
) -> Result<There, ShelfFault>
    ensures there { Reports (S.is_honest shelf.new) result
        (TellsThere (S.content shelf.old) pending.now command.now taken)
        (MeetsThere (S.content shelf.old) command.now taken) }
    ensures reads { OnlyReads S.Shelf ⊥ result shelf.old shelf.new }
{
    let Taken::Refused(Refusal::Cabinet(why)) = taken else {
        return Ok(There::Nothing);
    };
    let key = key_told(command, why);
    let found = record_at(shelf, alloc, pending, &key)?;
    Ok(there_at(&key, found)?)
}
