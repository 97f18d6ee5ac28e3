//! What becomes of a command on the register, by the records under its keys. Nothing is changed.

ghost use Rattle.std.specs.Prelude.{◌≡◌, ℕ, ◌+◌, ◌-◌, ◌≤◌, [], ◌∷◌, nat_lt, IfOk, if◌then◌else◌, Some, None};
ghost use Rattle.std.specs.Int.{IsInRange};
ghost use Rattle.cabinet_core.specs.declared.part.TheConstants.{MOST_ON_HAND};
ghost use Rattle.cabinet_core.specs.Changes.{Makes};
ghost use Rattle.cabinet_core.specs.declared.command.RecordCommand.{RecordCommand};
ghost use Rattle.cabinet_core.specs.declared.decide.CabinetChange.TheVariants.{PutInspection, PutOrder};
ghost use Rattle.cabinet_core.specs.Cabinet.{Records, on_hand, record_of, is_opened_so, inspect_line, open_line, use_line, close_line, receive_line, use_changes, close_changes, receive_changes};

use crate::bounds::{
    closing_is_within, delivery_is_within, inspection_is_within, opening_is_within,
    used_line_is_within,
};
use crate::part::{Hand, PartCode};
use crate::record::{Closing, Delivery, Inspection, Opening, Order, UsedLine};
use crate::refusal::CabinetRefusal;
use signal_values::Amount;
use std::alloc::{AllocError, Global};

/// A row of the register that is to replace the one under its key, if there is one.
#[derive(Drop)]
pub enum CabinetChange {
    PutInspection(Inspection),
    PutOrder(Order),
    PutLine(UsedLine),
    PutDelivery(Delivery),
    /// How many of the part are then on hand.
    PutPart(PartCode, Hand),
}

/// What an accepted command does.
#[derive(Drop)]
pub enum Recorded {
    /// It puts these rows, in this order.
    Added(Vec<CabinetChange>),
    /// It changes nothing: what it asks for is already recorded.
    Same,
}

/// Records an inspection. `there` is the recorded inspection with its number, if there is one.
///
/// `InspectionDiffers` if `there` is another inspection.
pub fn inspect(
    alloc: Global,
    there: &Option<Inspection>,
    asked: &Inspection,
) -> Result<Recorded, CabinetRefusal>
    ensures line { Records result (inspect_line there.now asked.now)
        (PutInspection asked.now ∷ []) }
    ensures makes { (id : ℕ) → IsInRange 1 9999 id →
        Makes id (RecordCommand.Inspect id asked.now) there.now result }
{
    inspection_is_within(asked);
    match there {
        Some(there) if there == asked => Ok(Recorded::Same),
        Some(_) => Err(CabinetRefusal::InspectionDiffers),
        None => {
            let inspection = CabinetChange::PutInspection(asked.clone()?);
            Ok(Recorded::Added(vec![in alloc; inspection]?))
        }
    }
}

/// Whether an order, open or closed, has the number, day, clerk and text of an opening.
fn is_opened_so(there: &Order, asked: &Opening) -> bool
    ensures { result ≡ is_opened_so there.now asked.now }
{
    there.number == asked.number
        && there.opened == asked.day
        && there.clerk == asked.clerk
        && there.text == asked.text
}

/// The open order that an opening makes.
fn new_order(asked: &Opening) -> Result<Order, AllocError>
    ensures { IfOk result (λ order. order ≡ record_of asked.now) }
{
    Ok(Order {
        number: asked.number,
        opened: asked.day,
        clerk: asked.clerk.clone()?,
        text: asked.text.clone()?,
        closing: None,
    })
}

/// Opens an order. `there` is the recorded order with its number, if there is one.
///
/// `OrderDiffers` if `there` has another day, clerk or text.
pub fn open_order(
    alloc: Global,
    there: &Option<Order>,
    asked: &Opening,
) -> Result<Recorded, CabinetRefusal>
    ensures line { Records result (open_line there.now asked.now)
        (PutOrder (record_of asked.now) ∷ []) }
    ensures makes { (id : ℕ) → Makes id (RecordCommand.OpenOrder id asked.now) there.now result }
{
    opening_is_within(asked);
    match there {
        Some(there) if is_opened_so(there, asked) => Ok(Recorded::Same),
        Some(_) => Err(CabinetRefusal::OrderDiffers),
        None => {
            let order = CabinetChange::PutOrder(new_order(asked)?);
            Ok(Recorded::Added(vec![in alloc; order]?))
        }
    }
}

/// How many of a part are on hand: 0 if the part has no row.
fn on_hand(hand: Option<Hand>) -> u32
    ensures value { result ≡ on_hand hand }
    ensures bound { result ≤ MOST_ON_HAND }
{
    match hand {
        Some(hand) => hand.get(),
        None => 0,
    }
}

/// How many of a part are left after this use, unless it takes more than are on hand.
fn left_on_hand(hand: Option<Hand>, used: Amount) -> Option<Hand>
    ensures { result ≡ (if nat_lt (on_hand hand) used then None else Some (on_hand hand - used)) }
{
    Hand::new(on_hand(hand).checked_sub(used.get())?)
}

/// How many of a part are on hand after this delivery, unless they are more than 999,999,999.
fn raised_on_hand(hand: Option<Hand>, delivered: Amount) -> Option<Hand>
    ensures { result ≡ (if nat_lt MOST_ON_HAND (on_hand hand + delivered)
        then None else Some (on_hand hand + delivered)) }
{
    Hand::new(on_hand(hand) + delivered.get())
}

/// Takes a part from stock for an order. `there` is the recorded line with its order and number,
/// `order` the order, and `hand` how many of the part are on hand; each may be missing.
///
/// The first of these that holds: `LineDiffers` if `there` is another line, `UnknownOrder` without
/// an order, `OrderClosed` if it is closed, `NoStock` if too few are on hand.
pub fn use_part(
    alloc: Global,
    there: &Option<UsedLine>,
    order: &Option<Order>,
    hand: Option<Hand>,
    asked: &UsedLine,
) -> Result<Recorded, CabinetRefusal>
    ensures line { Records result (use_line there.now order.now hand asked.now)
        (use_changes hand asked.now) }
    ensures makes { (id : ℕ) → Makes id (RecordCommand.UsePart id asked.now)
        (there.now, order.now, hand) result }
{
    used_line_is_within(asked);
    if let Some(line) = there {
        return if line == asked {
            Ok(Recorded::Same)
        } else {
            Err(CabinetRefusal::LineDiffers)
        };
    }
    let Some(order) = order else {
        return Err(CabinetRefusal::UnknownOrder);
    };
    if order.closing.is_some() {
        return Err(CabinetRefusal::OrderClosed);
    }
    let Some(left) = left_on_hand(hand, asked.count) else {
        return Err(CabinetRefusal::NoStock);
    };
    let line = CabinetChange::PutLine(asked.clone()?);
    let part = CabinetChange::PutPart(asked.part.clone()?, left);
    Ok(Recorded::Added(vec![in alloc; line, part]?))
}

/// Closes an order. `order` is the recorded order with its number, if there is one.
///
/// The first of these that holds: `UnknownOrder` without an order, `CloseDiffers` if it was closed
/// on another day or by another clerk, `DayBeforeOpening` if it was opened on a later day.
pub fn close_order(
    alloc: Global,
    order: &Option<Order>,
    asked: &Closing,
) -> Result<Recorded, CabinetRefusal>
    ensures line { Records result (close_line order.now asked.now)
        (close_changes order.now asked.now) }
    ensures makes { (id number : ℕ) → Makes id (RecordCommand.CloseOrder id number asked.now)
        order.now result }
{
    closing_is_within(asked);
    let Some(there) = order else {
        return Err(CabinetRefusal::UnknownOrder);
    };
    if let Some(closing) = &there.closing {
        return if closing == asked {
            Ok(Recorded::Same)
        } else {
            Err(CabinetRefusal::CloseDiffers)
        };
    }
    if asked.day < there.opened {
        return Err(CabinetRefusal::DayBeforeOpening);
    }
    let mut closed = there.clone()?;
    closed.closing = Some(asked.clone()?);
    let order = CabinetChange::PutOrder(closed);
    Ok(Recorded::Added(vec![in alloc; order]?))
}

/// Takes a delivery into stock. `there` is the recorded delivery with its part and number, if there
/// is one, and `hand` how many of the part are on hand, `None` if it was never delivered.
///
/// The first of these that holds: `DeliveryDiffers` if `there` is another delivery, `StockFull` if
/// more than 999,999,999 would then be on hand.
pub fn receive(
    alloc: Global,
    there: &Option<Delivery>,
    hand: Option<Hand>,
    asked: &Delivery,
) -> Result<Recorded, CabinetRefusal>
    ensures line { Records result (receive_line there.now hand asked.now)
        (receive_changes hand asked.now) }
    ensures makes { (id : ℕ) → Makes id (RecordCommand.Receive asked.now)
        (there.now, hand) result }
{
    delivery_is_within(asked);
    if let Some(delivery) = there {
        return if delivery == asked {
            Ok(Recorded::Same)
        } else {
            Err(CabinetRefusal::DeliveryDiffers)
        };
    }
    let Some(raised) = raised_on_hand(hand, asked.count) else {
        return Err(CabinetRefusal::StockFull);
    };
    let part = CabinetChange::PutPart(asked.part.clone()?, raised);
    let delivery = CabinetChange::PutDelivery(asked.clone()?);
    Ok(Recorded::Added(vec![in alloc; part, delivery]?))
}
