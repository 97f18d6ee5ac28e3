//! What an office holds of a part.
#![tactic(auto, using(office_desk::proofs::Looks::keeps, office_desk::proofs::Looks::keeps_then))]

ghost use Rattle.office_desk.specs.Asks.{KeepsOffice};

use crate::listing::used_parts;
use crate::reads::or_fault;
use crate::reporting::{Report, report_of};
use cabinet_core::{Day, Delivery, Hand, PartCode, RecordCommand};
use office_desk::office::Office;
use office_desk::{Checked, There};
use office_tables_shelf::shelf::Shelf;
use office_views::{PartShown, UsedPart, part_text};
use signal_office_faults::Fault;
use signal_office_line::Part;
use signal_records::{Amount, NoMemory, RecordNo};
use std::alloc::Global;

/// The first number that no delivery can have.
const NUMBERS_END: u32 = 1_000_000;

/// How many pieces of a part are on hand, if there ever was a delivery of it.
fn hand_of(parts: &[(PartCode, Hand)], part: &PartCode) -> Option<Hand> {
    for (code, hand) in parts {
        if *code == *part {
            return Some(*hand);
        }
    }
    None
}

/// How many pieces of a part are on hand, if there ever was a delivery of it.
fn read_hand<S: Shelf>(
    alloc: Global,
    office: &mut Office<S>,
    part: &PartCode,
) -> Result<Option<Hand>, Fault>
    ensures { KeepsOffice S.Shelf office.old office.new }
{
    let parts = or_fault(office.stock(alloc))?;
    Ok(hand_of(parts.as_slice(), part))
}

/// A delivery of one piece on the first day, to be tried.
fn one_piece(part: &PartCode, number: RecordNo) -> Result<Option<Delivery>, NoMemory> {
    let (Some(day), Some(count)) = (Day::new(0), Amount::new(1)) else {
        return Ok(None);
    };
    Ok(Some(Delivery {
        part: part.clone()?,
        number,
        day,
        count,
    }))
}

/// The records to try: the delivery, if there is one.
fn records_of(alloc: Global, delivery: Option<Delivery>) -> Result<Vec<RecordCommand>, NoMemory> {
    let mut records = Vec::new(alloc);
    if let Some(delivery) = delivery {
        records.push(RecordCommand::Receive { delivery })?;
    }
    Ok(records)
}

/// The delivery that is there, by what came of trying `one_piece` under its number: that one, if it
/// is the same, or the one that refuses it.
fn there_by(
    checked: Option<Checked>,
    part: &PartCode,
    number: RecordNo,
) -> Result<Option<Delivery>, NoMemory> {
    match checked {
        Some(Checked::Same) => one_piece(part, number),
        Some(
            Checked::Refused {
                there: There::Delivery(delivery),
                ..
            },
        ) => Ok(Some(delivery)),
        _ => Ok(None),
    }
}

/// The delivery of a part with this number, if there is one. The office shows it when another one
/// is tried under the number.
fn read_delivery<S: Shelf>(
    alloc: Global,
    office: &mut Office<S>,
    part: &PartCode,
    number: RecordNo,
) -> Result<Option<Delivery>, Fault>
    ensures { KeepsOffice S.Shelf office.old office.new }
{
    let records = records_of(alloc, one_piece(part, number)?)?;
    let mut checked = or_fault(office.check(alloc, &records))?;
    Ok(there_by(checked.pop(), part, number)?)
}

/// Adds a delivery that was found, if one was, and gives `left` without its pieces.
fn take_delivery(
    deliveries: &mut Vec<Delivery>,
    found: Option<Delivery>,
    left: u64,
) -> Result<u64, NoMemory> {
    let Some(delivery) = found else {
        return Ok(left);
    };
    let rest = left.saturating_sub(u64::from(delivery.count.get()));
    deliveries.push(delivery)?;
    Ok(rest)
}

/// Adds the delivery of a part with this number, if there is one, and gives `left` without its
/// pieces.
fn add_delivery<S: Shelf>(
    alloc: Global,
    office: &mut Office<S>,
    part: &PartCode,
    number: u32,
    deliveries: &mut Vec<Delivery>,
    left: u64,
) -> Result<u64, Fault>
    ensures { KeepsOffice S.Shelf office.old office.new }
{
    let Some(number) = RecordNo::new(number) else {
        return Ok(left);
    };
    let found = read_delivery(alloc, office, part, number)?;
    Ok(take_delivery(deliveries, found, left)?)
}

/// The deliveries of a part with numbers below `end`, in their order. Together they had `pieces`
/// pieces, so no number after the last of them is looked for.
fn read_deliveries<S: Shelf>(
    alloc: Global,
    office: &mut Office<S>,
    part: &PartCode,
    pieces: u64,
    end: u32,
) -> Result<Vec<Delivery>, Fault>
    ensures { KeepsOffice S.Shelf office.old office.new }
{
    let mut deliveries = Vec::new(alloc);
    let mut left = pieces;
    for number in 1..end {
        if left == 0 {
            break;
        }
        left = add_delivery(alloc, office, part, number, &mut deliveries, left)?;
    }
    Ok(deliveries)
}

/// How many pieces of a part ever came: those on hand, and those that were used.
fn pieces_of(hand: &Option<Hand>, used: &[UsedPart]) -> u64 {
    let on_hand = match hand {
        Some(hand) => u64::from(hand.get()),
        None => 0,
    };
    used.iter().fold(on_hand, |sum, it| {
        sum.saturating_add(u64::from(it.used.count.get()))
    })
}

/// The uses of a part.
fn uses_of<S: Shelf>(
    alloc: Global,
    office: &mut Office<S>,
    part: &Part<'_>,
) -> Result<Vec<UsedPart>, Fault>
    ensures { KeepsOffice S.Shelf office.old office.new }
{
    let asked = Some(part.to_code(alloc)?);
    used_parts(alloc, office, &asked, &None)
}

/// The text that shows a part.
fn text_of<'a>(
    alloc: Global,
    part: &'a PartCode,
    hand: Option<Hand>,
    deliveries: &'a [Delivery],
    used: &'a [UsedPart],
) -> Result<Vec<u8>, NoMemory> {
    let shown = PartShown {
        part,
        hand,
        deliveries,
        used,
    };
    part_text(alloc, &shown)
}

/// What is on hand of a part, its deliveries and its uses.
pub(crate) fn report_part<S: Shelf>(
    alloc: Global,
    office: &mut Office<S>,
    part: &Part<'_>,
) -> Report
    ensures { KeepsOffice S.Shelf office.old office.new }
{
    let used = uses_of(alloc, office, part)?;
    let code = part.to_code(alloc)?;
    let hand = read_hand(alloc, office, &code)?;
    let pieces = pieces_of(&hand, &used);
    let deliveries = read_deliveries(alloc, office, &code, pieces, NUMBERS_END)?;
    report_of(text_of(alloc, &code, hand, &deliveries, &used))
}
