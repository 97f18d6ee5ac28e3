//! Notes on records that are to be imported: which name a part that the office never had, and which
//! are there already.
#![tactic(auto, using(office_desk::proofs::Looks::keeps, office_desk::proofs::Looks::keeps_then))]

ghost use Rattle.office_desk.specs.Asks.{KeepsOffice};

use crate::reading::records_in;
use crate::reads::or_fault;
use cabinet_core::{Hand, PartCode, RecordCommand};
use office_desk::Checked;
use office_desk::office::Office;
use office_tables_shelf::shelf::Shelf;
use signal_office_faults::Fault;
use signal_records::NoMemory;
use std::alloc::{AllocError, Global};
use std::collections::BTreeSet;
use std::fmt::Write;

/// How many records are noted one by one, at most; the others are only counted.
const MOST_NOTES: usize = 100;

/// The part that a record names, if it names one.
fn part_named(record: &RecordCommand) -> Option<&PartCode> {
    match record {
        RecordCommand::UsePart { line, .. } => Some(&line.part),
        RecordCommand::Receive { delivery } => Some(&delivery.part),
        _ => None,
    }
}

/// Adds a part to those that the office had, and gives whether it was not among them.
fn is_new(had: &mut BTreeSet<PartCode>, part: &PartCode) -> Result<bool, NoMemory> {
    Ok(had.insert(part.clone()?)?)
}

/// The codes of the parts that the office had.
fn codes_of(alloc: Global, parts: &[(PartCode, Hand)]) -> Result<BTreeSet<PartCode>, NoMemory> {
    let mut had = BTreeSet::new(alloc);
    for (part, _) in parts {
        had.insert(part.clone()?)?;
    }
    Ok(had)
}

/// The part that a record names, if it is not among `had`; it is then added there.
fn new_part<'a>(
    had: &mut BTreeSet<PartCode>,
    record: &'a RecordCommand,
) -> Result<Option<&'a PartCode>, NoMemory> {
    let Some(part) = part_named(record) else {
        return Ok(None);
    };
    let is_new = is_new(had, part)?;
    Ok(if is_new { Some(part) } else { None })
}

/// Appends the note on how many more records would be noted.
fn push_rest(text: &mut String, more: usize) -> Result<(), AllocError> {
    writeln!(
        text,
        "note: {more} more records are of a new part or there already"
    )
}

/// Appends the note on the record with this number: it names a new part or, without `part`, is
/// there already.
fn push_note(text: &mut String, at: usize, part: Option<&PartCode>) -> Result<(), AllocError> {
    match part {
        Some(part) => writeln!(text, "note: record {at}: new part {}", part.as_str()),
        None => writeln!(text, "note: record {at} is there already"),
    }
}

/// The notes on records, numbered from 1. `had` are the parts that the office had, and `checked` is
/// what an import would make of each record.
fn notes_on(
    alloc: Global,
    records: &[RecordCommand],
    mut had: BTreeSet<PartCode>,
    checked: &[Checked],
) -> Result<String, NoMemory> {
    let mut text = String::new(alloc);
    let mut count: usize = 0;
    for (index, record) in records.iter().enumerate() {
        let new = new_part(&mut had, record)?;
        if new.is_some() || matches!(checked.get(index), Some(Checked::Same)) {
            count = count.saturating_add(1);
            if count <= MOST_NOTES {
                push_note(&mut text, index + 1, new)?;
            }
        }
    }
    if count > MOST_NOTES {
        push_rest(&mut text, count - MOST_NOTES)?;
    }
    Ok(text)
}

/// A line for each of the first hundred records of a CSV file that are the first to name a part
/// which the office never had (`note: record 4: new part LED-RED12`), or that are already there
/// when those before them are imported; and a line with the number of the others.
pub fn record_notes<S: Shelf>(
    alloc: Global,
    office: &mut Office<S>,
    csv: &[u8],
) -> Result<String, Fault>
    ensures { KeepsOffice S.Shelf office.old office.new }
{
    let records = records_in(alloc, csv)?;
    let parts = or_fault(office.stock(alloc))?;
    let checked = or_fault(office.check(alloc, &records))?;
    let had = codes_of(alloc, parts.as_slice())?;
    Ok(notes_on(alloc, &records, had, &checked)?)
}
