//! The days of records that are to be imported.

ghost use Rattle.std.specs.Prelude.{◌≡◌, ◌<◌, IfSome, length};
ghost use Rattle.std.specs.List.{position};
ghost use Rattle.signal_office_commands.specs.Days.{AreInTime, first_late, is_late, record_day};

use crate::reading::records_in;
use cabinet_core::{Day, RecordCommand};
use signal_office_faults::Fault;
use std::alloc::Global;

/// The day of a record; a used part has none.
fn record_day(record: &RecordCommand) -> Option<Day>
    ensures { result ≡ record_day record.now }
{
    match record {
        RecordCommand::Inspect { inspection, .. } => Some(inspection.day),
        RecordCommand::OpenOrder { opening, .. } => Some(opening.day),
        RecordCommand::UsePart { .. } => None,
        RecordCommand::CloseOrder { closing, .. } => Some(closing.day),
        RecordCommand::Receive { delivery } => Some(delivery.day),
    }
}

/// Whether a record has a day later than `until`.
fn is_late(until: Day, record: &RecordCommand) -> bool
    ensures { result ≡ is_late until record.now }
{
    match record_day(record) {
        Some(day) => until < day,
        None => false,
    }
}

/// The place of the first record with a day later than `until`, counted from 0.
fn late_place(until: Day, records: &[RecordCommand]) -> Option<usize>
    ensures found { result ≡ position (is_late until) records.now }
    ensures bound { IfSome result (λ index. index < length records.now) }
{
    records.iter().position(|record| is_late(until, record))
}

/// The number of the first record with a day later than `until`, counted from 1.
fn first_late(until: Day, records: &[RecordCommand]) -> Option<usize>
    ensures { result ≡ first_late until records.now }
{
    match late_place(until, records) {
        Some(index) => Some(index + 1),
        None => None,
    }
}

/// Checks that no record of a CSV file has a day later than `until`; without that day nothing is
/// read. `Late` gives the number of the first record that has one, `Csv` the first bad record, or
/// that memory was refused.
pub fn check_days(alloc: Global, csv: &[u8], until: Option<Day>) -> Result<(), Fault>
    ensures { AreInTime until csv.now result }
{
    let Some(until) = until else {
        return Ok(());
    };
    let records = records_in(alloc, csv)?;
    match first_late(until, &records) {
        Some(at) => Err(Fault::Late { at }),
        None => Ok(()),
    }
}
