//! The bad records of a CSV file, each with its line and what is wrong with it.

use crate::hints::{CsvKind, Wrong, push_hint};
use crate::lines::line_of_record;
use crate::padded::{marked_file, unpadded_csv};
use csv::ByteRecord;
use office_files::{CsvFault, fields_in, read_records, read_records_csv, read_timing_csv};
use signal_records::{NoMemory, RowFault};
use std::alloc::Global;
use std::fmt::Write;

/// How many bad records of a file are printed one by one, at most.
const MOST_TOLD: usize = 100;

/// What else a file is than CSV in UTF-8, if its first field shows it.
fn what_file(records: &[ByteRecord]) -> Option<&'static str> {
    match records.first()?.get(0)? {
        [b'P', b'K', 3, 4, ..] => Some("a workbook (xlsx), not CSV; save as CSV UTF-8"),
        [0xFF, 0xFE, ..] | [0xFE, 0xFF, ..] | [0, _, ..] | [_, 0, ..] => {
            Some("UTF-16, not UTF-8; save as CSV UTF-8")
        }
        _ => None,
    }
}

/// The fault of the first bad record of a file that was read, if it has one.
fn first_fault<T: Drop>(read: Result<Vec<T>, CsvFault>) -> Result<Option<RowFault>, NoMemory> {
    match read {
        Ok(_) => Ok(None),
        Err(CsvFault::Row(bad)) => Ok(Some(bad.fault)),
        Err(CsvFault::NoMemory) => Err(NoMemory),
    }
}

/// The fault of the first bad record of a file of this kind, if it has one.
fn fault_in(alloc: Global, of: CsvKind, csv: &[u8]) -> Result<Option<RowFault>, NoMemory> {
    match of {
        CsvKind::Plan => first_fault(read_timing_csv(alloc, csv)),
        CsvKind::Register => first_fault(read_records_csv(alloc, csv)),
    }
}

/// What is wrong with a record, if it is bad. It is read as a file of its own.
fn wrong_with(alloc: Global, of: CsvKind, record: &ByteRecord) -> Result<Option<Wrong>, NoMemory> {
    let file = marked_file(alloc, std::slice::from_ref(record))?;
    let Some(fault) = fault_in(alloc, of, &file)? else {
        return Ok(None);
    };
    let without = unpadded_csv(alloc, &file)?;
    let is_padded = fault_in(alloc, of, &without)?.is_none();
    Ok(Some(Wrong { fault, is_padded }))
}

/// Appends a line for each of the first hundred bad records, and gives how many there are in all.
/// `line` is the word before each line number.
fn push_all(
    alloc: Global,
    text: &mut String,
    of: CsvKind,
    records: &[ByteRecord],
    lines: &[usize],
    line: &str,
) -> Result<usize, NoMemory> {
    let mut count: usize = 0;
    for (at, record) in records.iter().enumerate() {
        let Some(wrong) = wrong_with(alloc, of, record)? else {
            continue;
        };
        if count < MOST_TOLD {
            write!(text, "{line} {}", line_of_record(lines, at + 1))?;
            push_hint(text, of, &fields_in(alloc, record)?, wrong)?;
            text.push_str("\n")?;
        }
        count = count.saturating_add(1);
    }
    Ok(count)
}

/// A line for each of the first hundred bad records of a CSV file, as
/// `line 7, offset: "300"; 0 to 255 seconds`, and a line with the number of the others; empty for a
/// good file. `lines` has the line on which each record begins. For a workbook or a file in UTF-16
/// it is one line that says so. `other` says that the file is the second of two.
pub fn bad_records_text(
    alloc: Global,
    csv: &[u8],
    lines: &[usize],
    of: CsvKind,
    other: bool,
) -> Result<String, NoMemory> {
    let line = if other { "other line" } else { "line" };
    let records = read_records(alloc, csv)?;
    let mut text = String::new(alloc);
    if let Some(what) = what_file(&records) {
        writeln!(text, "{line} 1: {what}")?;
        return Ok(text);
    }
    let count = push_all(alloc, &mut text, of, &records, lines, line)?;
    if MOST_TOLD < count {
        writeln!(text, "{} more bad records", count - MOST_TOLD)?;
    }
    Ok(text)
}
