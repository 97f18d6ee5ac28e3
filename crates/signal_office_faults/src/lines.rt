//! The lines of a CSV file on which its records begin.

use signal_records::NoMemory;
use std::alloc::Global;

/// Where a reader of CSV is.
#[derive(Clone, Copy)]
pub(crate) enum Reading {
    /// Between two records.
    Between,
    /// At the start of a field.
    Start,
    /// In a field without quotes.
    Plain,
    /// In quotes.
    Quoted,
    /// After a quote in quotes, which ends them unless another quote follows.
    Closed,
}

/// Where a reader is after a byte, by where it was before.
pub(crate) fn after_byte(reading: Reading, byte: u8) -> Reading {
    match (reading, byte) {
        (Reading::Quoted, b'"') => Reading::Closed,
        (Reading::Quoted, _) => Reading::Quoted,
        (Reading::Between | Reading::Start | Reading::Closed, b'"') => Reading::Quoted,
        (_, b',') => Reading::Start,
        (_, b'\n' | b'\r') => Reading::Between,
        _ => Reading::Plain,
    }
}

/// The bytes of a file, without the byte order mark that a file in UTF-8 may begin with.
pub(crate) fn unmarked(csv: &[u8]) -> &[u8] {
    match csv {
        [0xEF, 0xBB, 0xBF, rest @ ..] => rest,
        _ => csv,
    }
}

/// The line of a byte, if `last` is the byte before it and `line` that byte's line.
pub(crate) fn line_after(line: usize, last: u8, byte: u8) -> usize {
    if last == b'\n' || (last == b'\r' && byte != b'\n') {
        line.saturating_add(1)
    } else {
        line
    }
}

/// The line on which each record of a CSV file begins, counted from 1. A line ends with a line
/// feed, a carriage return, or both; a record may take more than one line, and an empty line is no
/// record.
pub fn record_lines(alloc: Global, csv: &[u8]) -> Result<Vec<usize>, NoMemory> {
    let mut lines = Vec::new(alloc);
    let mut reading = Reading::Between;
    let mut line: usize = 1;
    let mut before = b' ';
    for byte in unmarked(csv) {
        let byte = *byte;
        line = line_after(line, before, byte);
        if matches!(reading, Reading::Between) && byte != b'\n' && byte != b'\r' {
            lines.push(line)?;
        }
        reading = after_byte(reading, byte);
        before = byte;
    }
    Ok(lines)
}

/// The line on which the record with this number, counted from 1, begins, by the lines of all
/// records; 0 where there is no such record.
pub fn line_of_record(lines: &[usize], number: usize) -> usize {
    match number.checked_sub(1) {
        Some(place) => lines.get(place).copied().unwrap_or(0),
        None => 0,
    }
}
