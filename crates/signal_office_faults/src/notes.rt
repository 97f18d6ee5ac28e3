//! Notes on the records of a plan's CSV file that put or remove a key again.

use office_files::{CsvFault, read_timing_csv};
use signal_records::{Change, Key, NoMemory, changed_key};
use std::alloc::{AllocError, Global};
use std::collections::BTreeMap;
use std::fmt::Write;

/// How many records are noted one by one, at most; the others are only counted.
const MOST_NOTES: usize = 100;

/// Appends a key, as `split 3 phase 4`.
fn push_key(text: &mut String, key: Key) -> Result<(), AllocError> {
    match key {
        Key::Phase(p) => write!(text, "phase {}", p.get()),
        Key::Seq(n, ring) => write!(text, "sequence {} ring {}", n.get(), ring.get()),
        Key::Split(n, p) => write!(text, "split {} phase {}", n.get(), p.get()),
        Key::Pattern(n) => write!(text, "pattern {}", n.get()),
    }
}

/// Appends the note that the record with this number puts or removes a key again, after the record
/// `earlier`.
fn push_note(
    text: &mut String,
    other: bool,
    number: usize,
    change: &Change,
    earlier: usize,
) -> Result<(), AllocError> {
    text.push_str(if other {
        "note: other record "
    } else {
        "note: record "
    })?;
    write!(text, "{number}")?;
    text.push_str(match change {
        Change::Put(_) => " puts ",
        Change::Remove(_) => " removes ",
    })?;
    push_key(text, changed_key(change))?;
    writeln!(text, " again, after record {earlier}")
}

/// Appends the note that so many more records put or remove a key again.
fn push_rest(text: &mut String, other: bool, more: usize) -> Result<(), AllocError> {
    let records = if other { "other records" } else { "records" };
    writeln!(
        text,
        "note: {more} more {records} put or remove a key again"
    )
}

/// The notes on changes, in order. `latest` has the number of the latest change of each key so far,
/// counted from 1.
fn notes_on(alloc: Global, other: bool, changes: &[Change]) -> Result<String, NoMemory> {
    let mut text = String::new(alloc);
    let mut latest = BTreeMap::new(alloc);
    let mut count: usize = 0;
    for (place, change) in changes.iter().enumerate() {
        if let Some(earlier) = latest.insert(changed_key(change), place + 1)? {
            count = count.saturating_add(1);
            if count <= MOST_NOTES {
                push_note(&mut text, other, place + 1, change, earlier)?;
            }
        }
    }
    if count > MOST_NOTES {
        push_rest(&mut text, other, count - MOST_NOTES)?;
    }
    Ok(text)
}

/// A line for each of the first hundred records of a plan's CSV file that put or remove a key
/// again, with the number of the latest earlier record of that key, and a line with the number of
/// the others; empty for a file that is no plan. `other` says that the file is the second of two.
pub fn notes_in(alloc: Global, other: bool, csv: &[u8]) -> Result<String, NoMemory> {
    match read_timing_csv(alloc, csv) {
        Ok(changes) => notes_on(alloc, other, &changes),
        Err(CsvFault::Row(_)) => Ok(String::new(alloc)),
        Err(CsvFault::NoMemory) => Err(NoMemory),
    }
}
