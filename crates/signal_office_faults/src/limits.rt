//! How long a CSV file and each of its records may be, so that reading it takes bounded memory.

use crate::fault::Fault;
use crate::lines::{Reading, after_byte, line_after, unmarked};
use crate::standard_error::note;

/// The most bytes of a CSV file: 64 MiB.
pub const MOST_BYTES: usize = 67_108_864;

/// The most bytes of a record of a CSV file, with the first byte of its line end: 1 MiB.
const MOST_RECORD_BYTES: usize = 1_048_576;

/// The most records of a CSV file.
const MOST_RECORDS: usize = 100_000;

/// What is said of a record that is too long.
const LONG_RECORD: &str = ", has more than 1 MiB; look for a quote that nothing ends";

/// Why a CSV file is not read.
#[derive(Clone, Copy)]
pub enum TooLong {
    /// It has more than 64 MiB.
    File,
    /// The record with this number, counted from 1, has more than 1 MiB. It begins on this line,
    /// counted from 1.
    Record { at: usize, line: usize },
    /// It has more than 100,000 records.
    Records,
}

impl TooLong {
    /// Says on standard error why a CSV file is not read, and gives the fault `File`.
    pub fn told(self, rt: &HostRuntime, path: &str) -> Fault {
        match self {
            TooLong::File => note(rt, "", path, " has more than 64 MiB"),
            TooLong::Record { at, line } => {
                let after = format!(in rt.alloc(); ": record {at}, line {line}{LONG_RECORD}");
                if let Ok(after) = after {
                    note(rt, "", path, after.as_str());
                }
            }
            TooLong::Records => note(
                rt,
                "",
                path,
                " has more than 100000 records; split it, as by split --lines=50000",
            ),
        }
        Fault::File
    }
}

/// How far a reader of a CSV file has come.
#[derive(Clone, Copy)]
struct Progress {
    reading: Reading,
    /// The last byte that it read.
    last: u8,
    /// The line of that byte, counted from 1.
    line: usize,
    /// How many records have begun.
    records: usize,
    /// The line on which the last of them begins.
    begun: usize,
    /// How many bytes of that record it has read.
    bytes: usize,
}

impl Progress {
    /// Before the first byte.
    fn new() -> Progress {
        Progress {
            reading: Reading::Between,
            last: b' ',
            line: 1,
            records: 0,
            begun: 1,
            bytes: 0,
        }
    }

    /// After one more byte.
    fn after(self, byte: u8) -> Progress {
        let line = line_after(self.line, self.last, byte);
        let (records, begun, bytes) = match (self.reading, byte) {
            (Reading::Between, b'\n' | b'\r') => (self.records, self.begun, self.bytes),
            (Reading::Between, _) => (self.records.saturating_add(1), line, 1),
            _ => (self.records, self.begun, self.bytes.saturating_add(1)),
        };
        Progress {
            reading: after_byte(self.reading, byte),
            last: byte,
            line,
            records,
            begun,
            bytes,
        }
    }
}

/// What is too long in a CSV file, if anything is: the first such record, or the number of records.
fn excess(csv: &[u8]) -> Option<TooLong> {
    let mut progress = Progress::new();
    for byte in unmarked(csv) {
        progress = progress.after(*byte);
        if progress.bytes > MOST_RECORD_BYTES {
            return Some(TooLong::Record {
                at: progress.records,
                line: progress.begun,
            });
        }
    }
    if progress.records > MOST_RECORDS {
        Some(TooLong::Records)
    } else {
        None
    }
}

/// Checks that a CSV file has at most 100,000 records, and none of more than 1 MiB. Else the fault
/// is `File`, after a note that names the file.
pub fn check_length(rt: &HostRuntime, name: &str, csv: &[u8]) -> Result<(), Fault> {
    match excess(csv) {
        Some(why) => Err(why.told(rt, name)),
        None => Ok(()),
    }
}
