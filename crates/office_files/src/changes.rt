//! Changes of a timing set, read from CSV files.

ghost use Rattle.std.specs.Prelude.{◌≡◌, ◌≢◌, List, IfOk, IfErr, Ok, Err, MatchResult};
ghost use Rattle.signal_records.specs.declared.record.Change.{Change};
ghost use Rattle.office_files.specs.Changes.{changes_of, spellings, AreWithin};
ghost use Rattle.office_files.specs.Csv.{csv_records};
ghost use Rattle.office_files.specs.CsvFault.{NamesFault};

use crate::fault::CsvFault;
use crate::rows::{CsvRow, read_rows};
use signal_records::{Change, RowFault, read_change};
use std::alloc::Global;

impl CsvRow for Change {
    ghost use Rattle.signal_records.specs.Reading.{change_at};
    ghost use Rattle.signal_records.specs.Within.{current_limits};

    ghost reading = { change_at current_limits };

    fn read_fields(alloc: Global, fields: &[&[u8]]) -> Result<Change, RowFault> {
        read_change(alloc, fields)
    }
}

/// The changes of a timing set that the records of a CSV file spell, in their order, or the first
/// record that spells none, counted from 1. No record is a header, records may differ in length,
/// and empty lines are no records. An empty file has no changes. A byte order mark is taken off.
pub fn read_timing_csv(alloc: Global, bytes: &[u8]) -> Result<Vec<Change>, CsvFault>
    ensures changes { IfOk result (λ changes. changes_of bytes.now ≡ Ok changes.items) }
    ensures fault { IfErr result
        (λ fault. fault ≢ CsvFault.NoMemory → changes_of bytes.now ≡ Err fault) }
    ensures named { IfErr result NamesFault }

    // Each record is the one spelling of its change, and a file of such spellings gives them.
    ensures found { IfOk result (λ changes. csv_records bytes.now ≡ spellings changes.items) }
    ensures within { IfOk result (λ changes. AreWithin changes.items) }
    ensures only { (changes : List Change) → AreWithin changes →
        csv_records bytes.now ≡ spellings changes
        → MatchResult result (λ read. read.items ≡ changes) (λ fault. fault ≡ CsvFault.NoMemory) }
{
    read_rows(alloc, bytes)
}
