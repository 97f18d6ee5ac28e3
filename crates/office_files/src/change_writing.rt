//! Changes of a timing set, written into CSV files.

ghost use Rattle.std.specs.Prelude.{◌≡◌, ◌∷◌, codes, IfOk, Ok, IsUtf8};
ghost use Rattle.signal_records.specs.Spelling.{key_spelling, Writes};
ghost use Rattle.office_files.specs.Changes.{changes_of};
ghost use Rattle.office_files.specs.Timing.{changes_csv_text};

use crate::timing::record_of;
use crate::writing::{CsvRecord, write_records};
use csv::ByteRecord;
use signal_records::{Change, Key, NoMemory, change_is_within};
use std::alloc::Global;

/// The fields of a record that removes the row under a key: `remove`, the kind and its numbers.
fn removal_fields(alloc: Global, key: Key) -> Result<Vec<String>, NoMemory>
    ensures { Writes result (codes "remove" ∷ key_spelling key) }
{
    let (kind, first, second) = match key {
        Key::Phase(p) => ("phase", p.get(), None),
        Key::Seq(n, ring) => ("seq", n.get(), Some(ring.get())),
        Key::Split(n, p) => ("split", n.get(), Some(p.get())),
        Key::Pattern(n) => ("pattern", n.get(), None),
    };
    let mut fields = Vec::new(alloc);
    fields.push(String::from_str(alloc, "remove")?)?;
    fields.push(String::from_str(alloc, kind)?)?;
    fields.push(format!(in alloc; "{first}")?)?;
    if let Some(second) = second {
        fields.push(format!(in alloc; "{second}")?)?;
    }
    Ok(fields)
}

impl CsvRecord for Change {
    ghost use Rattle.signal_records.specs.Spelling.{change_spelling};
    ghost use Rattle.signal_records.specs.Within.{current_limits, IsChangeWithin};

    ghost spelling = { change_spelling current_limits };

    ghost IsWithin = { IsChangeWithin current_limits };

    fn record(&self, alloc: Global) -> Result<ByteRecord, NoMemory> {
        change_is_within(self);
        match self {
            Change::Put(row) => row.record(alloc),
            Change::Remove(key) => {
                let fields = removal_fields(alloc, *key)?;
                record_of(alloc, &fields)
            }
        }
    }
}

/// The CSV file of changes of a timing set, in UTF-8: a record for each, in order, with a line feed
/// after it. A record has the fields of the row that is put, or `remove` and the fields of the key
/// that is removed. `read_timing_csv` reads it as these changes.
pub fn changes_csv(alloc: Global, changes: &[Change]) -> Result<Vec<u8>, NoMemory>
    ensures text { IfOk result (λ text. text.items ≡ changes_csv_text changes.now) }
    ensures utf8 { IfOk result (λ text. IsUtf8 text.items) }
    ensures reads_back { IfOk result (λ text. changes_of text.items ≡ Ok changes.now) }
{
    write_records(alloc, changes)
}
