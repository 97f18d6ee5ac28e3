//! Timing sets, written into CSV files.

ghost use Rattle.std.specs.Prelude.{◌≡◌, map, IfOk, OnOk, Ok, IsUtf8, string_bytes};
ghost use Rattle.std.specs.FinMap as finmap;
ghost use Rattle.csv.specs.Records.{fields_of};
ghost use Rattle.signal_records.specs.TimingSet.{after_changes};
ghost use Rattle.office_files.specs.Changes.{changes_of};
ghost use Rattle.office_files.specs.Timing.{timing_csv_text, puts_of};

use crate::writing::{CsvRecord, write_records};
use csv::ByteRecord;
use signal_records::{NoMemory, Row, TimingSet, row_is_within, write_row};
use std::alloc::Global;

/// The CSV record that has these texts as its fields, in order.
pub(crate) fn record_of(alloc: Global, texts: &[String]) -> Result<ByteRecord, NoMemory>
    ensures { IfOk result (λ row. fields_of row ≡ map string_bytes texts.now) }
{
    let mut record = ByteRecord::new(alloc);
    for text in texts {
        record.push_field(text.as_bytes())?;
    }
    Ok(record)
}

impl CsvRecord for Row {
    ghost use Rattle.signal_records.specs.Spelling.{spelling};
    ghost use Rattle.signal_records.specs.Within.{current_limits, IsRowWithin};

    ghost spelling = { spelling current_limits };

    ghost IsWithin = { IsRowWithin current_limits };

    fn record(&self, alloc: Global) -> Result<ByteRecord, NoMemory> {
        row_is_within(self);
        let fields = write_row(alloc, self)?;
        record_of(alloc, fields.as_slice())
    }
}

/// The CSV file of a timing set, in UTF-8: a record with the fields of each row, in key order, with
/// a line feed after it. `read_timing_csv` reads it as changes that put these rows, which turn the
/// empty set into this one.
pub fn timing_csv(alloc: Global, set: &TimingSet) -> Result<Vec<u8>, NoMemory>
    ensures text { IfOk result (λ text. text.items ≡ timing_csv_text set.now) }
    ensures utf8 { IfOk result (λ text. IsUtf8 text.items) }
    ensures reads_back { IfOk result (λ text. changes_of text.items ≡ Ok (puts_of set.now)) }
    ensures restores { OnOk result (after_changes finmap.empty (puts_of set.now) ≡ set.now) }
{
    let rows = set.rows(alloc)?;
    write_records(alloc, &rows)
}
