//! Writes values into CSV files.

ghost use Rattle.std.specs.Prelude.{◌≡◌, ℕ, List, map, IfOk, OnOk, All};
ghost use Rattle.csv.specs.Records.{fields_of};
ghost use Rattle.office_files.specs.Csv.{csv_text};

use csv::{ByteRecord, WriterBuilder};
use signal_records::NoMemory;
use std::alloc::Global;

/// A value that is written as one record of a CSV file.
pub(crate) trait CsvRecord {
    /// The fields that spell the value.
    ghost spelling: { Self → List (List ℕ) };

    /// What holds of every value of the type.
    ghost IsWithin: { Self → Type 0 };

    /// The record of the value.
    fn record(&self, alloc: Global) -> Result<ByteRecord, NoMemory>
        ensures fields { IfOk result (λ row. fields_of row ≡ spelling self.now) }
        ensures within { OnOk result (IsWithin self.now) };
}

/// The CSV file that has a record for each value, in order, as the crate `csv` writes it by
/// default, except that records may differ in length.
pub(crate) fn write_records<T: CsvRecord>(alloc: Global, values: &[T]) -> Result<Vec<u8>, NoMemory>
    ensures text { IfOk result (λ text. text.items ≡ csv_text (map T.spelling values.now)) }
    ensures within { OnOk result (All T.IsWithin values.now) }
{
    let mut writer = WriterBuilder::new()
        .flexible(true)
        .from_writer(Vec::new(alloc));
    for value in values {
        let record = value.record(alloc)?;
        // Writing to a vector fails only for want of memory.
        let Ok(()) = writer.write_byte_record(&record) else {
            return Err(NoMemory);
        };
    }
    writer.into_inner().map_err(|_| NoMemory)
}

impl CsvRecord for ByteRecord {
    ghost use Rattle.csv.specs.Records.{fields_of};

    ghost spelling = { fields_of };

    ghost IsWithin = { λ _. Unit {0} };

    fn record(&self, _alloc: Global) -> Result<ByteRecord, NoMemory> {
        self.clone()
    }
}

/// The CSV file of these records, in order, as the crate `csv` writes it by default, except that
/// records may differ in length. Each ends with a line feed.
pub fn csv_file(alloc: Global, records: &[ByteRecord]) -> Result<Vec<u8>, NoMemory>
    ensures { IfOk result (λ text. text.items ≡ csv_text (map fields_of records.now)) }
{
    write_records(alloc, records)
}
