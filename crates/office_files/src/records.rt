//! The records of a CSV file.

ghost use Rattle.std.specs.Prelude.{◌≡◌, ◌≤◌, ◌⊎◌, ◌++◌, [], ◌∷◌, true, map, is_err, IfOk, IfErr, OnErr, Ok, vec_capacity, vec_len};
ghost use Rattle.csv.specs.Reading.{error_kind, stops_reader};
ghost use Rattle.csv.specs.Records.{fields_of};
ghost use Rattle.csv.specs.declared.record.ByteRecord.{ByteRecord as Record};
ghost use Rattle.office_files.specs.Csv.{csv_records};

use csv::{ByteRecord, Error, ReaderBuilder};
use signal_records::NoMemory;
use std::alloc::Global;

/// The records of a CSV file, in order. No record is a header, and records may differ in length. A
/// byte order mark is taken off.
pub fn read_records(alloc: Global, text: &[u8]) -> Result<Vec<ByteRecord>, NoMemory>
    ensures { IfOk result (λ records. map fields_of records.items ≡ csv_records text.now) }
{
    let reader = ReaderBuilder::new()
        .has_headers(false)
        .flexible(true)
        .from_reader(alloc, text);
    let mut records = Vec::new(alloc);
    for record in reader.into_byte_records() {
        keep(&mut records, record)?;
    }
    Ok(records)
}

/// Keeps a record that was read, or reports want of memory. The reader of a slice stops only if
/// memory runs out: a slice can't fail to be read, and records may differ in length. So want of
/// memory is reported only if the reader stopped, or if there was no room left.
fn keep(records: &mut Vec<ByteRecord>, read: Result<ByteRecord, Error>) -> Result<(), NoMemory>
    requires { IfErr read (λ error. stops_reader (error_kind error) ≡ true) }
    ensures kept { IfOk result (λ _. (found : Record)
        × (read ≡ Ok found) × (records.new.items ≡ records.old.items ++ found ∷ [])) }
    ensures memory { OnErr result ((is_err read ≡ true)
        ⊎ (vec_capacity records.old ≤ vec_len records.old)) }
{
    match read {
        Ok(record) => records.push(record)?,
        Err(_) => return Err(NoMemory),
    }
    Ok(())
}
