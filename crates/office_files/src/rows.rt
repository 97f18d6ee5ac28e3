//! Values that the records of a CSV file spell.

ghost use Rattle.std.specs.Prelude.{◌≡◌, ◌≢◌, ℕ, List, IfOk, IfErr, Result, Ok, Err};
ghost use Rattle.signal_records.specs.declared.fault.RowFault.{RowFault as Fault};
ghost use Rattle.signal_records.specs.Reading.{Gives, texts};
ghost use Rattle.office_files.specs.Csv.{csv_records};
ghost use Rattle.office_files.specs.CsvFault.{NamesFault};
ghost use Rattle.office_files.specs.CsvRow.{csv_rows};

use crate::fault::{CsvFault, told_of_record};
use crate::fields::fields_in;
use crate::records::read_records;
use signal_records::RowFault;
use std::alloc::Global;

/// A value that the fields of a record spell.
pub(crate) trait CsvRow: Sized + Drop {
    /// The value that the fields of a record spell, or the first fault.
    ghost reading: { List (List ℕ) → Result Self Fault };

    fn read_fields(alloc: Global, fields: &[&[u8]]) -> Result<Self, RowFault>
        ensures { Gives result (reading (texts fields.now)) };
}

/// The values that the records of a CSV file spell, in order, or the first record that spells none,
/// counted from 1. `NoMemory` may come in place of either.
pub(crate) fn read_rows<T: CsvRow>(alloc: Global, text: &[u8]) -> Result<Vec<T>, CsvFault>
    ensures rows { IfOk result (λ rows. csv_rows T.reading (csv_records text.now) ≡ Ok rows.items) }
    ensures fault { IfErr result (λ fault. fault ≢ CsvFault.NoMemory →
        csv_rows T.reading (csv_records text.now) ≡ Err fault) }
    ensures named { IfErr result NamesFault }
{
    let records = read_records(alloc, text)?;
    let mut rows = Vec::with_capacity(alloc, records.len())?;
    for (i, record) in records.iter().enumerate() {
        let fields = fields_in(alloc, record)?;
        let row = told_of_record(i + 1, T::read_fields(alloc, &fields))?;
        rows.push_reserved(row);
    }
    Ok(rows)
}
