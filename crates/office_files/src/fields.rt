//! The fields of a record that was read.

ghost use Rattle.std.specs.Prelude.{◌≡◌, IfOk};
ghost use Rattle.csv.specs.Records.{fields_of};
ghost use Rattle.signal_records.specs.Reading.{texts};

use csv::ByteRecord;
use signal_records::NoMemory;
use std::alloc::Global;

/// The fields of a record, in their order.
pub fn fields_in<'a>(alloc: Global, row: &'a ByteRecord) -> Result<Vec<&'a [u8]>, NoMemory>
    ensures { IfOk result (λ fields. texts fields.items ≡ fields_of row.now) }
{
    let mut fields = Vec::with_capacity(alloc, row.len())?;
    for field in row {
        fields.push(field)?;
    }
    Ok(fields)
}
