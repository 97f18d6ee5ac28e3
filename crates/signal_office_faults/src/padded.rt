//! Files whose records a spreadsheet has padded with empty fields. The padding of a record is what
//! follows the fields of its kind, if all of that is empty.

ghost use Rattle.std.specs.Prelude.{◌≡◌, map, IfOk, List, Ok};
ghost use Rattle.csv.specs.Records.{fields_of};
ghost use Rattle.cabinet_core.specs.declared.command.RecordCommand.{RecordCommand};
ghost use Rattle.office_files.specs.Changes.{changes_of};
ghost use Rattle.office_files.specs.Records.{commands_of};
ghost use Rattle.signal_office_faults.specs.Padded.{marked_text, unpadded, unpadded_rows, unpadded_text};
ghost use Rattle.signal_records.specs.Reading.{texts};
ghost use Rattle.signal_records.specs.declared.record.Change.{Change};

use crate::width::{are_blank, unpadded};
use csv::ByteRecord;
use office_files::{csv_file, fields_in, read_records};
use signal_records::NoMemory;
use std::alloc::Global;

/// The byte order mark that a file in UTF-8 may begin with.
const BYTE_ORDER_MARK: &[u8] = b"\xEF\xBB\xBF";

/// The record of these fields without its padding.
fn unpadded_record(alloc: Global, fields: &[&[u8]]) -> Result<ByteRecord, NoMemory>
    ensures { IfOk result (λ row. fields_of row ≡ unpadded (texts fields.now)) }
{
    ByteRecord::from_fields(alloc, unpadded(fields))
}

/// The records in order, each without its padding, and without those whose fields are all empty.
fn unpadded_records(alloc: Global, records: &[ByteRecord]) -> Result<Vec<ByteRecord>, NoMemory>
    ensures { IfOk result (λ rows.
        map fields_of rows.items ≡ unpadded_rows (map fields_of records.now)) }
{
    let mut rows = Vec::new(alloc);
    for record in records {
        let fields = fields_in(alloc, record)?;
        if !are_blank(&fields) {
            rows.push(unpadded_record(alloc, &fields)?)?;
        }
    }
    Ok(rows)
}

/// The file of these records after a byte order mark. A reader drops that mark, and no other one
/// with which the first field may begin.
pub(crate) fn marked_file(alloc: Global, records: &[ByteRecord]) -> Result<Vec<u8>, NoMemory>
    ensures { IfOk result (λ text. text.items ≡ marked_text (map fields_of records.now)) }
{
    let file = csv_file(alloc, records)?;
    let mut text = Vec::new(alloc);
    text.extend_from_slice(BYTE_ORDER_MARK)?;
    text.extend_from_slice(&file)?;
    Ok(text)
}

/// The CSV file that `unpadded_csv` gives for these bytes.
fn unpadded_file(alloc: Global, bytes: &[u8]) -> Result<Vec<u8>, NoMemory>
    ensures { IfOk result (λ text. text.items ≡ unpadded_text bytes.now) }
{
    let records = read_records(alloc, bytes)?;
    let rows = unpadded_records(alloc, &records)?;
    marked_file(alloc, &rows)
}

/// A CSV file with the records of another, each without its padding, after a byte order mark. A
/// record whose fields are all empty is left out, as an empty line is. What a good file says stays.
pub fn unpadded_csv(alloc: Global, bytes: &[u8]) -> Result<Vec<u8>, NoMemory>
    ensures good_plan { IfOk result (λ text. (changes : List Change) →
        changes_of bytes.now ≡ Ok changes → changes_of text.items ≡ Ok changes) }
    ensures good_records { IfOk result (λ text. (commands : List RecordCommand) →
        commands_of bytes.now ≡ Ok commands → commands_of text.items ≡ Ok commands) }
{
    unpadded_file(alloc, bytes)
}

/// The lines on which the records begin that `unpadded_csv` does not leave out. `lines` has the
/// line of each record of the file.
pub fn unpadded_lines(
    alloc: Global,
    bytes: &[u8],
    lines: &[usize],
) -> Result<Vec<usize>, NoMemory> {
    let mut rest = Vec::new(alloc);
    for (record, line) in read_records(alloc, bytes)?.iter().zip(lines) {
        if !are_blank(&fields_in(alloc, record)?) {
            rest.push(*line)?;
        }
    }
    Ok(rest)
}
