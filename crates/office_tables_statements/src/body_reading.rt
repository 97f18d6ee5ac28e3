//! A timing row from the text that is stored for it, in either version of the tables.

ghost use Rattle.std.specs.Prelude.{◌≡◌, ◌≢◌, ◌==◌, IfOk, IfSome, Ok, None};
ghost use Rattle.std.specs.List.{slice_split};
ghost use Rattle.signal_records.specs.{Reading.GivesSpelled, Reading.texts, Spelling.spelling, Within.IsRowWithin, declared.record.Row.Row};
ghost use Rattle.office_tables_shelf.specs.Rows.{body_in};
ghost use Rattle.office_tables_statements.specs.Versions.{limits_of};

use signal_records::{NoMemory, Row, RowFault, read_row, read_row_v1};
use std::alloc::Global;

/// A version of the tables, which says how rows are spelled.
#[derive(Clone, Copy)]
pub enum Version {
    /// Version 1, whose rows have no lead: no seconds by which a walk begins before the green.
    First,
    /// Today's version, which is 2.
    Current,
}

/// The row that the fields spell in this version, or the first fault.
fn read_row_of(alloc: Global, version: Version, fields: &[&[u8]]) -> Result<Row, RowFault>
    ensures found { IfOk result (λ row. texts fields.now ≡ spelling (limits_of version) row) }
    ensures within { IfOk result (λ row. IsRowWithin (limits_of version) row) }
    ensures only { GivesSpelled (limits_of version) (texts fields.now) result }
{
    match version {
        Version::First => read_row_v1(alloc, fields),
        Version::Current => read_row(alloc, fields),
    }
}

/// The row whose fields, with a comma between, are these bytes in this version; none where there is
/// no such row. `NoMemory` means that a growth was refused.
pub(crate) fn row_of_body(
    alloc: Global,
    version: Version,
    body: &[u8],
) -> Result<Option<Row>, NoMemory>
    ensures ok { IfOk result (λ found. IfSome found (λ row.
        (body_in (limits_of version) row ≡ body.now) × IsRowWithin (limits_of version) row)) }
    ensures none { result ≡ Ok None → (row : Row) → IsRowWithin (limits_of version) row →
        body_in (limits_of version) row ≢ body.now }
{
    let fields = fields_of(alloc, body)?;
    match read_row_of(alloc, version, &fields) {
        Ok(row) => Ok(Some(row)),
        Err(fault) => match fault {
            RowFault::NoMemory => Err(NoMemory),
            _ => Ok(None),
        },
    }
}

/// The fields of a body, which stand between its commas; there is one at least.
fn fields_of(alloc: Global, body: &[u8]) -> Result<Vec<&[u8]>, NoMemory>
    ensures { IfOk result (λ fields. texts fields.items ≡ slice_split (λ b. b == 44) body.now) }
{
    body.split(|b| *b == 44).collect(alloc)
}
