//! The text of a timing row, as the tables keep it.

ghost use Rattle.std.specs.Prelude.{◌≡◌, string_bytes, IfOk};
ghost use Rattle.office_tables_shelf.specs.Rows.{body_of};

use signal_records::{NoMemory, Row, write_row};
use std::alloc::Global;

/// The text that a table keeps of a row: its fields with a comma between, as today's version spells
/// them. `NoMemory` means that a growth was refused.
pub fn write_body(alloc: Global, row: &Row) -> Result<String, NoMemory>
    ensures { IfOk result (λ text. string_bytes text ≡ body_of row.now) }
{
    let fields = write_row(alloc, row)?;
    Ok(fields.as_slice().join(alloc, ",")?)
}
