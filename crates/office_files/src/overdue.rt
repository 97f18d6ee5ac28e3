//! The report of overdue inspections.

ghost use Rattle.std.specs.Prelude.{◌≡◌, ◌++◌, OnOk, IfOk, decimal, string_bytes};
ghost use Rattle.office_files.specs.Cells.{right_aligned};
ghost use Rattle.office_files.specs.Overdue.{overdue_report, overdue_line, due_written};

use cabinet_core::{Date, Day, OverdueRow, push_date, write_day};
use signal_records::{InterId, NoMemory};
use std::alloc::{AllocError, Global};
use std::fmt::Write;

/// Appends the day on which an inspection fell due, as `YYYY-MM-DD`, or `never` and five spaces if
/// there never was one: ten bytes.
fn push_due(text: &mut String, due: &Option<Date>) -> Result<(), AllocError>
    ensures { OnOk result (string_bytes text.new ≡ string_bytes text.old ++ due_written due.now) }
{
    match due {
        None => text.push_str("never     "),
        Some(due) => push_date(text, *due),
    }
}

/// Appends an intersection's number, 1 to 9999, right-aligned in four places.
fn push_id(text: &mut String, id: InterId) -> Result<(), AllocError>
    ensures { OnOk result (string_bytes text.new ≡ string_bytes text.old
        ++ right_aligned 4 (decimal id)) }
{
    let id = id.get();
    write!(text, "{id:>4}")
}

/// Appends the line of an overdue intersection: its number, due day and name, two spaces apart.
fn push_line(text: &mut String, row: &OverdueRow) -> Result<(), AllocError>
    ensures { OnOk result (string_bytes text.new ≡ string_bytes text.old ++ overdue_line row.now) }
{
    let name = row.name.as_str();
    push_id(text, row.id)?;
    text.push_str("  ")?;
    push_due(text, &row.due)?;
    writeln!(text, "  {name}")
}

/// The report of the intersections that are overdue on a day, in UTF-8: a heading with the day, a
/// line for each, in the order of the rows, with its number, the day on which its inspection fell
/// due or `never`, and its name, and a line with their count. A day is spelt `YYYY-MM-DD`.
pub fn overdue_text(alloc: Global, day: Day, rows: &[OverdueRow]) -> Result<Vec<u8>, NoMemory>
    ensures { IfOk result (λ text. text.items ≡ overdue_report day rows.now) }
{
    let mut text = String::new(alloc);
    let spelling = write_day(alloc, day)?;
    writeln!(text, "Overdue on {spelling}")?;
    for row in rows {
        push_line(&mut text, row)?;
    }
    let count = rows.len();
    writeln!(text, "Count {count}")?;
    Ok(text.into_bytes())
}
