//! Lists: records of cells, printed as CSV or as lines of columns.

ghost use Rattle.std.specs.Prelude.{◌≡◌, true, map, IfOk, string_bytes};
ghost use Rattle.csv.specs.Records.{fields_of};
ghost use Rattle.office_views.specs.Lists.{IsReadBack, cell_text, is_csv};

use cabinet_core::{Date, write_date};
use csv::ByteRecord;
use office_files::csv_file;
use signal_records::NoMemory;
use std::alloc::{AllocError, Global};
use unicode_width::UnicodeWidthStr;

/// How a list is printed.
#[derive(Clone, Copy)]
pub enum ListStyle {
    /// Lines of columns below their heading, and a count of the lines.
    Lines,
    /// CSV.
    Csv,
    /// CSV, whose first record has the names of its fields.
    HeadedCsv,
}

impl ListStyle {
    /// Whether the list is CSV.
    pub(crate) fn is_csv(self) -> bool
        ensures { result ≡ is_csv self }
    {
        match self {
            ListStyle::Lines => false,
            ListStyle::Csv | ListStyle::HeadedCsv => true,
        }
    }
}

/// The content of a cell of a list.
#[derive(Clone, Copy)]
pub(crate) enum Cell<'a> {
    Number(u64),
    Word(&'a str),
    Day(Date),
}

/// A column of the lines of a list: the place of its cell in a record, from 0, and how wide it is
/// on a terminal, in Latin characters. A longer cell is not cut.
#[derive(Clone, Copy)]
pub(crate) enum Column {
    /// Right-aligned.
    Right(usize, usize),
    /// Left-aligned, where a line begins.
    First(usize, usize),
    /// Left-aligned after two spaces. An empty cell is a dash.
    Left(usize, usize),
}

fn text_of(alloc: Global, cell: &Cell<'_>) -> Result<String, NoMemory>
    ensures { IfOk result (λ text. string_bytes text ≡ cell_text cell.now) }
{
    match *cell {
        Cell::Number(number) => Ok(format!(in alloc; "{number}")?),
        Cell::Word(word) => Ok(String::from_str(alloc, word)?),
        Cell::Day(day) => write_date(alloc, day),
    }
}

/// The record of these cells.
pub(crate) fn record_of(alloc: Global, cells: &[Cell<'_>]) -> Result<ByteRecord, NoMemory>
    ensures { IfOk result (λ row. fields_of row ≡ map cell_text cells.now) }
{
    let mut row = ByteRecord::new(alloc);
    for cell in cells {
        let text = text_of(alloc, cell)?;
        row.push_field(text.as_bytes())?;
    }
    Ok(row)
}

/// How wide a field is on a terminal: an accent takes no place of its own, a wide letter two.
fn width_of(field: &[u8]) -> usize {
    match str::from_utf8(field) {
        Ok(text) => text.width(),
        Err(_) => field.len(),
    }
}

fn push_spaces(text: &mut Vec<u8>, width: usize, field: &[u8]) -> Result<(), AllocError> {
    for _ in width_of(field)..width {
        text.push(b' ')?;
    }
    Ok(())
}

/// Appends a field, and spaces up to a width.
fn push_left(text: &mut Vec<u8>, width: usize, field: &[u8]) -> Result<(), AllocError> {
    text.extend_from_slice(field)?;
    push_spaces(text, width, field)
}

fn push_field(text: &mut Vec<u8>, column: Column, record: &ByteRecord) -> Result<(), AllocError> {
    match column {
        Column::Right(place, width) => {
            let field = record.get(place).unwrap_or(&[]);
            push_spaces(text, width, field)?;
            text.extend_from_slice(field)
        }
        Column::First(place, width) => push_left(text, width, record.get(place).unwrap_or(&[])),
        Column::Left(place, width) => {
            let field = record.get(place).unwrap_or(&[]);
            text.extend_from_slice(b"  ")?;
            push_left(text, width, if field.is_empty() { b"-" } else { field })
        }
    }
}

fn push_record(
    text: &mut Vec<u8>,
    columns: &[Column],
    record: &ByteRecord,
) -> Result<(), AllocError> {
    for column in columns {
        push_field(text, *column, record)?;
    }
    Ok(text.push(b'\n')?)
}

/// Appends the line of these cells.
pub(crate) fn push_line(
    alloc: Global,
    text: &mut Vec<u8>,
    columns: &[Column],
    cells: &[Cell<'_>],
) -> Result<(), NoMemory> {
    let record = record_of(alloc, cells)?;
    Ok(push_record(text, columns, &record)?)
}

/// Appends a heading, and below it the line of each record.
pub(crate) fn push_lines(
    text: &mut Vec<u8>,
    heading: &str,
    columns: &[Column],
    records: &[ByteRecord],
) -> Result<(), AllocError> {
    text.extend_from_slice(heading.as_bytes())?;
    for record in records {
        push_record(text, columns, record)?;
    }
    Ok(())
}

/// Appends the last line of a list: how many there are.
pub(crate) fn push_count(alloc: Global, text: &mut Vec<u8>, count: usize) -> Result<(), NoMemory> {
    let end = format!(in alloc; "Count {count}\n")?;
    Ok(text.extend_from_slice(end.as_bytes())?)
}

/// A list as lines: its heading, the line of each record, and their count.
pub(crate) fn print_lines(
    alloc: Global,
    heading: &str,
    columns: &[Column],
    records: &[ByteRecord],
) -> Result<Vec<u8>, NoMemory> {
    let mut text = Vec::new(alloc);
    push_lines(&mut text, heading, columns, records)?;
    push_count(alloc, &mut text, records.len())?;
    Ok(text)
}

/// The records with which a list begins: the names of its fields if it is CSV with headings, else
/// none.
pub(crate) fn first_records(
    alloc: Global,
    style: ListStyle,
    names: &[&str],
) -> Result<Vec<ByteRecord>, NoMemory> {
    let mut records = Vec::new(alloc);
    if matches!(style, ListStyle::HeadedCsv) {
        let mut row = ByteRecord::new(alloc);
        for name in names {
            row.push_field(name.as_bytes())?;
        }
        records.push(row)?;
    }
    Ok(records)
}

/// A list as CSV. Whatever its words contain, it reads back as its records.
pub(crate) fn print_csv(alloc: Global, records: &[ByteRecord]) -> Result<Vec<u8>, NoMemory>
    ensures { IfOk result (λ text. IsReadBack (map fields_of records.now) text.items) }
{
    csv_file(alloc, records)
}

/// A list as CSV, or as lines of columns below this heading.
pub(crate) fn print_list(
    alloc: Global,
    style: ListStyle,
    heading: &str,
    columns: &[Column],
    records: &[ByteRecord],
) -> Result<Vec<u8>, NoMemory>
    ensures { is_csv style ≡ true →
        IfOk result (λ text. IsReadBack (map fields_of records.now) text.items) }
{
    if style.is_csv() {
        print_csv(alloc, records)
    } else {
        print_lines(alloc, heading, columns, records)
    }
}
