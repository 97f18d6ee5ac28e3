//! The differences of two timing sets as a text.

use crate::difference::Difference;
use signal_records::{Key, NoMemory, Row, write_row};
use std::alloc::{AllocError, Global};
use std::fmt::Write;

/// The names of the fields of a row, in their order, the kind first.
fn field_names(row: &Row) -> &'static [&'static str] {
    match row {
        Row::Phase(_, _) => &[
            "kind", "phase", "ring", "minGreen", "passage", "max1", "yellow", "red", "mates",
            "walk", "clear", "width", "setback", "short", "lead",
        ],
        Row::Seq(_, _, _) => &["kind", "sequence", "ring", "phases"],
        Row::Split(_, _, _) => &["kind", "split", "phase", "time", "mode", "coord"],
        Row::Pattern(_, _) => &["kind", "pattern", "cycle", "offset", "split", "sequence"],
    }
}

/// The field at a place, counted from 0; a dash if it is empty or missing.
fn field_or_dash(fields: &[String], place: usize) -> &str {
    match fields.get(place) {
        Some(field) if !field.is_empty() => field.as_str(),
        _ => "-",
    }
}

/// Appends a key, as `phase,2`.
fn push_key(text: &mut String, key: Key) -> Result<(), AllocError> {
    match key {
        Key::Phase(p) => write!(text, "phase,{}", p.get()),
        Key::Seq(n, ring) => write!(text, "seq,{},{}", n.get(), ring.get()),
        Key::Split(n, p) => write!(text, "split,{},{}", n.get(), p.get()),
        Key::Pattern(n) => write!(text, "pattern,{}", n.get()),
    }
}

/// Appends a sign and the fields of a row with commas between, as in a CSV file.
fn push_row(alloc: Global, text: &mut String, sign: &str, row: &Row) -> Result<(), NoMemory> {
    let fields = write_row(alloc, row)?.as_slice().join(alloc, ",")?;
    write!(text, "{sign} {fields}")
}

/// Appends the fields of two rows that differ, as `: minGreen 8 > 10`, with commas between.
fn push_changed_fields(
    text: &mut String,
    names: &[&str],
    before: &[String],
    after: &[String],
) -> Result<(), AllocError> {
    let mut separator = ": ";
    for (place, name) in names.iter().enumerate() {
        let old = field_or_dash(before, place);
        let new = field_or_dash(after, place);
        if old != new {
            write!(text, "{separator}{name} {old} > {new}")?;
            separator = ", ";
        }
    }
    Ok(())
}

/// Appends the key of two rows and the fields that differ, as `~ phase,2: minGreen 8 > 10`.
fn push_changed(
    alloc: Global,
    text: &mut String,
    before: &Row,
    after: &Row,
) -> Result<(), NoMemory> {
    let old = write_row(alloc, before)?;
    let new = write_row(alloc, after)?;
    text.push_str("~ ")?;
    push_key(text, after.key())?;
    push_changed_fields(text, field_names(after), old.as_slice(), new.as_slice())
}

/// A line for each difference, or the one line `no differences`. Each line ends in a line feed. A
/// row that was added follows `+ ` and one that was removed `- `, each as in a CSV file. A row that
/// was changed has `~ `, its key and each field that differs: its name, its value before, ` > `,
/// and its value after. A field that is empty, or that the row does not have, is a dash.
pub fn comparison_text(alloc: Global, differences: &[Difference]) -> Result<Vec<u8>, NoMemory> {
    let mut text = String::new(alloc);
    for difference in differences {
        match difference {
            Difference::Added(row) => push_row(alloc, &mut text, "+", row)?,
            Difference::Removed(row) => push_row(alloc, &mut text, "-", row)?,
            Difference::Changed { before, after } => {
                push_changed(alloc, &mut text, before, after)?
            }
        }
        text.push_str("\n")?;
    }
    if differences.is_empty() {
        text.push_str("no differences\n")?;
    }
    Ok(text.into_bytes())
}
