//! What is wrong with a record of a CSV file, for whoever mends it: what a field has, and what it
//! may have.

use crate::fields::{Field, fields_behind, widths_of};
use crate::kinds::{RecordKind, RowKind, record_kind_of};
use signal_records::{NoMemory, RowFault};
use std::fmt::Write;

/// What the records of a CSV file are.
#[derive(Clone, Copy, PartialEq, Eq)]
pub enum CsvKind {
    /// Rows of a plan, and removals of them.
    Plan,
    /// Records of cabinets, and deliveries.
    Register,
}

/// What is wrong with a bad record.
#[derive(Clone, Copy)]
pub(crate) struct Wrong {
    pub(crate) fault: RowFault,
    /// It would be good without the empty fields at its end.
    pub(crate) is_padded: bool,
}

/// A bad record, the file that it is in, and what is wrong with it.
#[derive(Clone, Copy)]
struct BadRecord<'r> {
    in_file: CsvKind,
    of: RecordKind,
    kind: &'r [u8],
    fields: &'r [&'r [u8]],
    wrong: Wrong,
}

/// What is said of a field that may have no spaces at its ends, and has some.
const NO_SPACES: &str = "no spaces";

/// How many characters of a field are shown, at most.
const MOST_SHOWN: usize = 40;

/// Appends a text in quotes, with its quotes, backslashes and control characters escaped. Only its
/// first 40 characters are shown, and its length if it has more than 40 bytes.
fn push_quoted(text: &mut String, field: &str) -> Result<(), NoMemory> {
    text.push_str("\"")?;
    for c in field.chars().take(MOST_SHOWN) {
        match c {
            '"' | '\\' => write!(text, "\\{c}")?,
            '\n' => text.push_str("\\n")?,
            '\r' => text.push_str("\\r")?,
            '\t' => text.push_str("\\t")?,
            c if c.is_control() => write!(text, "\\u{{{:x}}}", u32::from(c))?,
            c => text.push(c)?,
        }
    }
    if field.chars().nth(MOST_SHOWN).is_some() {
        text.push_str("..")?;
    }
    text.push_str("\"")?;
    if field.len() > MOST_SHOWN {
        write!(text, " ({} bytes)", field.len())?;
    }
    Ok(())
}

/// Whether a field begins or ends with a space, a tab or an end of a line.
fn has_outer_space(field: &[u8]) -> bool {
    field.trim_ascii().len() < field.len()
}

/// Appends the name of a field, what it has, and what it may have, `values` and `more`; or its
/// first byte that is not UTF-8.
fn push_field(
    text: &mut String,
    name: &str,
    field: &[u8],
    values: &str,
    more: &str,
) -> Result<(), NoMemory> {
    write!(text, ", {name}: ")?;
    match str::from_utf8(field) {
        Ok(spelled) => {
            push_quoted(text, spelled)?;
            write!(text, "; {values}{more}")
        }
        Err(error) => {
            let byte = field.get(error.valid_up_to()).copied().unwrap_or(0);
            write!(text, "byte 0x{byte:02X} is not UTF-8; save as CSV UTF-8")
        }
    }
}

/// If a record belongs in another kind of file: what it is, and which command takes it.
fn stranger(bad: &BadRecord<'_>) -> Option<&'static str> {
    let is_of_plan = bad.of.removes || !matches!(bad.of.kind, RowKind::Other);
    match bad.in_file {
        CsvKind::Plan if !is_of_plan && !fields_behind(bad.of, bad.kind).is_empty() => {
            Some("a record of a cabinet; import takes it")
        }
        CsvKind::Register if is_of_plan => Some("a row of a plan; edit takes it"),
        _ => None,
    }
}

/// Whether a record looks like a header row: more than one field, and none that begins with a
/// digit.
fn is_header(fields: &[&[u8]]) -> bool {
    1 < fields.len()
        && !fields.iter().any(
            |field| matches!(field.first(), Some(first) if first.is_ascii_digit()),
        )
}

/// What a record of an unknown kind is, if it shows that.
fn what_stands(bad: &BadRecord<'_>) -> Option<&'static str> {
    let kind = bad.kind;
    if bad.fields.iter().all(|field| field.is_empty()) {
        Some("nothing but commas; --padded passes over it")
    } else if kind.starts_with(b"#") || kind.starts_with(b"//") {
        Some("a comment; remove it, CSV has none")
    } else if kind.contains(&b';') {
        Some("semicolons between fields; write commas")
    } else if kind.contains(&b'\t') {
        Some("tabs between fields; write commas")
    } else if let Some(what) = stranger(bad) {
        Some(what)
    } else if !bad.of.removes && is_header(bad.fields) {
        Some("a header row; remove it, CSV has none")
    } else {
        None
    }
}

/// Appends what is wrong with the kind of a record.
fn push_kind(text: &mut String, bad: &BadRecord<'_>) -> Result<(), NoMemory> {
    if let Some(what) = what_stands(bad) {
        return write!(text, ": {what}");
    }
    let (kind, kinds) = match bad.in_file {
        CsvKind::Register => (bad.kind, "inspection, order, use, close or delivery"),
        CsvKind::Plan if bad.of.removes => (
            bad.fields.get(1).copied().unwrap_or(b""),
            "phase, seq, split or pattern after remove",
        ),
        CsvKind::Plan => (bad.kind, "phase, seq, split, pattern or remove"),
    };
    let kinds = if has_outer_space(kind) {
        NO_SPACES
    } else {
        kinds
    };
    push_field(text, "kind", kind, kinds, "")
}

/// Whether the records of a kind have a text or a clerk's name, which may contain commas.
fn has_text(kind: &[u8]) -> bool {
    kind == b"inspection".as_slice() || kind == b"order".as_slice() || kind == b"close".as_slice()
}

/// Why a record may have more fields than its kind; empty where no reason is known.
fn why_more(bad: &BadRecord<'_>, most: usize) -> &'static str {
    let found = bad.fields.len();
    match bad.of.kind {
        _ if bad.wrong.is_padded => "; --padded drops the empty ones at its end",
        RowKind::Other if has_text(bad.kind) && most < found => "; a comma in a text needs quotes",
        RowKind::Seq if !bad.of.removes && most < found => {
            "; phases stand in one field, with spaces"
        }
        RowKind::Phase if !bad.of.removes && (found == 10 || found == 16) => {
            "; mates stand in one field, with spaces"
        }
        _ => "",
    }
}

/// Appends how many fields a record has, how many it should have, and why it may have more.
fn push_count(text: &mut String, bad: &BadRecord<'_>) -> Result<(), NoMemory> {
    let found = bad.fields.len();
    let most = fields_behind(bad.of, bad.kind).len().saturating_add(1);
    let why = why_more(bad, most);
    let widths = widths_of(bad.of, bad.kind);
    let s = if found == 1 { "" } else { "s" };
    write!(text, ": {found} field{s}, not {widths}{why}")
}

/// Whether a field has the form of a day, YYYY-MM-DD.
fn has_form_of_day(field: &[u8]) -> bool {
    field.len() == 10
        && field.iter().enumerate().all(|(place, byte)| match place {
            4 | 7 => *byte == b'-',
            _ => byte.is_ascii_digit(),
        })
}

/// What is added, by its fault, to what a field may have.
fn more_on(fault: RowFault, field: &[u8]) -> &'static str {
    match fault {
        RowFault::Number(_) => ", in digits without leading zeros",
        RowFault::Day(_) if has_form_of_day(field) => ", from 1970-01-01 to 2199-12-31",
        RowFault::Text(_) if field.contains(&b'\n') => "; is a quote left open?",
        _ => "",
    }
}

/// Whether a bad field may have no space at its ends: a number, a day or the code of a part.
fn takes_no_space(bad: &BadRecord<'_>) -> bool {
    match bad.wrong.fault {
        RowFault::Number(_) | RowFault::Day(_) => true,
        RowFault::Text(_) => !has_text(bad.kind),
        _ => false,
    }
}

/// Appends what is wrong with the field at a place of a record, counted from 1.
fn push_at(text: &mut String, bad: &BadRecord<'_>, place: u8) -> Result<(), NoMemory> {
    let first: u8 = if bad.of.removes { 3 } else { 2 };
    let field = bad.fields.get(usize::from(place.saturating_sub(1)));
    let about = fields_behind(bad.of, bad.kind).get(usize::from(place.saturating_sub(first)));
    let (Some(field), Some(Field(name, values))) = (field, about) else {
        return Ok(());
    };
    if takes_no_space(bad) && has_outer_space(field) {
        push_field(text, name, field, NO_SPACES, "")
    } else {
        push_field(text, name, field, values, more_on(bad.wrong.fault, field))
    }
}

/// The place of the mode in the row of a split, counted from 1.
const MODE_PLACE: u8 = 5;

/// Appends what is wrong with a record, as `, offset: "300"; 0 to 255 seconds`, or
/// `: 7 fields, not 6`.
pub(crate) fn push_hint(
    text: &mut String,
    in_file: CsvKind,
    fields: &[&[u8]],
    wrong: Wrong,
) -> Result<(), NoMemory> {
    let kind: &[u8] = match fields.first() {
        Some(first) => *first,
        None => b"",
    };
    let bad = BadRecord {
        in_file,
        of: record_kind_of(fields),
        kind,
        fields,
        wrong,
    };
    match wrong.fault {
        RowFault::Kind => push_kind(text, &bad),
        RowFault::Count => push_count(text, &bad),
        RowFault::Number(place)
        | RowFault::Range(place)
        | RowFault::List(place)
        | RowFault::Day(place)
        | RowFault::Text(place) => push_at(text, &bad, place),
        RowFault::Mode => push_at(text, &bad, MODE_PLACE),
        RowFault::NoMemory => Ok(()),
    }
}
