//! How many fields a record has by its kind, and which fields of a padded record are its own.

ghost use Rattle.std.specs.Prelude.{◌≡◌, drop, take};
ghost use Rattle.signal_records.specs.Reading.{texts};
ghost use Rattle.signal_office_faults.specs.Padded.{are_blank, phase_width, record_width, unpadded, width_of};

use crate::kinds::{RowKind, record_kind_of};

/// The first `width` fields, or all if there are fewer.
fn front<'f, 'a>(fields: &'f [&'a [u8]], width: usize) -> &'f [&'a [u8]]
    ensures { texts result.now ≡ take width (texts fields.now) }
{
    if width < fields.len() {
        &fields[..width]
    } else {
        fields
    }
}

/// Whether all fields are empty.
pub(crate) fn are_blank(fields: &[&[u8]]) -> bool
    ensures { result ≡ are_blank (texts fields.now) }
{
    match fields {
        [] => true,
        [field, rest @ ..] => field.is_empty() && are_blank(rest),
    }
}

/// Whether the fields after a width are all empty.
fn are_blank_after(fields: &[&[u8]], width: usize) -> bool
    ensures { result ≡ are_blank (drop width (texts fields.now)) }
{
    if width < fields.len() {
        are_blank(&fields[width..])
    } else {
        true
    }
}

/// How many fields the record of a phase has: 15 if any field after the ninth, of its pedestrian
/// part, is not empty; else 9.
fn phase_width(fields: &[&[u8]]) -> usize
    ensures { result ≡ phase_width (texts fields.now) }
{
    if are_blank_after(fields, 9) { 9 } else { 15 }
}

/// How many fields a record of the register has, by its first field, its kind; `None` for other
/// records.
fn record_width(fields: &[&[u8]]) -> Option<usize>
    ensures { result ≡ record_width (texts fields.now) }
{
    let [kind, ..] = fields else {
        return None;
    };
    if *kind == b"inspection".as_slice() {
        Some(6)
    } else if *kind == b"order".as_slice() {
        Some(6)
    } else if *kind == b"use".as_slice() {
        Some(6)
    } else if *kind == b"close".as_slice() {
        Some(5)
    } else if *kind == b"delivery".as_slice() {
        Some(5)
    } else {
        None
    }
}

/// How many fields a record of a plan or of the register has, by its kind; `None` for an unknown
/// kind.
fn width_of(fields: &[&[u8]]) -> Option<usize>
    ensures { result ≡ width_of (texts fields.now) }
{
    let of = record_kind_of(fields);
    match (of.removes, of.kind) {
        (false, RowKind::Phase) => Some(phase_width(fields)),
        (false, RowKind::Split | RowKind::Pattern) => Some(6),
        (false, RowKind::Seq) | (true, RowKind::Seq | RowKind::Split) => Some(4),
        (true, RowKind::Phase | RowKind::Pattern) => Some(3),
        (true, RowKind::Other) => None,
        (false, RowKind::Other) => record_width(fields),
    }
}

/// The fields that the kind of a record has, if all after them are empty; else all of its fields.
pub(crate) fn unpadded<'f, 'a>(fields: &'f [&'a [u8]]) -> &'f [&'a [u8]]
    ensures { texts result.now ≡ unpadded (texts fields.now) }
{
    match width_of(fields) {
        Some(width) if are_blank_after(fields, width) => front(fields, width),
        _ => fields,
    }
}
