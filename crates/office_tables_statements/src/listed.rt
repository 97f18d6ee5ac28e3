//! The columns of a shown timing or draft row as what they stand for: intersection, kind, the two
//! numbers of the key, and the body.

ghost use Rattle.std.specs.Prelude.{◌≡◌, ◌≢◌, ◌<◌, ◌≤◌, pos, length, Option, None, Some, IfOk, IfSome, OnOk, Ok};
ghost use Rattle.sqlite.specs.Order.{column};
ghost use Rattle.signal_records.specs.{Key.kind_of, Key.first_of, Key.second_of, KeyOrder.key_at, Within.IsRowWithin, Within.IsKeyWithin, Within.current_limits, declared.key.Key.Key, declared.record.Row.Row};
ghost use Rattle.office_tables_shelf.specs.{Cells.number, Cells.text, Cells.null, Rows.body_in, Rows.timing_key};
ghost use Rattle.office_tables_statements.specs.{Stored.cell_of, Listed.shown_key, Versions.limits_of};

use crate::body_reading::{Version, row_of_body};
use crate::value::{number_at, text_or_null_at};
use office_tables_shelf::shelf::ShelfFault;
use signal_records::{InterId, Key, PatternNo, PhaseNo, RingNo, Row, SeqNo, SplitNo};
use sqlite::Row as SqlRow;
use std::alloc::Global;

/// The row that the column at this place, from 0, spells in this version; none where it is NULL.
/// `Damaged` means that it is not NULL and spells none, `NoMemory` that a growth was refused.
pub fn body_at(
    alloc: Global,
    version: Version,
    row: &SqlRow,
    at: usize,
) -> Result<Option<Row>, ShelfFault>
    ensures row { IfOk result (λ found. IfSome found (λ r.
        (cell_of (column row.now at) ≡ text (body_in (limits_of version) r))
        × IsRowWithin (limits_of version) r)) }
    ensures null { result ≡ Ok None → cell_of (column row.now at) ≡ null }
    ensures damaged { result ≡ Err ShelfFault.Damaged → at < length row.now →
        (r : Row) → IsRowWithin (limits_of version) r →
        cell_of (column row.now at) ≢ text (body_in (limits_of version) r) }
    ensures damaged_null { result ≡ Err ShelfFault.Damaged → at < length row.now →
        cell_of (column row.now at) ≢ null }
{
    let Some(body) = text_or_null_at(row, at)? else {
        return Ok(None);
    };
    let found = row_of_body(alloc, version, body)?.ok_or(ShelfFault::Damaged)?;
    Ok(Some(found))
}

/// Tests that the column at this place, from 0, has this number. `Damaged` means that it has not.
pub fn check_number(row: &SqlRow, at: usize, n: u32) -> Result<(), ShelfFault>
    ensures ok { OnOk result (cell_of (column row.now at) ≡ number (pos n)) }
    ensures damaged { result ≡ Err ShelfFault.Damaged → at < length row.now →
        cell_of (column row.now at) ≢ number (pos n) }
{
    if number_at(row, at)? == n {
        Ok(())
    } else {
        Err(ShelfFault::Damaged)
    }
}

/// Tests that the first four columns are the intersection, the kind, and the two numbers of the
/// key. `Damaged` means that they are not.
pub fn check_key(row: &SqlRow, id: InterId, key: &Key) -> Result<(), ShelfFault>
    ensures ok { OnOk result (shown_key row.now ≡ timing_key id key.now) }
    ensures damaged { result ≡ Err ShelfFault.Damaged → 4 ≤ length row.now →
        shown_key row.now ≢ timing_key id key.now }
{
    check_number(row, 0, id.get())?;
    check_number(row, 1, key.kind())?;
    check_number(row, 2, key.first())?;
    check_number(row, 3, key.second())
}

/// The key whose intersection, kind and two numbers are in the first four columns, of which the
/// first has to be this intersection. `Damaged` means that they are no key of it.
pub fn read_key(row: &SqlRow, id: InterId) -> Result<Key, ShelfFault>
    ensures ok { IfOk result (λ key. shown_key row.now ≡ timing_key id key) }
    ensures within { IfOk result (IsKeyWithin current_limits) }
    ensures damaged { result ≡ Err ShelfFault.Damaged → 4 ≤ length row.now → (key : Key) →
        IsKeyWithin current_limits key → shown_key row.now ≢ timing_key id key }
{
    let kind = number_at(row, 1)?;
    let first = number_at(row, 2)?;
    let second = number_at(row, 3)?;
    let key = key_of_numbers(kind, first, second).ok_or(ShelfFault::Damaged)?;
    check_key(row, id, &key)?;
    Ok(key)
}

/// The key of this kind, 1 to 4, with these numbers, if there is one; a kind with one number passes
/// over the second.
fn key_of_numbers(kind: u32, first: u32, second: u32) -> Option<Key>
    ensures some { IfSome result (λ key. key ≡ key_at kind first second) }
    ensures within { IfSome result (IsKeyWithin current_limits) }
    ensures none { result ≡ None → (key : Key) → IsKeyWithin current_limits key →
        kind_of key ≡ kind → first_of key ≡ first → second_of key ≢ second }
{
    match kind {
        1 => Some(Key::Phase(PhaseNo::new(first)?)),
        2 => Some(Key::Seq(SeqNo::new(first)?, RingNo::new(second)?)),
        3 => Some(Key::Split(SplitNo::new(first)?, PhaseNo::new(second)?)),
        4 => Some(Key::Pattern(PatternNo::new(first)?)),
        _ => None,
    }
}
