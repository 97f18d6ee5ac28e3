//! The values of a stored row, as what they stand for. A column is named by its place, from 0.

ghost use Rattle.std.specs.Prelude.{◌≡◌, ◌≢◌, ◌≤◌, ◌<◌, ◌^◌, ℕ, pos, length, List, Option, option_map, IfOk, IfSome, OnOk};
ghost use Rattle.sqlite.specs.Order.{column};
ghost use Rattle.std.specs.Int.{IsInRange};
ghost use Rattle.signal_values.specs.Words.{AreWords};
ghost use Rattle.cabinet_core.specs.{Day.IsDay, Part.IsPartCode};
ghost use Rattle.office_tables_shelf.specs.Cells.{null, number, text};
ghost use Rattle.office_tables_statements.specs.Stored.{ReadsColumn, cell_of, text_or_null};
ghost use Rattle.signal_records.specs.declared.revision.TheConstants.{LAST_REVISION};

use cabinet_core::{Day, PartCode};
use office_tables_shelf::shelf::ShelfFault;
use signal_records::revision::Revision;
use signal_records::{Number, Words};
use sqlite::types::{FromSql, ValueRef};
use sqlite::{Error, ErrorCode, Row};
use std::alloc::Global;

/// The value of a column, as a `T`. `Damaged` means that it is no `T`, or that there is no such
/// column, `NoMemory` that a growth was refused.
fn value_at<T: FromSql>(row: &Row, at: usize) -> Result<T, ShelfFault>
    ensures ok { IfOk result (λ x. T.FromSql.reads_as (column row.now at) x) }
    ensures damaged { result ≡ Err ShelfFault.Damaged → at < length row.now →
        ¬ T.FromSql.is_readable (column row.now at) }
{
    match row.get(at) {
        Ok(value) => Ok(value),
        Err(Error::SqliteFailure(ErrorCode::OutOfMemory)) => Err(ShelfFault::NoMemory),
        Err(_) => Err(ShelfFault::Damaged),
    }
}

/// The number in a column, 0 to 2^32 - 1. `Damaged` means that it has none.
pub fn number_at(row: &Row, at: usize) -> Result<u32, ShelfFault>
    ensures { ReadsColumn (λ n. number (pos n)) (λ n. n < 2 ^ 32) row.now at result }
{
    value_at(row, at)
}

/// The number in a column, from `LOW` to `HIGH`. `Damaged` means that it has none.
pub fn ranged_at<Of, const LOW: u32, const HIGH: u32>(
    row: &Row,
    at: usize,
) -> Result<Number<Of, LOW, HIGH>, ShelfFault>
    ensures { ReadsColumn (λ n. number (pos n)) (IsInRange LOW HIGH) row.now at result }
{
    Number::new(number_at(row, at)?).ok_or(ShelfFault::Damaged)
}

/// The revision in a column, 0 to `LAST_REVISION`. `Damaged` means that it has none.
pub fn revision_at(row: &Row, at: usize) -> Result<Revision, ShelfFault>
    ensures { ReadsColumn (λ n. number (pos n)) (λ n. n ≤ LAST_REVISION) row.now at result }
{
    Revision::new(number_at(row, at)?).ok_or(ShelfFault::Damaged)
}

/// The bytes of the text in a column. `Damaged` means that it has no text.
pub fn text_at(row: &Row, at: usize) -> Result<&[u8], ShelfFault>
    ensures ok { IfOk result (λ found. cell_of (column row.now at) ≡ text found.now) }
    ensures damaged { result ≡ Err ShelfFault.Damaged → at < length row.now →
        (t : List ℕ) → cell_of (column row.now at) ≢ text t }
{
    match row.get_ref(at) {
        Ok(ValueRef::Text(found)) => Ok(found),
        _ => Err(ShelfFault::Damaged),
    }
}

/// The bytes of the text in a column; none where it is NULL. `Damaged` means that it has neither.
pub fn text_or_null_at(row: &Row, at: usize) -> Result<Option<&[u8]>, ShelfFault>
    ensures ok { IfOk result (λ found. cell_of (column row.now at)
        ≡ text_or_null (option_map (λ t. t.now) found)) }
    ensures damaged { result ≡ Err ShelfFault.Damaged → at < length row.now →
        (t : Option (List ℕ)) → cell_of (column row.now at) ≢ text_or_null t }
{
    match row.get_ref(at) {
        Ok(ValueRef::Null) => Ok(None),
        Ok(ValueRef::Text(found)) => Ok(Some(found)),
        _ => Err(ShelfFault::Damaged),
    }
}

/// The words in a column, 1 to `MAX` bytes. `Damaged` means that it has none, `NoMemory` that a
/// growth was refused.
pub fn words_at<const MAX: usize>(
    alloc: Global,
    row: &Row,
    at: usize,
) -> Result<Words<MAX>, ShelfFault>
    ensures { ReadsColumn text (AreWords MAX) row.now at result }
{
    Words::new(alloc, text_at(row, at)?)?.ok_or(ShelfFault::Damaged)
}

/// The words in a column; none where it is NULL. `Damaged` means that it has neither, `NoMemory`
/// that a growth was refused.
pub fn words_or_null_at<const MAX: usize>(
    alloc: Global,
    row: &Row,
    at: usize,
) -> Result<Option<Words<MAX>>, ShelfFault>
    ensures { ReadsColumn text_or_null (λ words. IfSome words (AreWords MAX)) row.now at result }
{
    let Some(found) = text_or_null_at(row, at)? else {
        return Ok(None);
    };
    let words = Words::new(alloc, found)?.ok_or(ShelfFault::Damaged)?;
    Ok(Some(words))
}

/// The day in a column, by its number, 0 to 84,005. `Damaged` means that it has none.
pub fn day_at(row: &Row, at: usize) -> Result<Day, ShelfFault>
    ensures { ReadsColumn (λ day. number (pos day)) IsDay row.now at result }
{
    Day::new(number_at(row, at)?).ok_or(ShelfFault::Damaged)
}

/// The code of a part in a column. `Damaged` means that it has none, `NoMemory` that a growth was
/// refused.
pub fn code_at(alloc: Global, row: &Row, at: usize) -> Result<PartCode, ShelfFault>
    ensures { ReadsColumn text IsPartCode row.now at result }
{
    PartCode::new(alloc, text_at(row, at)?)?.ok_or(ShelfFault::Damaged)
}

/// Tests that the column is NULL. `Damaged` means that it is not.
pub fn check_null(row: &Row, at: usize) -> Result<(), ShelfFault>
    ensures ok { OnOk result (cell_of (column row.now at) ≡ null) }
    ensures damaged { result ≡ Err ShelfFault.Damaged → at < length row.now →
        cell_of (column row.now at) ≢ null }
{
    match value_at::<Option<u32>>(row, at)? {
        Some(_) => Err(ShelfFault::Damaged),
        None => Ok(()),
    }
}
