//! The rows of a body: an array of arrays of texts, each of which spells a change.
ghost use Rattle.std.specs.Prelude.{◌≡◌, IfOk, option_map, option_and_then};
ghost use Rattle.serde_json.specs.Find.{get, as_array};
ghost use Rattle.serde_json.specs.View.{view, items_view};
ghost use Rattle.office_http_requests.specs.FaultsInOrder.{Gives};
ghost use Rattle.office_http_requests.specs.Fields.{field_name};
ghost use Rattle.office_http_requests.specs.Rows.{texts_in, rows_in, changes_spelled, changes_in, rows_seen, ShowsTexts, ShowsRows};

use crate::fault::AskFault;
use crate::field::Field;
use draft_core::changes::Changes;
use office_files::told_of_record;
use serde_json::Value;
use signal_records::read_change;
use std::alloc::{AllocError, Global};

// The texts of an array, if all its values are texts.
fn texts<'a>(alloc: Global, row: &'a Value) -> Result<Option<Vec<&'a [u8]>>, AllocError>
    ensures { IfOk result (λ found. ShowsTexts found (texts_in (view row.now))) }
{
    let Some(list) = row.as_array() else {
        return Ok(None);
    };
    let mut texts = Vec::with_capacity(alloc, list.len())?;
    for value in list.as_slice() {
        let Some(text) = value.as_str() else {
            return Ok(None);
        };
        texts.push(text.as_bytes())?;
    }
    Ok(Some(texts))
}

// The array under a key.
fn array(body: &Value, field: Field) -> Option<&Vec<Value>>
    ensures { option_map (λ list. items_view list.now.items) result
        ≡ option_and_then as_array (get (field_name field) (view body.now)) }
{
    body.get(field.name()).and_then(Value::as_array)
}

// The rows under the key `rows`, if they are an array of arrays of texts.
fn rows<'a>(alloc: Global, body: &'a Value) -> Result<Option<Vec<Vec<&'a [u8]>>>, AllocError>
    ensures { IfOk result (λ found. ShowsRows found (rows_in (view body.now))) }
{
    let Some(list) = array(body, Field::Rows) else {
        return Ok(None);
    };
    let mut rows = Vec::with_capacity(alloc, list.len())?;
    for row in list.as_slice() {
        let Some(texts) = texts(alloc, row)? else {
            return Ok(None);
        };
        rows.push(texts)?;
    }
    Ok(Some(rows))
}

// The changes that rows spell, or the first bad row, counted from 1.
fn changes(alloc: Global, rows: &[Vec<&[u8]>]) -> Result<Changes, AskFault>
    ensures { Gives result (changes_spelled (rows_seen rows.now)) }
{
    let mut changes = Vec::with_capacity(alloc, rows.len())?;
    for (index, fields) in rows.iter().enumerate() {
        let change = told_of_record(index + 1, read_change(alloc, fields))?;
        changes.push(change)?;
    }
    Ok(Changes::new(changes))
}

/// The changes that the rows under the key `rows` spell, or the fault: of that field, if they are
/// no array of arrays of texts; or of the first bad row.
#[tactic(auto, unfolding(crate::specs::Rows::changes_in))]
pub(crate) fn of_body(alloc: Global, body: &Value) -> Result<Changes, AskFault>
    ensures { Gives result (changes_in (view body.now)) }
{
    let Some(rows) = rows(alloc, body)? else {
        return Err(AskFault::Field(Field::Rows));
    };
    changes(alloc, &rows)
}
