//! The body of a request: one JSON object, and the values under its keys.
ghost use Rattle.std.specs.Prelude.{◌≡◌, option_map};
ghost use Rattle.serde_json.specs.View.{view};
ghost use Rattle.office_http_requests.specs.FaultsInOrder.{Gives};
ghost use Rattle.office_http_requests.specs.Bodies.{number_in, text_in, ranged_in, words_in, day_in, part_in, body_of, data_of};

use crate::fault::AskFault;
use crate::field::Field;
use crate::value::{day_spelled, number_within, read_part, read_words};
use cabinet_core::{Day, PartCode};
use serde_json::Value;
use signal_records::{Number, Words};
use std::alloc::Global;
use std::str;

/// The body of a request as a JSON object; `Json` if it is none.
// Reading needs a large local; a request without a body must not pay for it.
#[inline(never)]
pub(crate) fn read_object(alloc: Global, bytes: &[u8]) -> Result<Value, AskFault>
    ensures { Gives (data_of result) (body_of bytes.now) }
{
    let Ok(text) = str::from_utf8(bytes) else {
        return Err(AskFault::Json);
    };
    match Value::from_str(alloc, text) {
        Ok(value) if value.is_object() => Ok(value),
        Ok(_) => Err(AskFault::Json),
        Err(fault) if fault.is_memory() => Err(AskFault::NoMemory),
        Err(_) => Err(AskFault::Json),
    }
}

// The number under a key: digits alone, below 2 ^ 64.
fn whole(body: &Value, field: Field) -> Option<u64>
    ensures { result ≡ number_in (view body.now) field }
{
    body.get(field.name()).and_then(Value::as_u64)
}

/// The text under a key, if one is there. It takes no memory.
pub(crate) fn text(body: &Value, field: Field) -> Option<&str>
    ensures { option_map (λ text. text.now) result ≡ text_in (view body.now) field }
{
    body.get(field.name()).and_then(Value::as_str)
}

/// The number under a key, if it is from `LOW` to `HIGH`, or the field's fault.
#[tactic(auto, unfolding(crate::specs::Bodies::ranged_in))]
pub(crate) fn number<Of, const LOW: u32, const HIGH: u32>(
    body: &Value,
    field: Field,
) -> Result<Number<Of, LOW, HIGH>, AskFault>
    ensures { result ≡ ranged_in LOW HIGH (view body.now) field }
{
    let n = whole(body, field).ok_or(AskFault::Field(field))?;
    number_within(n).ok_or(AskFault::Field(field))
}

/// The words of at most `MAX` bytes under a key, or the field's fault.
#[tactic(auto, unfolding(crate::specs::Bodies::words_in))]
pub(crate) fn words<const MAX: usize>(
    alloc: Global,
    body: &Value,
    field: Field,
) -> Result<Words<MAX>, AskFault>
    ensures { Gives result (words_in MAX (view body.now) field) }
{
    let text = text(body, field).ok_or(AskFault::Field(field))?;
    read_words(alloc, text.as_bytes())?.ok_or(AskFault::Field(field))
}

/// The day that the text under the key `day` spells, as `YYYY-MM-DD`, or that field's fault.
#[tactic(auto, unfolding(crate::specs::Bodies::day_in))]
pub(crate) fn day(body: &Value) -> Result<Day, AskFault>
    ensures { result ≡ day_in (view body.now) }
{
    let text = text(body, Field::Day).ok_or(AskFault::Field(Field::Day))?;
    day_spelled(text.as_bytes()).ok_or(AskFault::Field(Field::Day))
}

/// The code of a part under the key `part`, or that field's fault.
#[tactic(auto, unfolding(crate::specs::Bodies::part_in))]
pub(crate) fn part(alloc: Global, body: &Value) -> Result<PartCode, AskFault>
    ensures { Gives result (part_in (view body.now)) }
{
    let text = text(body, Field::Part).ok_or(AskFault::Field(Field::Part))?;
    read_part(alloc, text.as_bytes())?.ok_or(AskFault::Field(Field::Part))
}
