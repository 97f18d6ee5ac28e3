//! One field of a row: a number, a flag, a mode or a list of phases. No field takes memory here.

ghost use Rattle.std.specs.Prelude.{◌≡◌, ◌<◌, ◌≤◌, ◌-◌, ◌^◌, length, true, false};
ghost use Rattle.signal_values.specs.declared.number.TheConstants.{PHASES};
ghost use Rattle.signal_records.specs.Reading.{texts, number_at, flag_at, mode_at, list_at};

use crate::fault::RowFault;
use crate::list_reading::SpelledPhases;
use crate::record::SplitMode;
use signal_values::{Number, numeral};

/// The number from `LOW` to `HIGH` that the field at a place, counted from 1, spells in decimal
/// digits without a leading zero. The fault is Number where the field spells none, and Range where
/// the number, which may have any length, is out of the range.
pub fn number<Of, const LOW: u32, const HIGH: u32>(
    fields: &[&[u8]],
    place: u8,
) -> Result<Number<Of, LOW, HIGH>, RowFault>
    requires small { HIGH < 2 ^ 32 - 1 }
    requires some { 1 ≤ place }
    requires within { place ≤ length fields.now }
    ensures { result ≡ number_at LOW HIGH place (texts fields.now) }
{
    number_up_to(HIGH, fields, place)
}

/// The number from `LOW` to `last` that the field at a place, counted from 1, spells; Number where
/// the field spells none, and Range where it is out of the range.
#[tactic(auto, unfolding(crate::specs::Reading::number_at))]
pub(crate) fn number_up_to<Of, const LOW: u32, const HIGH: u32>(
    last: u32,
    fields: &[&[u8]],
    place: u8,
) -> Result<Number<Of, LOW, HIGH>, RowFault>
    requires small { HIGH < 2 ^ 32 - 1 }
    requires room { last ≤ HIGH }
    requires some { 1 ≤ place }
    requires within { place ≤ length fields.now }
    ensures { result ≡ number_at LOW last place (texts fields.now) }
{
    let n = numeral(fields[place as usize - 1]).ok_or(RowFault::Number(place))?;
    if last < n {
        return Err(RowFault::Range(place));
    }
    Number::new(n).ok_or(RowFault::Range(place))
}

/// The number from 0 to 255 that the field at a place, counted from 1, spells; Number where the
/// field spells none, and Range where it is greater.
#[tactic(auto, unfolding(crate::specs::Reading::number_at))]
pub(crate) fn byte(fields: &[&[u8]], place: u8) -> Result<u8, RowFault>
    requires some { 1 ≤ place }
    requires within { place ≤ length fields.now }
    ensures { result ≡ number_at 0 255 place (texts fields.now) }
{
    let n = numeral(fields[place as usize - 1]).ok_or(RowFault::Number(place))?;
    u8::try_from(n).map_err(|_| RowFault::Range(place))
}

/// The flag, 0 or 1, that the field at a place, counted from 1, spells; Number where the field
/// spells no number, and Range where it spells another one.
#[tactic(auto, unfolding(crate::specs::Reading::flag_at))]
pub(crate) fn flag(fields: &[&[u8]], place: u8) -> Result<bool, RowFault>
    requires some { 1 ≤ place }
    requires within { place ≤ length fields.now }
    ensures { result ≡ flag_at place (texts fields.now) }
{
    match numeral(fields[place as usize - 1]) {
        None => Err(RowFault::Number(place)),
        Some(0) => Ok(false),
        Some(1) => Ok(true),
        Some(_) => Err(RowFault::Range(place)),
    }
}

/// The split mode whose code, 2 to 7, the field at a place, counted from 1, spells; Number where
/// the field spells no number, and Mode where it spells another one.
#[tactic(auto, unfolding(crate::specs::Reading::mode_at))]
pub(crate) fn mode(fields: &[&[u8]], place: u8) -> Result<SplitMode, RowFault>
    requires some { 1 ≤ place }
    requires within { place ≤ length fields.now }
    ensures { result ≡ mode_at place (texts fields.now) }
{
    match numeral(fields[place as usize - 1]) {
        None => Err(RowFault::Number(place)),
        Some(2) => Ok(SplitMode::NoRecall),
        Some(3) => Ok(SplitMode::MinimumVehicleRecall),
        Some(4) => Ok(SplitMode::MaximumVehicleRecall),
        Some(5) => Ok(SplitMode::PedestrianRecall),
        Some(6) => Ok(SplitMode::MaximumVehicleAndPedestrianRecall),
        Some(7) => Ok(SplitMode::PhaseOmitted),
        Some(_) => Err(RowFault::Mode),
    }
}

/// The distinct phases, from 1 to the last one, that the field at a place, counted from 1, spells;
/// List where it spells anything else. It takes no memory.
#[tactic(auto, unfolding(crate::specs::Reading::list_at))]
pub(crate) fn phases<'a>(
    last: u32,
    fields: &[&'a [u8]],
    place: u8,
) -> Result<SpelledPhases<'a>, RowFault>
    requires room { last ≤ PHASES }
    requires some { 1 ≤ place }
    requires within { place ≤ length fields.now }
    ensures { result ≡ list_at last place (texts fields.now) }
{
    SpelledPhases::new(last, fields[place as usize - 1]).ok_or(RowFault::List(place))
}
