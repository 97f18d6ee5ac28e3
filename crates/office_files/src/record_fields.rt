//! One field of a record: a day, a short text or the code of a part. Fields are counted from 1.

ghost use Rattle.std.specs.Prelude.{◌≡◌, ◌≤◌, ◌-◌, length, IfOk};
ghost use Rattle.signal_records.specs.Reading.{Gives, texts};
ghost use Rattle.office_files.specs.RecordReading.{day_of, day_at, words_of, words_at, part_of, part_at};

use cabinet_core::{Day, PartCode, read_day};
use signal_records::{NoMemory, RowFault, Words};
use std::alloc::Global;

fn day_in(text: &[u8]) -> Option<Day>
    ensures { result ≡ day_of text.now }
{
    read_day(text)
}

/// The day, `YYYY-MM-DD`, that the field at a place spells, or the fault `Day` of that place.
#[tactic(auto, unfolding(crate::specs::RecordReading::day_at))]
pub(crate) fn day(fields: &[&[u8]], place: u8) -> Result<Day, RowFault>
    requires some { 1 ≤ place }
    requires within { place ≤ length fields.now }
    ensures { Gives result (day_at place (texts fields.now)) }
{
    day_in(fields[place as usize - 1]).ok_or(RowFault::Day(place))
}

fn words_in<const MAX: usize>(alloc: Global, text: &[u8]) -> Result<Option<Words<MAX>>, NoMemory>
    ensures { IfOk result (λ words. words ≡ words_of MAX text.now) }
{
    Words::new(alloc, text)
}

/// The words of at most `MAX` bytes in the field at a place, or the fault `Text` of that place.
#[tactic(auto, unfolding(crate::specs::RecordReading::words_at))]
pub(crate) fn words<const MAX: usize>(
    alloc: Global,
    fields: &[&[u8]],
    place: u8,
) -> Result<Words<MAX>, RowFault>
    requires some { 1 ≤ place }
    requires within { place ≤ length fields.now }
    ensures { Gives result (words_at MAX place (texts fields.now)) }
{
    let words = words_in(alloc, fields[place as usize - 1])?;
    words.ok_or(RowFault::Text(place))
}

fn part_in(alloc: Global, text: &[u8]) -> Result<Option<PartCode>, NoMemory>
    ensures { IfOk result (λ part. part ≡ part_of text.now) }
{
    PartCode::new(alloc, text)
}

/// The code of a part in the field at a place, or the fault `Text` of that place.
#[tactic(auto, unfolding(crate::specs::RecordReading::part_at))]
pub(crate) fn part(alloc: Global, fields: &[&[u8]], place: u8) -> Result<PartCode, RowFault>
    requires some { 1 ≤ place }
    requires within { place ≤ length fields.now }
    ensures { Gives result (part_at place (texts fields.now)) }
{
    let part = part_in(alloc, fields[place as usize - 1])?;
    part.ok_or(RowFault::Text(place))
}
