//! The values that fields spell.
ghost use Rattle.std.specs.Prelude.{◌≡◌, IfOk};
ghost use Rattle.office_files.specs.RecordReading.{day_of, part_of, words_of};
ghost use Rattle.signal_records.specs.Reading.{within};

use cabinet_core::{Day, PartCode, read_day};
use signal_records::{NoMemory, Number, Words};
use std::alloc::Global;

/// This number, if it is from `LOW` to `HIGH`.
pub(crate) fn number_within<Of, const LOW: u32, const HIGH: u32>(
    n: u64,
) -> Option<Number<Of, LOW, HIGH>>
    ensures { result ≡ within LOW HIGH n }
{
    let n = u32::try_from(n).ok()?;
    Number::new(n)
}

/// A text as words of at most `MAX` bytes, if it can be such.
pub(crate) fn read_words<const MAX: usize>(
    alloc: Global,
    text: &[u8],
) -> Result<Option<Words<MAX>>, NoMemory>
    ensures { IfOk result (λ words. words ≡ words_of MAX text.now) }
{
    Words::new(alloc, text)
}

/// The day that a text spells as `YYYY-MM-DD`, if it spells one.
pub(crate) fn day_spelled(text: &[u8]) -> Option<Day>
    ensures { result ≡ day_of text.now }
{
    read_day(text)
}

/// A text as the code of a part, if it is one.
pub(crate) fn read_part(alloc: Global, text: &[u8]) -> Result<Option<PartCode>, NoMemory>
    ensures { IfOk result (λ part. part ≡ part_of text.now) }
{
    PartCode::new(alloc, text)
}
