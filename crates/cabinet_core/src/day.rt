//! Days, which are counted from 1 January 1970.

ghost use Rattle.std.specs.Prelude.{◌≡◌, ℕ, ◌+◌, ◌*◌, ◌/◌, ◌%◌, ◌<◌, pos, ◌++◌, IfSome, IfNone, IfOk, OnOk, Some, string_bytes};
ghost use Rattle.std.specs.Option.{SomeIff};
ghost use Rattle.jiff.specs.Words.{epoch_day};
ghost use Rattle.jiff_core.specs.Calendar.{IsCivilDate};
ghost use Rattle.cabinet_core.specs.Day.{day_text, IsDay, SpellsDay};

use jiff::civil::Date as CivilDate;
use jiff_core::civil;
use signal_values::NoMemory;
use std::alloc::{AllocError, Global};
use std::fmt::Write;
use std::marker::Model;

/// A day from 1970-01-01 to 2199-12-31. It is seen as its number, 0 to 84,005.
#[derive(Clone, Copy, PartialEq, Eq, PartialOrd, Ord)]
pub struct Day {
    number: u32,
}

impl Model for Day {
    ghost use Rattle.std.specs.Prelude.{ℕ};
    ghost use Rattle.cabinet_core.specs.Day.{IsDay};

    ghost Value = { ℕ };

    ghost view = { λ d. d.number };

    ghost invariant = { λ d. IsDay d.number };

    ghost inverse = { λ n. record { number = n } };
}

impl Day {
    /// The day so many days after 1970-01-01, if it is at most 2199-12-31.
    pub fn new(n: u32) -> Option<Day>
        ensures { SomeIff result (IsDay n) n }
    {
        if n > 84_005 {
            return None;
        }
        Some(Day { number: n })
    }

    /// The days since 1970-01-01, 0 to 84,005.
    pub fn number(self) -> u32
        ensures value { result ≡ self }
        ensures bound { IsDay self }
    {
        self.number
    }

    /// The day as a `Date`, a type that also has days past 2199-12-31.
    pub fn date(self) -> Date
        ensures value { result ≡ self }
        ensures bound { IsDay self }
    {
        Date {
            number: self.number,
        }
    }

    /// The day of a date of the calendar, if it is from 1970 to 2199.
    fn from_date(date: CivilDate) -> Option<Day>
        ensures value { IfSome result (λ d. IsDay d × (epoch_day date ≡ pos d)) }
        ensures outside { IfNone result ((n : ℕ) → IsDay n → ¬ (epoch_day date ≡ pos n)) }
    {
        let number = u32::try_from(date.to_plain().to_unix_epoch_day()).ok()?;
        Day::new(number)
    }
}

/// A date from 1970-01-01 to 2209-12-29: a day, or when something falls due after one. It is seen
/// as the number of days since 1970-01-01, 0 to 87,655.
#[derive(Clone, Copy, PartialEq, Eq, PartialOrd, Ord)]
pub struct Date {
    pub(crate) number: u32,
}

impl Model for Date {
    ghost use Rattle.std.specs.Prelude.{ℕ};
    ghost use Rattle.cabinet_core.specs.Day.{IsDue};

    ghost Value = { ℕ };

    ghost view = { λ d. d.number };

    ghost invariant = { λ d. IsDue d.number };

    ghost inverse = { λ n. record { number = n } };
}

impl Date {
    /// The date as a year, a month and a day.
    fn civil(self) -> CivilDate
        ensures { epoch_day result ≡ pos self }
    {
        CivilDate::from_plain(civil::Date::from_days_since_min(4_371_587 + self.number))
    }
}

/// The number that two bytes spell, if they are digits: 0 to 99.
fn two_digits(tens: u8, ones: u8) -> Option<u8>
    ensures value { IfSome result (λ n. (n < 100) × (tens ≡ 48 + n / 10) × (ones ≡ 48 + n % 10)) }
    ensures none { IfNone result ((n : ℕ) → n < 100 → tens ≡ 48 + n / 10 → ¬ (ones ≡ 48 + n % 10)) }
{
    if !tens.is_ascii_digit() || !ones.is_ascii_digit() {
        return None;
    }
    Some((tens - b'0') * 10 + (ones - b'0'))
}

/// The date with these numbers, if the calendar has one. `century` is the number of the year's
/// first two digits, and `year` of its last two.
fn date_of(century: u8, year: u8, month: u8, day: u8) -> Option<CivilDate>
    requires century_in { century < 100 }
    requires year_in { year < 100 }
    requires month_in { month < 100 }
    requires day_in { day < 100 }
    ensures value { IfSome result
        (λ d. (d.year ≡ pos (century * 100 + year)) × (d.month ≡ month) × (d.day ≡ day)) }
    ensures none { IfNone result (¬ (IsCivilDate (pos (century * 100 + year)) month day)) }
{
    let year = u16::from(century) * 100 + u16::from(year);
    CivilDate::new(year as i16, month as i8, day as i8).ok()
}

/// The day that the bytes spell as `YYYY-MM-DD`, if they spell one from 1970-01-01 to 2199-12-31.
pub fn read_day(bytes: &[u8]) -> Option<Day>
    ensures spelt { IfSome result (SpellsDay bytes.now) }
    ensures accepted { (n : ℕ) → SpellsDay bytes.now n → result ≡ Some n }
{
    if bytes.len() != 10 || bytes[4] != b'-' || bytes[7] != b'-' {
        return None;
    }
    let century = two_digits(bytes[0], bytes[1])?;
    let year = two_digits(bytes[2], bytes[3])?;
    let month = two_digits(bytes[5], bytes[6])?;
    let day = two_digits(bytes[8], bytes[9])?;
    Day::from_date(date_of(century, year, month, day)?)
}

/// Appends a date as `YYYY-MM-DD`.
pub fn push_date(text: &mut String, date: Date) -> Result<(), AllocError>
    ensures { OnOk result (string_bytes text.new ≡ string_bytes text.old ++ day_text date) }
{
    let civil = date.civil();
    write!(text, "{civil}")
}

/// The spelling `YYYY-MM-DD` of a date.
pub fn write_date(alloc: Global, date: Date) -> Result<String, NoMemory>
    ensures { IfOk result (λ text. string_bytes text ≡ day_text date) }
{
    let civil = date.civil();
    let text = format!(in alloc; "{civil}")?;
    Ok(text)
}

/// The spelling `YYYY-MM-DD` of a day.
pub fn write_day(alloc: Global, day: Day) -> Result<String, NoMemory>
    ensures { IfOk result (λ text. string_bytes text ≡ day_text day) }
{
    write_date(alloc, day.date())
}
