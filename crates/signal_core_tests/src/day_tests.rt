//! Days, held against a calendar.

use cabinet_core::{Day, read_day, write_day};
use std::alloc::Global;
use std::test::Fail;

/// Days and their numbers, which are known from elsewhere.
const DAYS: [(&str, u32); 4] = [
    ("1970-01-01", 0),
    ("2000-02-29", 11_016),
    ("2026-05-01", 20_574),
    ("2199-12-31", 84_005),
];

/// Texts that are no days.
const NO_DAYS: [&str; 5] = [
    "2026-02-29",
    "1969-12-31",
    "2200-01-01",
    "2026-5-01",
    "2026-05-0a",
];

/// Whether a text is read as the day of a number, and that is written as the text.
fn is_day(alloc: Global, text: &str, number: u32) -> Result<bool, Fail> {
    let Some(day) = read_day(text.as_bytes()) else {
        return Ok(false);
    };
    let is_written = write_day(alloc, day)?.as_str() == text;
    Ok(is_written && Day::new(number) == Some(day) && day.number() == number)
}

/// The days that are not read and written as the calendar has them.
fn wrong_days(alloc: Global) -> Result<String, Fail> {
    let mut wrong = String::new(alloc);
    for (text, number) in DAYS {
        if !is_day(alloc, text, number)? {
            wrong.push_str(text)?;
        }
    }
    Ok(wrong)
}

/// The texts that are read as a day and are none.
fn read_as_days(alloc: Global) -> Result<String, Fail> {
    let mut read = String::new(alloc);
    for text in NO_DAYS {
        if read_day(text.as_bytes()).is_some() {
            read.push_str(text)?;
        }
    }
    Ok(read)
}

/// `write_day` and `read_day` agree with the calendar.
#[test]
fn days_are_read_and_written(rt: HostRuntime) -> Result<(), Fail> {
    let wrong = wrong_days(rt.alloc())?;
    let read = read_as_days(rt.alloc())?;
    assert_eq!(rt; (wrong.as_str(), read.as_str()), ("", ""));
    assert!(rt; Day::new(84_006).is_none());
    Ok(())
}
