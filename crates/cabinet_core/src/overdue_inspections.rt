//! When an inspection falls due, and inspections that are overdue.

ghost use Rattle.std.specs.Prelude.{◌≡◌, ◌+◌, map, option_map, IfOk};
ghost use Rattle.cabinet_core.specs.Overdue.{greater, latest_day, overdue_list, listed_of, lateness};

use crate::day::{Date, Day};
use crate::record::Inspection;
use signal_values::{InterId, Interval, NoMemory, Words};
use std::alloc::Global;

/// What is known of an intersection's inspections.
#[derive(Drop)]
pub struct Seen {
    pub id: InterId,
    pub name: Words<120>,
    /// Days from one inspection to the next.
    pub interval: Interval,
    /// The day of the latest inspection, if there was one.
    pub last: Option<Day>,
}

/// An intersection whose inspection is overdue.
#[derive(Drop)]
pub struct OverdueRow {
    pub id: InterId,
    pub name: Words<120>,
    /// The day on which the inspection fell due; none if there never was an inspection.
    pub due: Option<Date>,
}

/// The later of a day and another one, if there is another.
pub fn later(day: Day, last: Option<Day>) -> Day
    ensures { result ≡ greater day last }
{
    match last {
        None => day,
        Some(last) => day.max(last),
    }
}

/// The latest day of some inspections; none if there are no inspections.
pub fn latest(inspections: &[Inspection]) -> Option<Day>
    ensures { result ≡ latest_day inspections.now }
{
    let mut latest = None;
    for inspection in inspections {
        latest = Some(later(inspection.day, latest));
    }
    latest
}

/// The day on which the next inspection falls due: the interval after the last one. It may be past
/// 2199-12-31.
pub fn due(last: Day, interval: Interval) -> Date
    ensures { result ≡ last + interval }
{
    Date {
        number: last.number() + interval.get(),
    }
}

/// The row of an intersection that is overdue on the day: it was never inspected, or its inspection
/// fell due before the day. There is none if it is not overdue.
pub fn overdue_row(day: Day, seen: &Seen) -> Result<Option<OverdueRow>, NoMemory>
    ensures { IfOk result (λ row. lateness day seen.now ≡ option_map listed_of row) }
{
    let due = match seen.last {
        None => None,
        Some(last) => {
            let due = due(last, seen.interval);
            if due >= day.date() {
                return Ok(None);
            }
            Some(due)
        }
    };
    Ok(Some(OverdueRow {
        id: seen.id,
        name: seen.name.clone()?,
        due,
    }))
}

/// The intersections that are overdue on the day: those that were never inspected, and those whose
/// inspection fell due before the day. They come in the order of the rows.
pub fn overdue(alloc: Global, day: Day, rows: &[Seen]) -> Result<Vec<OverdueRow>, NoMemory>
    ensures { IfOk result (λ found. map listed_of found.items ≡ overdue_list day rows.now) }
{
    let mut found = Vec::new(alloc);
    for seen in rows {
        if let Some(row) = overdue_row(day, seen)? {
            found.push(row)?;
        }
    }
    Ok(found)
}
