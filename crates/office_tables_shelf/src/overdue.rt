//! Rows of intersections that are overdue for an inspection, and the days of their inspections.

ghost use Rattle.std.specs.Prelude.{◌≡◌, ◌==◌, ◌++◌, ℕ, Some, if◌then◌else◌, [], ◌∷◌, map, take, IfOk, OnOk};
ghost use Rattle.cabinet_core.specs.Overdue.{greater, listed_of, overdue_list};
ghost use Rattle.office_tables_shelf.specs.Overdue.{last_day_in, seen_on, seen_row};

use crate::rows::IntersectionRow;
use cabinet_core::{Day, OverdueRow, Seen, later, overdue_row};
use signal_records::{InterId, NoMemory};
use std::alloc::Global;
use std::collections::BTreeMap;

/// Adds the row of an intersection that was last inspected on this day, if it is overdue on a day.
fn add_overdue(
    found: &mut Vec<OverdueRow>,
    day: Day,
    id: InterId,
    row: &IntersectionRow,
    last: Option<Day>,
) -> Result<(), NoMemory>
    ensures { OnOk result (map listed_of found.new.items ≡
        map listed_of found.old.items ++ overdue_list day (seen_row id row.now last ∷ [])) }
{
    let seen = Seen {
        id,
        name: row.name.clone()?,
        interval: row.interval,
        last,
    };
    if let Some(late) = overdue_row(day, &seen)? {
        found.push(late)?;
    }
    Ok(())
}

/// The first `most` of these intersections that are overdue for an inspection on a day, each last
/// inspected on the day that the map has for it, or never.
pub fn overdue_among(
    alloc: Global,
    rows: &[(InterId, IntersectionRow)],
    days: &BTreeMap<InterId, Day>,
    day: Day,
    most: usize,
) -> Result<Vec<OverdueRow>, NoMemory>
    ensures { IfOk result (λ found. map listed_of found.items ≡
        take most (overdue_list day (map (seen_on days.now.entries) rows.now))) }
{
    let mut found = Vec::new(alloc);
    for (id, row) in rows {
        if found.len() == most {
            break;
        }
        let last = days.get(id).copied();
        add_overdue(&mut found, day, *id, row, last)?;
    }
    Ok(found)
}

/// Keeps the day of an inspection of an intersection, where none later is kept.
pub fn add_day(days: &mut BTreeMap<InterId, Day>, id: InterId, day: Day) -> Result<(), NoMemory>
    ensures { OnOk result ((n : ℕ) → last_day_in days.new.entries n ≡
        (if n == id then Some (greater day (last_day_in days.old.entries id))
        else last_day_in days.old.entries n)) }
{
    let last = days.get(&id).copied();
    days.insert(id, later(day, last))?;
    Ok(())
}
