//! The content of a cell of a table, or of a fact.

use cabinet_core::{Date, Day, UsedLine, due, write_date};
use safe_markup::Markup;
use signal_records::{Interval, PHASES, PhaseNo, RecordNo};
use std::fmt::{self, Write};

/// Tenths of a unit, maybe below zero, as `4.5` or `-0.5`.
#[derive(Clone, Copy, PartialEq, Eq)]
pub(crate) struct Tenths(pub(crate) i64);

impl fmt::Display for Tenths {
    fn fmt<W: fmt::Write>(&self, f: &mut fmt::Formatter<W>) -> fmt::Result {
        let sign = if self.0 < 0 { "-" } else { "" };
        let whole = self.0.unsigned_abs() / 10;
        let tenth = self.0.unsigned_abs() % 10;
        write!(f, "{sign}{whole}.{tenth}")
    }
}

/// Phases, each marked at the place of its number.
pub(crate) type PhaseSet = [bool; PHASES as usize + 1];

#[derive(Clone, Copy, PartialEq, Eq)]
pub(crate) enum Cell<'a> {
    /// A number that heads a row.
    Head(u32),
    /// The number of an intersection that heads a row, as a link to its page.
    Link(u32),
    Number(u64),
    Tenths(Tenths),
    /// A dash or nothing in place of a number.
    NoNumber(&'a str),
    Words(&'a str),
    /// Words, and by how many seconds a split is short.
    Short(&'a str, Tenths),
    /// A name or text of others, which keeps its writing direction.
    Name(&'a str),
    /// Phases in the order in which they are listed.
    Phases(&'a [PhaseNo]),
    PhaseSet(PhaseSet),
    Day(Date),
    /// A day, or words in its place, and whether an inspection is overdue since that day.
    DayOr(Option<Date>, &'a str, bool),
    /// The lines among these that belong to the order with this number.
    Parts(&'a [UsedLine], RecordNo),
}

/// A number in tenths.
pub(crate) fn in_tenths(n: u32) -> Cell<'static> {
    Cell::Tenths(Tenths(i64::from(n)))
}

pub(crate) const DASH: Cell<'static> = Cell::NoNumber("-");

pub(crate) const EMPTY: Cell<'static> = Cell::NoNumber("");

/// The day of the latest inspection, if there was one.
pub(crate) fn last_cell(last: Option<Day>) -> Cell<'static> {
    Cell::DayOr(last.map(|day| day.date()), "none", false)
}

/// The day on which the next inspection falls due, if there was one before, and whether it is
/// overdue.
pub(crate) fn due_cell(last: Option<Day>, interval: Interval, overdue: bool) -> Cell<'static> {
    let date = last.map(|day| due(day, interval));
    Cell::DayOr(date, "never inspected", overdue)
}

/// The tags of a cell: one that heads a row, one with a day, one with words, which are at the left,
/// or one with a number.
pub(crate) fn tags_of(cell: &Cell<'_>) -> (&'static str, &'static str) {
    match cell {
        Cell::Head(_) | Cell::Link(_) => ("<th scope='row'>", "</th>"),
        Cell::Day(_) | Cell::DayOr(_, _, _) => ("<td class='d'>", "</td>"),
        Cell::Number(_) | Cell::Tenths(_) | Cell::NoNumber(_) => ("<td>", "</td>"),
        _ => ("<td class='w'>", "</td>"),
    }
}

pub(crate) fn push_date(page: &mut Markup, date: Date) -> fmt::Result {
    let date = write_date(page.alloc(), date)?;
    write!(page, "{date}")
}

fn push_phases(page: &mut Markup, phases: &[PhaseNo]) -> fmt::Result {
    if phases.is_empty() {
        return write!(page, " -");
    }
    for p in phases {
        write!(page, " {}", p.get())?;
    }
    Ok(())
}

fn push_phase_set(page: &mut Markup, phases: &PhaseSet) -> fmt::Result {
    if !phases.iter().any(|is_in| *is_in) {
        return write!(page, " -");
    }
    for (p, is_in) in phases.iter().enumerate() {
        if *is_in {
            write!(page, " {p}")?;
        }
    }
    Ok(())
}

/// Writes the lines of an order among these: the number of each, how many pieces were used, and the
/// part; or `none`.
fn push_parts(page: &mut Markup, lines: &[UsedLine], order: RecordNo) -> fmt::Result {
    if !lines.iter().any(|line| line.order == order) {
        return write!(page, "none");
    }
    for line in lines {
        if line.order == order {
            page.enclose("<div>", &line.line.get(), ": ")?;
            page.enclose("", &line.count.get(), " &times; <bdi>")?;
            page.enclose("", &line.part.as_str(), "</bdi></div>")?;
        }
    }
    Ok(())
}

const OVERDUE: &str = " <strong class='late'>overdue</strong>";

/// Writes the content of a cell.
pub(crate) fn push_content(page: &mut Markup, cell: &Cell<'_>) -> fmt::Result {
    match *cell {
        Cell::Head(n) => write!(page, "{n}"),
        Cell::Link(n) => {
            page.enclose("<a href='", &n, ".html'>")?;
            page.enclose("", &n, "</a>")
        }
        Cell::Number(n) => write!(page, "{n}"),
        Cell::Tenths(n) => write!(page, "{n}"),
        Cell::Words(words) | Cell::NoNumber(words) => write!(page, "{words}"),
        Cell::Short(words, by) => {
            page.enclose("", &words, " <strong class='short'>")?;
            page.enclose("", &by, " s short</strong>")
        }
        Cell::Name(name) => page.enclose("<bdi>", &name, "</bdi>"),
        Cell::Phases(phases) => push_phases(page, phases),
        Cell::PhaseSet(phases) => push_phase_set(page, &phases),
        Cell::Day(date) => push_date(page, date),
        Cell::DayOr(date, words, overdue) => {
            match date {
                None => write!(page, "{words}")?,
                Some(date) => push_date(page, date)?,
            }
            page.own(if overdue { OVERDUE } else { "" })
        }
        Cell::Parts(lines, order) => push_parts(page, lines, order),
    }
}
