//! `cabinet_core`: days, parts, the records of the register, and their decisions.

use crate::records::{RegisterNumbers, make_words, numbers_of_register};
use cabinet_core::{
    CabinetRefusal, CabinetView, Closing, Date, Day, Delivery, Hand, Inspection, Opening, Order,
    Ordered, OverdueRow, PartCode, Recorded, Seen, UsedLine, close_order, due, inspect, open_order,
    overdue, read_day, receive, use_part, write_day,
};
use std::alloc::Global;
use std::test::Fail;

/// The first of May 2026.
pub(crate) fn first_of_may() -> Result<Day, Fail> {
    let read: Option<Day> = read_day(b"2026-05-01");
    Ok(read.ok_or("a day")?)
}

/// The code of a part.
pub(crate) fn part(alloc: Global) -> Result<PartCode, Fail> {
    let made: Option<PartCode> = PartCode::new(alloc, b"RELAY")?;
    Ok(made.ok_or("a part")?)
}

/// Numbers of records.
pub(crate) fn at() -> Result<RegisterNumbers, Fail> {
    Ok(numbers_of_register().ok_or("numbers")?)
}

/// An inspection, by its fields.
pub(crate) fn make_inspection(alloc: Global) -> Result<Inspection, Fail> {
    let (number, day) = (at()?.number, first_of_may()?);
    let clerk = make_words(alloc, "Ana")?;
    let text = make_words(alloc, "Fan")?;
    Ok(Inspection {
        number,
        day,
        clerk,
        text,
    })
}

/// What opens an order, by its fields.
pub(crate) fn make_opening(alloc: Global) -> Result<Opening, Fail> {
    let (number, day) = (at()?.number, first_of_may()?);
    let clerk = make_words(alloc, "Ana")?;
    let text = make_words(alloc, "Relay")?;
    Ok(Opening {
        number,
        day,
        clerk,
        text,
    })
}

/// What closes an order, by its fields.
pub(crate) fn make_closing(alloc: Global) -> Result<Closing, Fail> {
    let day = first_of_may()?;
    let closer = make_words(alloc, "Bo")?;
    Ok(Closing { day, closer })
}

/// An order that is closed, by its fields.
fn make_order(alloc: Global) -> Result<Order, Fail> {
    let opened = make_opening(alloc)?;
    let closing = make_closing(alloc)?;
    Ok(Order {
        number: opened.number,
        opened: opened.day,
        clerk: opened.clerk,
        text: opened.text,
        closing: Some(closing),
    })
}

/// A used part, by its fields.
pub(crate) fn make_line(alloc: Global) -> Result<UsedLine, Fail> {
    let at = at()?;
    let part = part(alloc)?;
    Ok(UsedLine {
        order: at.number,
        line: at.line,
        part,
        count: at.count,
    })
}

/// A delivery, by its fields.
pub(crate) fn make_delivery(alloc: Global) -> Result<Delivery, Fail> {
    let (at, day) = (at()?, first_of_may()?);
    let part = part(alloc)?;
    Ok(Delivery {
        part,
        number: at.number,
        day,
        count: at.count,
    })
}

/// The number of a refusal; 0 if a record is added, and 1 if an equal one is there.
fn number(answer: Result<Recorded, CabinetRefusal>) -> u32 {
    match answer {
        Ok(Recorded::Added(_)) => 0,
        Ok(Recorded::Same) => 1,
        Err(refusal) => refusal.number(),
    }
}

/// The outcome of each decision, where there is no order, nothing was delivered, and the inspection
/// is there.
fn decisions(alloc: Global) -> Result<[u32; 5], Fail> {
    let there = Some(make_inspection(alloc)?);
    let asked = make_inspection(alloc)?;
    let inspected = number(inspect(alloc, &there, &asked));
    let opened = number(open_order(alloc, &None, &make_opening(alloc)?));
    let hand: Option<Hand> = None;
    let used = number(use_part(alloc, &None, &None, hand, &make_line(alloc)?));
    let closed = number(close_order(alloc, &None, &make_closing(alloc)?));
    let received = number(receive(alloc, &None, hand, &make_delivery(alloc)?));
    Ok([inspected, opened, used, closed, received])
}

/// The records of a cabinet, by their lists.
pub(crate) fn cabinet(alloc: Global) -> Result<CabinetView, Fail> {
    let mut orders = Vec::new(alloc);
    orders.push(make_order(alloc)?)?;
    Ok(CabinetView {
        inspections: Ordered::new(Vec::new(alloc)),
        orders: Ordered::new(orders),
        lines: Ordered::new(Vec::new(alloc)),
    })
}

/// The rows of what is overdue on the day: an intersection that was never inspected.
pub(crate) fn overdue_rows(alloc: Global) -> Result<Vec<OverdueRow>, Fail> {
    let (at, day) = (at()?, first_of_may()?);
    let name = make_words(alloc, "Main St")?;
    let seen = Seen {
        id: at.id,
        name,
        interval: at.interval,
        last: None,
    };
    Ok(overdue(alloc, day, &[seen])?)
}

#[test]
fn register(rt: HostRuntime) -> Result<(), Fail> {
    let alloc = rt.alloc();
    let day = first_of_may()?;
    assert!(rt; Day::new(20_574) == Some(day));
    assert_eq!(rt; write_day(alloc, day)?.as_str(), "2026-05-01");
    let next: Date = due(day, at()?.interval);
    assert!(rt; next > day.date());
    assert_eq!(rt; decisions(alloc)?, [1, 0, 22, 22, 0]);
    let rows = overdue_rows(alloc)?;
    assert!(rt; rows.len() == 1);
    Ok(())
}

/// A closed order has a day and a clerk; the type allows neither without the other.
#[test]
fn closed_orders(rt: HostRuntime) -> Result<(), Fail> {
    let order = make_order(rt.alloc())?;
    let closed: Option<Day> = order.closed();
    assert!(rt; closed == Some(first_of_may()?));
    let closer = order.closer().ok_or("a closer")?;
    assert_eq!(rt; closer.as_str(), "Bo");
    Ok(())
}
