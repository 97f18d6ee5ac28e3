//! The queries Cabinet, OpenOrders, Stock and Overdue.
ghost use Rattle.std.specs.Prelude.{⊤};
ghost use Rattle.office_tables_decisions.specs.Reads.{OnlyReads};
ghost use Rattle.office_desk.specs.Deciding.{Decides};

use crate::recording::is_known;
use cabinet_core::Day;
use office_desk_cabinet::{cabinet_view, open_orders, stock};
use office_machine::command::Command;
use office_machine::refusal::Refusal;
use office_machine::reply::{CabinetShown, OrderNumbers, OverdueList, Reply, Stock};
use office_tables_decisions::decided::Decided;
use office_tables_shelf::shelf::{Shelf, ShelfFault};
use signal_records::InterId;
use std::alloc::Global;

/// Decides the query Cabinet: all records of an intersection's cabinet, or UnknownIntersection.
pub(crate) fn decide_cabinet<S: Shelf>(
    shelf: &mut S,
    alloc: Global,
    id: InterId,
) -> Result<Decided, ShelfFault>
    ensures decides { Decides (S.is_honest shelf.new) (S.content shelf.old)
        (Command.Cabinet id) result }
    ensures reads { OnlyReads S.Shelf ⊤ result shelf.old shelf.new }
{
    if !is_known(shelf, alloc, Some(id))? {
        return Ok(Decided::from_refusal(alloc, Refusal::UnknownIntersection));
    }
    let view = cabinet_view(shelf, alloc, id)?;
    let shown = Reply::Cabinet(CabinetShown { id, view });
    Ok(Decided::from_reply(alloc, shown))
}

/// Decides the query OpenOrders: the numbers of the open orders on an intersection, ascending, or
/// UnknownIntersection.
pub(crate) fn decide_open_orders<S: Shelf>(
    shelf: &mut S,
    alloc: Global,
    id: InterId,
) -> Result<Decided, ShelfFault>
    ensures decides { Decides (S.is_honest shelf.new) (S.content shelf.old)
        (Command.OpenOrders id) result }
    ensures reads { OnlyReads S.Shelf ⊤ result shelf.old shelf.new }
{
    if !is_known(shelf, alloc, Some(id))? {
        return Ok(Decided::from_refusal(alloc, Refusal::UnknownIntersection));
    }
    let list = open_orders(shelf, alloc, id)?;
    let numbers = OrderNumbers::new(list);
    Ok(Decided::from_reply(alloc, Reply::OpenOrders(numbers)))
}

/// Decides the query Stock: how many pieces of each part are on hand.
pub(crate) fn decide_stock<S: Shelf>(shelf: &mut S, alloc: Global) -> Result<Decided, ShelfFault>
    ensures decides { Decides (S.is_honest shelf.new) (S.content shelf.old) Command.Stock result }
    ensures reads { OnlyReads S.Shelf ⊤ result shelf.old shelf.new }
{
    let list = stock(shelf, alloc)?;
    let parts = Stock::new(list);
    Ok(Decided::from_reply(alloc, Reply::Stock(parts)))
}

/// How many late intersections the shelf is asked for at most: more than there can be.
const ALL: usize = usize::MAX;

/// Decides the query Overdue: all intersections that are overdue for an inspection on a day.
pub(crate) fn decide_overdue<S: Shelf>(
    shelf: &mut S,
    alloc: Global,
    day: Day,
) -> Result<Decided, ShelfFault>
    ensures decides { Decides (S.is_honest shelf.new) (S.content shelf.old)
        (Command.Overdue day) result }
    ensures reads { OnlyReads S.Shelf ⊤ result shelf.old shelf.new }
{
    let late = shelf.overdue_rows(alloc, day, ALL)?;
    let found = OverdueList::new(late);
    Ok(Decided::from_reply(alloc, Reply::Overdue(found)))
}
