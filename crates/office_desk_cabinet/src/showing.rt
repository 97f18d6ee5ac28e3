//! Queries of the register: the records of a cabinet, its open orders, and the stock.
ghost use Rattle.std.specs.Prelude.{◌≡◌, IfOk, filter, map, ⊤};
ghost use Rattle.cabinet_core.specs.{Orders.is_open, Orders.open_at, Register.Register, Stock.stock_of, declared.record.Order.Order};
ghost use Rattle.office_tables_shelf.specs.CabinetReads.{HasDamagedOrder, HasDamagedPart};
ghost use Rattle.office_tables_decisions.specs.{Reads.OnlyReads, Reads.Reports, Damage.HasDamagedCabinet};
ghost use Rattle.office_desk_cabinet.specs.{RegisterStands.RegisterStandsSound, Registers.ShowsCabinet};

use cabinet_core::{CabinetView, Hand, Order, Ordered, PartCode};
use office_tables_shelf::shelf::{Shelf, ShelfFault};
use signal_records::{InterId, NoMemory, RecordNo};
use std::alloc::Global;

/// All that the register holds of an intersection's cabinet: inspections and orders by their
/// numbers, used parts by order and line.
pub fn cabinet_view<S: Shelf>(
    shelf: &mut S,
    alloc: Global,
    id: InterId,
) -> Result<CabinetView, ShelfFault>
    ensures shows { Reports (S.is_honest shelf.new) result
        (λ view. (r : Register) →
        RegisterStandsSound (S.content shelf.old) r → ShowsCabinet r id view)
        (HasDamagedCabinet (S.content shelf.old) id) }
    ensures reads { OnlyReads S.Shelf ⊤ result shelf.old shelf.new }
{
    let inspections = shelf.inspections(alloc, id)?;
    let orders = shelf.orders(alloc, id)?;
    let lines = shelf.used_lines(alloc, id)?;
    Ok(CabinetView {
        inspections: Ordered::new(inspections),
        orders: Ordered::new(orders),
        lines: Ordered::new(lines),
    })
}

/// The numbers of those of the orders that are open, in the order given.
fn open_numbers(alloc: Global, orders: &[Order]) -> Result<Vec<RecordNo>, NoMemory>
    ensures { IfOk result (λ numbers. numbers.items ≡ map
        (λ (order : Order). order.number) (filter is_open orders.now)) }
{
    let mut numbers = Vec::new(alloc);
    for order in orders {
        if order.closing.is_none() {
            numbers.push(order.number)?;
        }
    }
    Ok(numbers)
}

/// The numbers of the orders on an intersection that are open, in ascending order. All orders on it
/// are read.
pub fn open_orders<S: Shelf>(
    shelf: &mut S,
    alloc: Global,
    id: InterId,
) -> Result<Vec<RecordNo>, ShelfFault>
    ensures shows { Reports (S.is_honest shelf.new) result
        (λ numbers. (r : Register) →
        RegisterStandsSound (S.content shelf.old) r → numbers.items ≡ open_at r id)
        (HasDamagedOrder (S.content shelf.old) id) }
    ensures reads { OnlyReads S.Shelf ⊤ result shelf.old shelf.new }
{
    let orders = shelf.orders(alloc, id)?;
    let numbers = open_numbers(alloc, orders.as_slice())?;
    Ok(numbers)
}

/// The parts that were ever delivered, with how many are on hand of each, in the order of their
/// codes.
pub fn stock<S: Shelf>(shelf: &mut S, alloc: Global) -> Result<Vec<(PartCode, Hand)>, ShelfFault>
    ensures shows { Reports (S.is_honest shelf.new) result
        (λ parts. (r : Register) →
        RegisterStandsSound (S.content shelf.old) r → parts.items ≡ stock_of r)
        (HasDamagedPart (S.content shelf.old)) }
    ensures reads { OnlyReads S.Shelf ⊤ result shelf.old shelf.new }
{
    let parts = shelf.parts(alloc)?;
    Ok(parts)
}
