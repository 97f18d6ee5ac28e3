//! The open orders of each intersection, gathered from a walk over all orders.

ghost use Rattle.std.specs.Prelude.{◌≡◌, ◌==◌, ◌++◌, ℕ, if◌then◌else◌, [], ◌∷◌, filter, OnOk};
ghost use Rattle.cabinet_core.specs.Orders.{is_open};
ghost use Rattle.office_tables_shelf.specs.OpenOrders.{orders_in};

use cabinet_core::Order;
use signal_records::{InterId, NoMemory};
use std::alloc::Global;
use std::collections::BTreeMap;

/// Takes the orders on an intersection out of the map; there are none where it has none.
fn take_orders(alloc: Global, orders: &mut BTreeMap<InterId, Vec<Order>>, id: InterId) -> Vec<Order>
    ensures taken { result.items ≡ orders_in orders.old.entries id }
    ensures left { (n : ℕ) → orders_in orders.new.entries n ≡
        (if n == id then [] else orders_in orders.old.entries n) }
{
    match orders.remove(&id) {
        Some(kept) => kept,
        None => Vec::new(alloc),
    }
}

/// Keeps an order on an intersection, if it is open, after those that the map keeps of it.
/// Refused memory may lose that intersection's orders.
pub fn add_open(
    alloc: Global,
    orders: &mut BTreeMap<InterId, Vec<Order>>,
    id: InterId,
    order: Order,
) -> Result<(), NoMemory>
    ensures { OnOk result ((n : ℕ) → orders_in orders.new.entries n ≡
        (if n == id then orders_in orders.old.entries id ++ filter is_open (order ∷ [])
        else orders_in orders.old.entries n)) }
{
    if order.closing.is_some() {
        return Ok(());
    }
    let mut kept = take_orders(alloc, orders, id);
    kept.push(order)?;
    orders.insert(id, kept)?;
    Ok(())
}
