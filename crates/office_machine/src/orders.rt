//! Open orders as lists show them, each with its intersection.

ghost use Rattle.std.specs.Prelude.{◌≡◌, ◌++◌, OnOk, filter, map};
ghost use Rattle.cabinet_core.specs.Orders.{is_open};
ghost use Rattle.office_machine.specs.Orders.{order_named, order_on};

use crate::reply::CabinetShown;
use cabinet_core::Order;
use signal_records::{InterId, NoMemory, Words};

/// An open order, with the number of its intersection.
#[derive(Drop)]
pub struct OpenOrder {
    pub id: InterId,
    pub order: Order,
}

/// An open order, with the number and the name of its intersection.
#[derive(Drop)]
pub struct NamedOrder {
    pub name: Words<120>,
    pub listed: OpenOrder,
}

/// Appends the open orders of a cabinet, in the order of their numbers. After `NoMemory` some may
/// be appended.
pub fn add_open_orders(found: &mut Vec<OpenOrder>, cabinet: &CabinetShown) -> Result<(), NoMemory>
    ensures { OnOk result (found.new.items ≡ found.old.items
        ++ map (order_on cabinet.now.id) (filter is_open cabinet.now.view.orders)) }
{
    for order in cabinet.view.orders.as_slice() {
        if order.closing.is_none() {
            let order = order.clone()?;
            found.push(OpenOrder {
                id: cabinet.id,
                order,
            })?;
        }
    }
    Ok(())
}

/// Appends the open ones among an intersection's orders, in their order, each with the number and
/// the name of the intersection. After `NoMemory` some may be appended.
pub fn add_named(
    found: &mut Vec<NamedOrder>,
    name: &Words<120>,
    id: InterId,
    orders: &[Order],
) -> Result<(), NoMemory>
    ensures { OnOk result (found.new.items ≡
        found.old.items ++ map (order_named name.now id) (filter is_open orders.now)) }
{
    for order in orders {
        let is_open = order.closing.is_none();
        if is_open {
            let name = name.clone()?;
            let order = order.clone()?;
            found.push(NamedOrder {
                name,
                listed: OpenOrder { id, order },
            })?;
        }
    }
    Ok(())
}
