//! Which orders are open.

ghost use Rattle.std.specs.Prelude.{◌≡◌, filter, length};
ghost use Rattle.cabinet_core.specs.Orders.{is_open};

use crate::record::Order;

/// How many of the orders are open.
pub fn open_count(orders: &[Order]) -> usize
    ensures { result ≡ length (filter is_open orders.now) }
{
    let mut count = 0;
    for order in orders {
        if order.closing.is_none() {
            count += 1;
        }
    }
    count
}
