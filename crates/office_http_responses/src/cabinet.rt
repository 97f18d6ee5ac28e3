//! What the register holds of an intersection, in JSON.
ghost use Rattle.std.specs.Prelude.{map, flat_map};
ghost use Rattle.std.specs.List.{filter};
ghost use Rattle.office_files.specs.Records.{is_line_of};
ghost use Rattle.office_http_responses.specs.Json.{array_of};
ghost use Rattle.office_http_responses.specs.RegisterTrees.{inspection_tree, order_members, order_tree, used_tree, uses_tree, cabinet_tree};
ghost use Rattle.office_http_responses.specs.Writing.{Adds, AddsTree, member_tokens, tokens_of};

use crate::writing::Scalar::{Day, Number, Text};
use crate::writing::{WriteJson, array, clerk_or_null, day_or_null, object, write_members};
use cabinet_core::{CabinetView, Inspection, Order, UsedLine};
use json::Writer;
use signal_records::RecordNo;
use std::alloc::{AllocError, Global};

fn write_inspection(
    alloc: Global,
    to: &mut Writer,
    inspection: &Inspection,
) -> Result<(), AllocError>
    ensures { AddsTree result to.old to.new (inspection_tree inspection.now) }
{
    object(
        alloc,
        to,
        &[
            ("clerk", Text(inspection.clerk.as_str())),
            ("day", Day(inspection.day.date())),
            ("number", Number(u64::from(inspection.number.get()))),
            ("text", Text(inspection.text.as_str())),
        ],
    )
}

impl WriteJson for Inspection {
    ghost use Rattle.office_http_responses.specs.RegisterTrees.{inspection_tree};

    ghost tree = { inspection_tree };

    fn write_json(&self, alloc: Global, to: &mut Writer) -> Result<(), AllocError> {
        write_inspection(alloc, to, self)
    }
}

fn write_used(alloc: Global, to: &mut Writer, used: &UsedLine) -> Result<(), AllocError>
    ensures { AddsTree result to.old to.new (used_tree used.now) }
{
    object(
        alloc,
        to,
        &[
            ("count", Number(u64::from(used.count.get()))),
            ("line", Number(u64::from(used.line.get()))),
            ("part", Text(used.part.as_str())),
        ],
    )
}

fn write_uses(
    alloc: Global,
    to: &mut Writer,
    order: RecordNo,
    lines: &[UsedLine],
) -> Result<(), AllocError>
    ensures { Adds result to.old to.new (flat_map tokens_of
        (map used_tree (filter (is_line_of order) lines.now))) }
{
    for line in lines {
        if line.order == order {
            write_used(alloc, to, line)?;
        }
    }
    Ok(())
}

// The parts that were used for an order, as an array: those of the lines that name it.
fn uses(
    alloc: Global,
    to: &mut Writer,
    order: RecordNo,
    lines: &[UsedLine],
) -> Result<(), AllocError>
    ensures { AddsTree result to.old to.new (uses_tree order lines.now) }
{
    to.begin_array()?;
    write_uses(alloc, to, order, lines)?;
    to.end_array()?;
    Ok(())
}

// The members of an order's object, without the parts that were used for it.
fn write_order_members(alloc: Global, to: &mut Writer, order: &Order) -> Result<(), AllocError>
    ensures { Adds result to.old to.new (flat_map member_tokens (order_members order.now)) }
{
    write_members(
        alloc,
        to,
        &[
            ("clerk", Text(order.clerk.as_str())),
            ("closed", day_or_null(order.closed())),
            ("closer", clerk_or_null(order.closer())),
            ("number", Number(u64::from(order.number.get()))),
            ("opened", Day(order.opened.date())),
            ("text", Text(order.text.as_str())),
        ],
    )
}

// An order as an object, with the parts that were used for it: those of the lines that name it.
fn write_order(
    alloc: Global,
    to: &mut Writer,
    lines: &[UsedLine],
    order: &Order,
) -> Result<(), AllocError>
    ensures { AddsTree result to.old to.new (order_tree lines.now order.now) }
{
    to.begin_object()?;
    write_order_members(alloc, to, order)?;
    to.key("used")?;
    uses(alloc, to, order.number, lines)?;
    to.end_object()?;
    Ok(())
}

fn write_orders(
    alloc: Global,
    to: &mut Writer,
    lines: &[UsedLine],
    orders: &[Order],
) -> Result<(), AllocError>
    ensures { Adds result to.old to.new (flat_map tokens_of
        (map (order_tree lines.now) orders.now)) }
{
    for order in orders {
        write_order(alloc, to, lines, order)?;
    }
    Ok(())
}

fn orders(
    alloc: Global,
    to: &mut Writer,
    lines: &[UsedLine],
    orders: &[Order],
) -> Result<(), AllocError>
    ensures { AddsTree result to.old to.new (array_of (order_tree lines.now) orders.now) }
{
    to.begin_array()?;
    write_orders(alloc, to, lines, orders)?;
    to.end_array()?;
    Ok(())
}

/// Writes the inspections and the orders of an intersection, each order with the parts that were
/// used for it.
pub(crate) fn write_cabinet(
    alloc: Global,
    to: &mut Writer,
    shown: &CabinetView,
) -> Result<(), AllocError>
    ensures { AddsTree result to.old to.new
        (cabinet_tree shown.now.inspections shown.now.orders shown.now.lines) }
{
    to.begin_object()?;
    to.key("inspections")?;
    array(alloc, to, shown.inspections.as_slice())?;
    to.key("orders")?;
    orders(alloc, to, shown.lines.as_slice(), shown.orders.as_slice())?;
    to.end_object()?;
    Ok(())
}
