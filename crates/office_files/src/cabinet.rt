//! Records of the cabinet register, read from CSV files and written into them.

ghost use Rattle.std.specs.Prelude.{◌≡◌, ◌≢◌, ◌++◌, map, flat_map, List, IfOk, IfErr, OnOk, Ok, Err, IsUtf8, MatchResult};
ghost use Rattle.std.specs.List.{filter};
ghost use Rattle.cabinet_core.specs.declared.command.RecordCommand.{RecordCommand as Command};
ghost use Rattle.office_files.specs.Csv.{csv_records};
ghost use Rattle.office_files.specs.CsvFault.{NamesFault};
ghost use Rattle.office_files.specs.RecordSpelling.{record_spelling};
ghost use Rattle.office_files.specs.Records.{commands_of, AreRecordsWithin, is_line_of, opening_of, close_commands, order_commands, view_commands, IsInFileOrder, records_csv_text};

use crate::fault::CsvFault;
use crate::record_reading::read_record;
use crate::rows::{CsvRow, read_rows};
use crate::writing::write_records;
use cabinet_core::{CabinetView, Closing, Inspection, Opening, Order, RecordCommand, UsedLine};
use signal_records::{InterId, NoMemory, RecordNo, RowFault};
use std::alloc::Global;

impl CsvRow for RecordCommand {
    ghost use Rattle.office_files.specs.RecordReading.{record_at};

    ghost reading = { record_at };

    fn read_fields(alloc: Global, fields: &[&[u8]]) -> Result<RecordCommand, RowFault> {
        read_record(alloc, fields)
    }
}

/// The commands that the records of a CSV file spell, in their order, or the first record that
/// spells none, counted from 1. No record is a header, records may differ in length, and empty
/// lines are no records. An empty file has no commands. A byte order mark is taken off.
pub fn read_records_csv(alloc: Global, bytes: &[u8]) -> Result<Vec<RecordCommand>, CsvFault>
    ensures commands { IfOk result (λ commands. commands_of bytes.now ≡ Ok commands.items) }
    ensures fault { IfErr result
        (λ fault. fault ≢ CsvFault.NoMemory → commands_of bytes.now ≡ Err fault) }
    ensures named { IfErr result NamesFault }

    // Each record is the one spelling of its command, and a file of such spellings gives them.
    ensures found { IfOk result
        (λ commands. csv_records bytes.now ≡ map record_spelling commands.items) }
    ensures within { IfOk result (λ commands. AreRecordsWithin commands.items) }
    ensures only { (commands : List Command) → AreRecordsWithin commands →
        csv_records bytes.now ≡ map record_spelling commands
        → MatchResult result (λ read. read.items ≡ commands) (λ fault. fault ≡ CsvFault.NoMemory) }
{
    read_rows(alloc, bytes)
}

fn push_inspections(
    commands: &mut Vec<RecordCommand>,
    id: InterId,
    inspections: &[Inspection],
) -> Result<(), NoMemory>
    ensures { OnOk result (commands.new.items ≡ commands.old.items
        ++ map (RecordCommand.Inspect id) inspections.now) }
{
    for inspection in inspections {
        commands.push(RecordCommand::Inspect {
            id,
            inspection: inspection.clone()?,
        })?;
    }
    Ok(())
}

/// Appends the commands that used parts for an order: one for each of its lines.
fn push_uses(
    commands: &mut Vec<RecordCommand>,
    id: InterId,
    order: RecordNo,
    lines: &[UsedLine],
) -> Result<(), NoMemory>
    ensures { OnOk result (commands.new.items ≡ commands.old.items
        ++ map (RecordCommand.UsePart id) (filter (is_line_of order) lines.now)) }
{
    for line in lines {
        if line.order == order {
            commands.push(RecordCommand::UsePart {
                id,
                line: line.clone()?,
            })?;
        }
    }
    Ok(())
}

/// Appends the command that closed an order, if it is closed.
fn push_closing(
    commands: &mut Vec<RecordCommand>,
    id: InterId,
    order: RecordNo,
    closing: &Option<Closing>,
) -> Result<(), NoMemory>
    ensures { OnOk result (commands.new.items ≡ commands.old.items
        ++ close_commands id order closing.now) }
{
    if let Some(closing) = closing {
        commands.push(RecordCommand::CloseOrder {
            id,
            order,
            closing: closing.clone()?,
        })?;
    }
    Ok(())
}

fn opening_of(order: &Order) -> Result<Opening, NoMemory>
    ensures { IfOk result (λ opening. opening ≡ opening_of order.now) }
{
    Ok(Opening {
        number: order.number,
        day: order.opened,
        clerk: order.clerk.clone()?,
        text: order.text.clone()?,
    })
}

/// Appends the commands that made an order as it is: its opening, its uses, its closing.
fn push_order(
    commands: &mut Vec<RecordCommand>,
    id: InterId,
    lines: &[UsedLine],
    order: &Order,
) -> Result<(), NoMemory>
    ensures { OnOk result (commands.new.items ≡ commands.old.items
        ++ order_commands id lines.now order.now) }
{
    commands.push(RecordCommand::OpenOrder {
        id,
        opening: opening_of(order)?,
    })?;
    push_uses(commands, id, order.number, lines)?;
    push_closing(commands, id, order.number, &order.closing)
}

/// Appends the commands that made these orders as they are, order by order.
fn push_orders(
    commands: &mut Vec<RecordCommand>,
    id: InterId,
    lines: &[UsedLine],
    orders: &[Order],
) -> Result<(), NoMemory>
    ensures { OnOk result (commands.new.items ≡
        commands.old.items ++ flat_map (order_commands id lines.now) orders.now) }
{
    for order in orders {
        push_order(commands, id, lines, order)?;
    }
    Ok(())
}

/// The commands that made a cabinet as it is: its inspections, and then order by order.
fn view_commands(
    alloc: Global,
    id: InterId,
    view: &CabinetView,
) -> Result<Vec<RecordCommand>, NoMemory>
    ensures commands { IfOk result (λ commands. commands.items ≡ view_commands id view.now) }
    ensures in_order { IfOk result (λ _. IsInFileOrder view.now) }
{
    let mut commands = Vec::new(alloc);
    push_inspections(&mut commands, id, view.inspections.as_slice())?;
    push_orders(
        &mut commands,
        id,
        view.lines.as_slice(),
        view.orders.as_slice(),
    )?;
    Ok(commands)
}

/// The CSV file of an intersection's cabinet, in UTF-8: its inspections, and then for each order
/// its opening, the parts that were used for it, and its closing. Inspections and orders are by
/// number, and the parts of an order by line. `read_records_csv` reads it as the commands that made
/// the cabinet as it is.
pub fn records_csv(alloc: Global, id: InterId, view: &CabinetView) -> Result<Vec<u8>, NoMemory>
    ensures text { IfOk result (λ text. text.items ≡ records_csv_text id view.now) }
    ensures in_order { IfOk result (λ _. IsInFileOrder view.now) }
    ensures utf8 { IfOk result (λ text. IsUtf8 text.items) }
    ensures reads_back { IfOk result
        (λ text. commands_of text.items ≡ Ok (view_commands id view.now)) }
{
    let commands = view_commands(alloc, id, view)?;
    write_records(alloc, &commands)
}
