//! Commands of the register, read from the fields of a record.

ghost use Rattle.std.specs.Prelude.{◌≡◌, length};
ghost use Rattle.signal_records.specs.Reading.{Gives, texts};
ghost use Rattle.office_files.specs.RecordReading.{inspection_at, opening_at, use_at, close_at, delivery_at, record_at};

use crate::record_fields::{day, part, words};
use cabinet_core::{Closing, Delivery, Inspection, Opening, RecordCommand, UsedLine};
use signal_records::{RowFault, read_number};
use std::alloc::Global;

#[tactic(auto, unfolding(crate::specs::RecordReading::inspection_at))]
fn inspection(alloc: Global, fields: &[&[u8]]) -> Result<RecordCommand, RowFault>
    requires { length fields.now ≡ 6 }
    ensures { Gives result (inspection_at (texts fields.now)) }
{
    let id = read_number(fields, 2)?;
    let number = read_number(fields, 3)?;
    let day = day(fields, 4)?;
    let clerk = words(alloc, fields, 5)?;
    let text = words(alloc, fields, 6)?;
    Ok(RecordCommand::Inspect {
        id,
        inspection: Inspection {
            number,
            day,
            clerk,
            text,
        },
    })
}

#[tactic(auto, unfolding(crate::specs::RecordReading::opening_at))]
fn opening(alloc: Global, fields: &[&[u8]]) -> Result<RecordCommand, RowFault>
    requires { length fields.now ≡ 6 }
    ensures { Gives result (opening_at (texts fields.now)) }
{
    let id = read_number(fields, 2)?;
    let number = read_number(fields, 3)?;
    let day = day(fields, 4)?;
    let clerk = words(alloc, fields, 5)?;
    let text = words(alloc, fields, 6)?;
    Ok(RecordCommand::OpenOrder {
        id,
        opening: Opening {
            number,
            day,
            clerk,
            text,
        },
    })
}

#[tactic(auto, unfolding(crate::specs::RecordReading::use_at))]
fn used_part(alloc: Global, fields: &[&[u8]]) -> Result<RecordCommand, RowFault>
    requires { length fields.now ≡ 6 }
    ensures { Gives result (use_at (texts fields.now)) }
{
    let id = read_number(fields, 2)?;
    let order = read_number(fields, 3)?;
    let line = read_number(fields, 4)?;
    let part = part(alloc, fields, 5)?;
    let count = read_number(fields, 6)?;
    Ok(RecordCommand::UsePart {
        id,
        line: UsedLine {
            order,
            line,
            part,
            count,
        },
    })
}

#[tactic(auto, unfolding(crate::specs::RecordReading::close_at))]
fn order_closing(alloc: Global, fields: &[&[u8]]) -> Result<RecordCommand, RowFault>
    requires { length fields.now ≡ 5 }
    ensures { Gives result (close_at (texts fields.now)) }
{
    let id = read_number(fields, 2)?;
    let order = read_number(fields, 3)?;
    let day = day(fields, 4)?;
    let closer = words(alloc, fields, 5)?;
    Ok(RecordCommand::CloseOrder {
        id,
        order,
        closing: Closing { day, closer },
    })
}

#[tactic(auto, unfolding(crate::specs::RecordReading::delivery_at))]
fn delivery(alloc: Global, fields: &[&[u8]]) -> Result<RecordCommand, RowFault>
    requires { length fields.now ≡ 5 }
    ensures { Gives result (delivery_at (texts fields.now)) }
{
    let part = part(alloc, fields, 2)?;
    let number = read_number(fields, 3)?;
    let day = day(fields, 4)?;
    let count = read_number(fields, 5)?;
    Ok(RecordCommand::Receive {
        delivery: Delivery {
            part,
            number,
            day,
            count,
        },
    })
}

/// The command that the fields of a record spell, or the first fault: of the kind, then of the
/// number of fields, then of the fields from left to right.
#[tactic(auto, unfolding(crate::specs::RecordReading::record_at))]
pub(crate) fn read_record(alloc: Global, fields: &[&[u8]]) -> Result<RecordCommand, RowFault>
    ensures { Gives result (record_at (texts fields.now)) }
{
    let Some(kind) = fields.first() else {
        return Err(RowFault::Kind);
    };
    if *kind == b"inspection".as_slice() {
        if fields.len() != 6 {
            return Err(RowFault::Count);
        }
        inspection(alloc, fields)
    } else if *kind == b"order".as_slice() {
        if fields.len() != 6 {
            return Err(RowFault::Count);
        }
        opening(alloc, fields)
    } else if *kind == b"use".as_slice() {
        if fields.len() != 6 {
            return Err(RowFault::Count);
        }
        used_part(alloc, fields)
    } else if *kind == b"close".as_slice() {
        if fields.len() != 5 {
            return Err(RowFault::Count);
        }
        order_closing(alloc, fields)
    } else if *kind == b"delivery".as_slice() {
        if fields.len() != 5 {
            return Err(RowFault::Count);
        }
        delivery(alloc, fields)
    } else {
        Err(RowFault::Kind)
    }
}
