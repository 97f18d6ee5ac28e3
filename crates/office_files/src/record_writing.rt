//! Commands of the register, written as records of a CSV file.

ghost use Rattle.std.specs.Prelude.{◌≡◌, IfOk, decimal, string_bytes};
ghost use Rattle.csv.specs.Records.{fields_of};
ghost use Rattle.office_files.specs.RecordSpelling.{inspection_fields, opening_fields, use_fields, close_fields, delivery_fields};

use crate::writing::CsvRecord;
use cabinet_core::{
    Closing, Delivery, Inspection, Opening, RecordCommand, UsedLine, record_is_within, write_day,
};
use csv::ByteRecord;
use signal_records::{InterId, NoMemory, RecordNo};
use std::alloc::Global;

fn number(alloc: Global, n: u32) -> Result<String, NoMemory>
    ensures { IfOk result (λ text. string_bytes text ≡ decimal n) }
{
    format!(in alloc; "{n}")
}

fn inspection_record(alloc: Global, id: InterId, r: &Inspection) -> Result<ByteRecord, NoMemory>
    ensures { IfOk result (λ row. fields_of row ≡ inspection_fields id r.now) }
{
    let id = number(alloc, id.get())?;
    let n = number(alloc, r.number.get())?;
    let day = write_day(alloc, r.day)?;
    let fields = [
        b"inspection".as_slice(),
        id.as_bytes(),
        n.as_bytes(),
        day.as_bytes(),
        r.clerk.as_str().as_bytes(),
        r.text.as_str().as_bytes(),
    ];
    ByteRecord::from_fields(alloc, &fields)
}

fn opening_record(alloc: Global, id: InterId, r: &Opening) -> Result<ByteRecord, NoMemory>
    ensures { IfOk result (λ row. fields_of row ≡ opening_fields id r.now) }
{
    let id = number(alloc, id.get())?;
    let n = number(alloc, r.number.get())?;
    let day = write_day(alloc, r.day)?;
    let fields = [
        b"order".as_slice(),
        id.as_bytes(),
        n.as_bytes(),
        day.as_bytes(),
        r.clerk.as_str().as_bytes(),
        r.text.as_str().as_bytes(),
    ];
    ByteRecord::from_fields(alloc, &fields)
}

fn use_record(alloc: Global, id: InterId, r: &UsedLine) -> Result<ByteRecord, NoMemory>
    ensures { IfOk result (λ row. fields_of row ≡ use_fields id r.now) }
{
    let id = number(alloc, id.get())?;
    let order = number(alloc, r.order.get())?;
    let line = number(alloc, r.line.get())?;
    let count = number(alloc, r.count.get())?;
    let fields = [
        b"use".as_slice(),
        id.as_bytes(),
        order.as_bytes(),
        line.as_bytes(),
        r.part.as_str().as_bytes(),
        count.as_bytes(),
    ];
    ByteRecord::from_fields(alloc, &fields)
}

fn close_record(
    alloc: Global,
    id: InterId,
    order: RecordNo,
    r: &Closing,
) -> Result<ByteRecord, NoMemory>
    ensures { IfOk result (λ row. fields_of row ≡ close_fields id order r.now) }
{
    let id = number(alloc, id.get())?;
    let order = number(alloc, order.get())?;
    let day = write_day(alloc, r.day)?;
    let fields = [
        b"close".as_slice(),
        id.as_bytes(),
        order.as_bytes(),
        day.as_bytes(),
        r.closer.as_str().as_bytes(),
    ];
    ByteRecord::from_fields(alloc, &fields)
}

fn delivery_record(alloc: Global, r: &Delivery) -> Result<ByteRecord, NoMemory>
    ensures { IfOk result (λ row. fields_of row ≡ delivery_fields r.now) }
{
    let n = number(alloc, r.number.get())?;
    let day = write_day(alloc, r.day)?;
    let count = number(alloc, r.count.get())?;
    let fields = [
        b"delivery".as_slice(),
        r.part.as_str().as_bytes(),
        n.as_bytes(),
        day.as_bytes(),
        count.as_bytes(),
    ];
    ByteRecord::from_fields(alloc, &fields)
}

impl CsvRecord for RecordCommand {
    ghost use Rattle.office_files.specs.RecordSpelling.{record_spelling};
    ghost use Rattle.cabinet_core.specs.Within.{IsRecordWithin};

    ghost spelling = { record_spelling };

    ghost IsWithin = { IsRecordWithin };

    fn record(&self, alloc: Global) -> Result<ByteRecord, NoMemory> {
        record_is_within(self);
        match self {
            RecordCommand::Inspect { id, inspection } => inspection_record(alloc, *id, inspection),
            RecordCommand::OpenOrder { id, opening } => opening_record(alloc, *id, opening),
            RecordCommand::UsePart { id, line } => use_record(alloc, *id, line),
            RecordCommand::CloseOrder { id, order, closing } => close_record(
                alloc, *id, *order, closing,
            ),
            RecordCommand::Receive { delivery } => delivery_record(alloc, delivery),
        }
    }
}
