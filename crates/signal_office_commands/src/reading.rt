//! Reads the CSV file of a command. The fault is `Csv`, with the first bad record or `NoMemory`.

ghost use Rattle.std.specs.Prelude.{◌≡◌, IfOk, IfErr, Ok};
ghost use Rattle.office_files.specs.Changes.{changes_of};
ghost use Rattle.office_files.specs.Records.{commands_of};
ghost use Rattle.signal_office_commands.specs.Refused.{IsUnread};

use cabinet_core::RecordCommand;
use office_files::{read_records_csv, read_timing_csv};
use signal_office_faults::Fault;
use signal_records::Change;
use std::alloc::Global;

/// The records of the register in a CSV file.
pub(crate) fn records_in(alloc: Global, csv: &[u8]) -> Result<Vec<RecordCommand>, Fault>
    ensures read { IfOk result (λ records. commands_of csv.now ≡ Ok records.items) }
    ensures fault { IfErr result (IsUnread (commands_of csv.now)) }
{
    match read_records_csv(alloc, csv) {
        Ok(records) => Ok(records),
        Err(why) => Err(Fault::Csv(why)),
    }
}

/// The changes of a plan in a CSV file.
pub(crate) fn changes_in(alloc: Global, csv: &[u8]) -> Result<Vec<Change>, Fault>
    ensures read { IfOk result (λ changes. changes_of csv.now ≡ Ok changes.items) }
    ensures fault { IfErr result (IsUnread (changes_of csv.now)) }
{
    match read_timing_csv(alloc, csv) {
        Ok(changes) => Ok(changes),
        Err(why) => Err(Fault::Csv(why)),
    }
}
