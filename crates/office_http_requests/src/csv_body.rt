//! The CSV text of a body, and what its records spell.
ghost use Rattle.serde_json.specs.View.{view};
ghost use Rattle.office_http_requests.specs.FaultsInOrder.{Gives};
ghost use Rattle.office_http_requests.specs.CsvBodies.{csv_changes_in, csv_records_in};

use crate::body;
use crate::fault::AskFault;
use crate::field::Field;
use draft_core::changes::Changes;
use office_files::{read_records_csv, read_timing_csv};
use office_machine::records::Records;
use serde_json::Value;
use std::alloc::Global;

/// The changes that the records of the CSV text under the key `csv` spell, in order, or the fault:
/// of that field, or of the first bad record.
#[tactic(auto, unfolding(crate::specs::CsvBodies::csv_changes_in))]
pub(crate) fn changes(alloc: Global, body: &Value) -> Result<Changes, AskFault>
    ensures { Gives result (csv_changes_in (view body.now)) }
{
    let csv = body::text(body, Field::Csv).ok_or(AskFault::Field(Field::Csv))?;
    Ok(Changes::new(read_timing_csv(alloc, csv.as_bytes())?))
}

/// The commands of the register that the records of the CSV text under the key `csv` spell, in
/// order, or the fault: of that field, or of the first bad record.
#[tactic(auto, unfolding(crate::specs::CsvBodies::csv_records_in))]
pub(crate) fn records(alloc: Global, body: &Value) -> Result<Records, AskFault>
    ensures { Gives result (csv_records_in (view body.now)) }
{
    let csv = body::text(body, Field::Csv).ok_or(AskFault::Field(Field::Csv))?;
    Ok(Records::new(read_records_csv(alloc, csv.as_bytes())?))
}
