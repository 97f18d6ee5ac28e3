//! What is said on standard error of records that are to be imported.
#![tactic(auto, using(office_desk::proofs::Looks::keeps))]

ghost use Rattle.office_desk.specs.Asks.{KeepsOffice};

use office_desk::office::Office;
use office_tables_shelf::shelf::Shelf;
use signal_office_commands::record_notes;
use std::alloc::Global;
use std::io::Write;

/// Says which records of a CSV file name a part that the office never had, and which are there
/// already. Notes that can't be made or written are dropped.
pub(crate) fn note_records<S: Shelf>(
    rt: &HostRuntime,
    alloc: Global,
    office: &mut Office<S>,
    csv: &[u8],
)
    ensures { KeepsOffice S.Shelf office.old office.new }
{
    if let Ok(notes) = record_notes(alloc, office, csv) {
        let _ = rt.stderr().write_all(notes.as_bytes());
    }
}
