//! The differences between two plans: of two CSV files, or of a draft or a file and the committed
//! plan.
#![tactic(auto, using(office_desk::proofs::Looks::keeps, office_desk::proofs::Looks::keeps_then))]

ghost use Rattle.office_desk.specs.Asks.{KeepsOffice};

use crate::reads::or_fault;
use crate::reporting::Report;
use office_desk::office::Office;
use office_files::{CsvFault, changes_csv, read_plan_csv};
use office_tables_shelf::shelf::Shelf;
use signal_office_faults::{Done, Fault};
use signal_plans::{Difference, changes, compare, comparison_text};
use signal_records::{InterId, NoMemory, TimingSet};
use std::alloc::Global;

/// The status with which the program ends where plans differ.
const DIFFERS: u8 = 4;

/// Differences as a text, or as CSV: the changes that turn the first plan into the second.
fn differences_text(
    alloc: Global,
    differences: &[Difference],
    csv: bool,
) -> Result<Vec<u8>, NoMemory> {
    if csv {
        let changes = changes(alloc, differences)?;
        changes_csv(alloc, &changes)
    } else {
        comparison_text(alloc, differences)
    }
}

/// The differences between two plans, in the order of the keys. The status is 4 if there are any,
/// else 0.
fn comparison(alloc: Global, before: &TimingSet, after: &TimingSet, csv: bool) -> Report {
    let differences = compare(alloc, before, after)?;
    let status = if differences.is_empty() { 0 } else { DIFFERS };
    let text = differences_text(alloc, &differences, csv)?;
    Ok(Done::ending(text, status))
}

/// The differences between the plans in two CSV files. A bad record of the second file is reported
/// only if the first file has none.
pub fn compare_files(alloc: Global, first: &[u8], second: &[u8], csv: bool) -> Result<Done, Fault> {
    let before = read_plan_csv(alloc, first)?;
    match read_plan_csv(alloc, second) {
        Ok(after) => comparison(alloc, &before, &after, csv),
        Err(CsvFault::Row(bad)) => Err(Fault::OtherCsv(bad)),
        Err(CsvFault::NoMemory) => Err(Fault::Memory),
    }
}

/// What a draft changes of the committed timing set.
pub(crate) fn compare_draft<S: Shelf>(
    alloc: Global,
    office: &mut Office<S>,
    id: InterId,
    csv: bool,
) -> Report
    ensures { KeepsOffice S.Shelf office.old office.new }
{
    let timing = or_fault(office.timing(alloc, id))?;
    let draft = or_fault(office.draft(alloc, id))?;
    comparison(alloc, &timing.rows, &draft.rows, csv)
}

/// The differences between the committed timing set and the plan in a CSV file. The first bad
/// record of the file is reported only if the committed set could be read.
pub(crate) fn compare_running<S: Shelf>(
    alloc: Global,
    office: &mut Office<S>,
    id: InterId,
    plan: &[u8],
    csv: bool,
) -> Report
    ensures { KeepsOffice S.Shelf office.old office.new }
{
    let timing = or_fault(office.timing(alloc, id))?;
    let plan = read_plan_csv(alloc, plan)?;
    comparison(alloc, &timing.rows, &plan, csv)
}
