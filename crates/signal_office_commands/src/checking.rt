//! Records of a CSV file that are only tried, not taken.
#![tactic(auto, using(office_desk::proofs::Looks::keeps, office_desk::proofs::Looks::keeps_none))]

ghost use Rattle.office_desk.specs.Asks.{KeepsOffice};

use crate::check_text::checks_text;
use crate::reading::records_in;
use crate::reads::or_fault;
use office_desk::Checked;
use office_desk::office::Office;
use office_tables_shelf::shelf::Shelf;
use signal_office_faults::{Done, Fault};
use std::alloc::Global;

/// The status where a record would be refused.
const HAS_REFUSED: u8 = 1;

/// Reports each record that would be refused, and the counts. The status is 1 if any would be
/// refused, else 0.
fn tell_checked(alloc: Global, lines: &[usize], all: &[Checked]) -> Result<Done, Fault> {
    let refused = all
        .iter()
        .filter(|&it| matches!(it, Checked::Refused { .. }))
        .count();
    let text = checks_text(alloc, lines, all, refused)?;
    let status = if refused == 0 { 0 } else { HAS_REFUSED };
    Ok(Done::ending(text, status))
}

/// Tries the records of a CSV file in turn, each after those before it that would be taken, and
/// reports each that would be refused, with the line on which it begins, from `lines`. The status
/// is 1 if there is one, else 0. Nothing is taken.
pub fn check<S: Shelf>(
    alloc: Global,
    office: &mut Office<S>,
    csv: &[u8],
    lines: &[usize],
) -> Result<Done, Fault>
    ensures { KeepsOffice S.Shelf office.old office.new }
{
    let records = records_in(alloc, csv)?;
    let all = or_fault(office.check(alloc, &records))?;
    tell_checked(alloc, lines, &all)
}
