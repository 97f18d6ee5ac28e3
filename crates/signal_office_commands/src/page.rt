//! The page of an intersection, and all that is read for it.
#![tactic(auto, using(office_desk::proofs::Looks::keeps, office_desk::proofs::Looks::keeps_then))]

ghost use Rattle.office_desk.specs.Asks.{KeepsOffice};

use crate::reads::{or_fault, read_open_draft};
use crate::reporting::{Report, report_of};
use office_desk::office::Office;
use office_machine::reply::{CabinetShown, IntersectionState};
use office_tables_shelf::shelf::Shelf;
use office_views::{IntersectionShown, intersection_page};
use signal_office_faults::Fault;
use signal_plans::{Warning, warnings};
use signal_records::{InterId, NoMemory, TimingSet};
use std::alloc::Global;

/// What a page shows of an intersection.
#[derive(Drop)]
pub(crate) struct PageRead {
    pub(crate) state: IntersectionState,
    pub(crate) committed: TimingSet,
    pub(crate) draft: Option<TimingSet>,
    pub(crate) cabinet: CabinetShown,
}

/// Reads what the page of an intersection shows.
pub(crate) fn read_page<S: Shelf>(
    alloc: Global,
    office: &mut Office<S>,
    id: InterId,
) -> Result<PageRead, Fault>
    ensures { KeepsOffice S.Shelf office.old office.new }
{
    let state = or_fault(office.state(alloc, id))?;
    let timing = or_fault(office.timing(alloc, id))?;
    let draft = read_open_draft(alloc, office, &state)?;
    let cabinet = or_fault(office.cabinet(alloc, id))?;
    Ok(PageRead {
        state,
        committed: timing.rows,
        draft,
        cabinet,
    })
}

impl PageRead {
    /// The page with the warnings of the committed plan; if `linked`, with a link to the index.
    pub(crate) fn text(
        &self,
        alloc: Global,
        warnings: &[Warning],
        linked: bool,
    ) -> Result<Vec<u8>, NoMemory> {
        let shown = IntersectionShown {
            state: &self.state,
            committed: &self.committed,
            warnings,
            draft: self.draft.as_ref(),
            cabinet: &self.cabinet,
        };
        intersection_page(alloc, linked, &shown)
    }

    /// The page; if `linked`, with a link to the index.
    fn page(&self, alloc: Global, linked: bool) -> Result<Vec<u8>, NoMemory> {
        let warnings = warnings(alloc, &self.committed)?;
        self.text(alloc, &warnings, linked)
    }
}

/// The page of an intersection; if `linked`, with a link to the index.
pub(crate) fn page<S: Shelf>(
    alloc: Global,
    office: &mut Office<S>,
    id: InterId,
    linked: bool,
) -> Report
    ensures { KeepsOffice S.Shelf office.old office.new }
{
    let read = read_page(alloc, office, id)?;
    report_of(read.page(alloc, linked))
}
