//! What the program reads of an office. A refused read gives the fault that reports the refusal.
#![tactic(auto, using(office_desk::proofs::Looks::keeps, office_desk::proofs::Looks::keeps_none))]

ghost use Rattle.office_desk.specs.Asks.{KeepsOffice};

use crate::refused::fault_of;
use draft_core::refusal::DraftRefusal;
use draft_core::state::DbState;
use office_desk::office::Office;
use office_machine::intersections::ListedIntersection;
use office_machine::refusal::Refusal;
use office_machine::reply::{IntersectionState, OpenDraft};
use office_tables_shelf::shelf::Shelf;
use signal_office_faults::Fault;
use signal_records::TimingSet;
use std::alloc::Global;

/// What was read, or the fault of a refused read.
pub(crate) fn or_fault<T: Drop>(read: Result<T, Refusal>) -> Result<T, Fault> {
    match read {
        Ok(it) => Ok(it),
        Err(why) => Err(fault_of(why)),
    }
}

/// All intersections, in ascending order of their numbers.
pub(crate) fn read_intersections<S: Shelf>(
    alloc: Global,
    office: &mut Office<S>,
) -> Result<Vec<ListedIntersection>, Fault>
    ensures { KeepsOffice S.Shelf office.old office.new }
{
    or_fault(office.intersections(alloc))
}

/// The rows of a draft that was read; `None` where nobody holds one; or the fault of a refused
/// read.
fn held_rows(read: Result<OpenDraft, Refusal>) -> Result<Option<TimingSet>, Fault> {
    match read {
        Ok(draft) => Ok(Some(draft.rows)),
        Err(Refusal::Draft(DraftRefusal::NotTransaction)) => Ok(None),
        Err(why) => Err(fault_of(why)),
    }
}

/// The rows of the draft of an intersection, where a clerk holds one. No draft is read where the
/// state says that nobody does.
pub(crate) fn read_open_draft<S: Shelf>(
    alloc: Global,
    office: &mut Office<S>,
    state: &IntersectionState,
) -> Result<Option<TimingSet>, Fault>
    ensures { KeepsOffice S.Shelf office.old office.new }
{
    match state.state {
        DbState::Normal => Ok(None),
        _ => held_rows(office.draft(alloc, state.id)),
    }
}
