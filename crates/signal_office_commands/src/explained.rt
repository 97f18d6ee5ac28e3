//! The fault of a refused edit with `--explain`: if another clerk owns the draft, it names that
//! clerk.
#![tactic(auto, using(office_desk::proofs::Looks::keeps, office_desk::proofs::Looks::keeps_none))]

ghost use Rattle.std.specs.Prelude.{◌≡◌, false};
ghost use Rattle.office_desk.specs.Asks.{KeepsOffice};

use crate::refused::fault_of;
use arrayvec::ArrayString;
use draft_core::refusal::DraftRefusal;
use office_desk::office::Office;
use office_machine::refusal::Refusal;
use office_tables_shelf::shelf::Shelf;
use signal_office_faults::Fault;
use signal_office_line::Edit;
use signal_records::{InterId, Words};
use std::alloc::Global;

/// The name of a clerk, which has at most 40 bytes.
fn name_of(clerk: &Words<40>) -> ArrayString<40> {
    let mut name = ArrayString::new();
    name.push_str(clerk.as_str());
    name
}

/// The fault that names the owner of a draft; without an owner, that the clerk of the edit does not
/// own it.
fn held_by(owner: &Option<Words<40>>) -> Fault {
    match owner {
        Some(owner) => Fault::HeldBy(name_of(owner)),
        None => Fault::Refused(Refusal::Draft(DraftRefusal::NotOwner)),
    }
}

/// The fault that names the owner of the draft of an intersection, read in the office; or the fault
/// of that read.
fn owner_told<S: Shelf>(alloc: Global, office: &mut Office<S>, id: InterId) -> Fault
    ensures { KeepsOffice S.Shelf office.old office.new }
{
    match office.state(alloc, id) {
        Ok(state) => held_by(&state.owner),
        Err(why) => fault_of(why),
    }
}

/// Why an edit is refused. If the edit asks for explanation, NotOwner becomes the fault that names
/// the owner; any other fault is given as it is.
pub(crate) fn refused_edit<S: Shelf>(
    alloc: Global,
    office: &mut Office<S>,
    edit: &Edit<'_>,
    why: Fault,
) -> Fault
    ensures looks { KeepsOffice S.Shelf office.old office.new }
    ensures plain { edit.now.explain ≡ false → result ≡ why }
{
    if !edit.explain {
        return why;
    }
    match why {
        Fault::Refused(Refusal::Draft(DraftRefusal::NotOwner)) => {
            owner_told(alloc, office, edit.id)
        }
        why => why,
    }
}
