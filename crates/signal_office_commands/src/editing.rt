//! An edit of a plan by a CSV file.

ghost use Rattle.std.specs.Prelude.{◌≡◌, IfErr, IfOk};
ghost use Rattle.office_desk.specs.Asks.{OnlyLooks};
ghost use Rattle.office_files.specs.Changes.{changes_of};
ghost use Rattle.signal_office_commands.specs.Changing.{ChangesShelf};
ghost use Rattle.office_desk.specs.Editing.{AfterEdit};
ghost use Rattle.signal_office_commands.specs.Editing.{AfterEditing, AsksFor, Edits, EditsFrom, RevisesPlan, TellsEdit, TellsMove, before_edit, open_draft};
ghost use Rattle.signal_office_commands.specs.Refused.{IsUnread};

use crate::edit_notes::edit_notes;
use crate::explained::refused_edit;
use crate::reading::changes_in;
use crate::refused::fault_of;
use draft_core::changes::Changes;
use draft_core::state::DbState;
use office_desk::PlanEdit;
use office_desk::office::Office;
use office_machine::refusal::Refusal;
use office_machine::reply::{OpenDraft, Reply, RunningTiming};
use office_tables_shelf::shelf::Shelf;
use signal_office_faults::Fault;
use signal_office_line::Edit;
use std::alloc::Global;

/// What became of a plan that was edited.
#[derive(Drop)]
pub enum Revised {
    /// The plan is the committed set, and nobody holds a draft: nothing was changed.
    Same,
    /// The draft stays open: no commit was asked for, or it breaks a rule.
    Open(OpenDraft),
    /// The plan was committed, and this set runs now; `None` if that could not be read.
    Committed(Option<RunningTiming>),
}

/// An edit of a plan that was made.
#[derive(Drop)]
pub struct Edited {
    /// The set that ran before.
    pub before: RunningTiming,
    /// What became of the plan.
    pub revised: Revised,
    /// Notes on it, a line for each.
    pub notes: String,
}

/// The edit that a plan's CSV file asks for.
fn plan_edit(alloc: Global, edit: &Edit<'_>, csv: &[u8]) -> Result<PlanEdit, Fault>
    ensures asked { IfOk result (AsksFor csv.now edit.now) }
    ensures unread { IfErr result (IsUnread (changes_of csv.now)) }
{
    let changes = Changes::new(changes_in(alloc, csv)?);
    Ok(PlanEdit {
        changes,
        replaces: edit.replace,
        commits: edit.commit,
    })
}

/// The set that runs before an edit, if its revision is the one that is asked for, or none is; or
/// the fault of another revision, or of the read.
fn before_edit(
    asked: Option<u32>,
    read: Result<RunningTiming, Refusal>,
) -> Result<RunningTiming, Fault>
    ensures { result ≡ before_edit asked read }
{
    let before = match read {
        Ok(before) => before,
        Err(why) => return Err(fault_of(why)),
    };
    let found = before.revision.get();
    match asked {
        Some(revision) if found != revision => Err(Fault::OtherRevision(found)),
        _ => Ok(before),
    }
}

/// The draft that was left open, or the fault of its read.
fn open_draft(read: Result<OpenDraft, Refusal>) -> Result<Revised, Fault>
    ensures { result ≡ open_draft read }
{
    match read {
        Ok(draft) => Ok(Revised::Open(draft)),
        Err(why) => Err(fault_of(why)),
    }
}

/// What became of a plan whose transaction moved to this state; or the fault of reading a draft
/// that was left open.
fn read_moved<S: Shelf>(
    alloc: Global,
    office: &mut Office<S>,
    edit: &Edit<'_>,
    state: DbState,
) -> Result<Revised, Fault>
    ensures { OnlyLooks S.Shelf office.old office.new
        (λ tables. TellsMove edit.now.id state tables result) }
{
    match state {
        DbState::Normal => {
            let running = office.timing(alloc, edit.id).ok();
            Ok(Revised::Committed(running))
        }
        DbState::Transaction | DbState::Verify | DbState::Done => {
            open_draft(office.draft(alloc, edit.id))
        }
    }
}

/// What became of a plan, by the reply to its edit; or the fault of a refusal, or of reading a
/// draft that was left open.
fn revised_by<S: Shelf>(
    alloc: Global,
    office: &mut Office<S>,
    edit: &Edit<'_>,
    reply: &Reply,
) -> Result<Revised, Fault>
    ensures { OnlyLooks S.Shelf office.old office.new
        (λ tables. TellsEdit edit.now.id reply.now tables result) }
{
    match *reply {
        Reply::Same => Ok(Revised::Same),
        Reply::Moved { state, .. } => read_moved(alloc, office, edit, state),
        Reply::Refused(why) => Err(fault_of(why)),
        _ => Err(Fault::Store),
    }
}

/// Revises a plan as an edit asks, and gives what became of it, or the fault.
fn revise_plan<S: Shelf>(
    alloc: Global,
    office: &mut Office<S>,
    edit: &Edit<'_>,
    asked: &PlanEdit,
) -> Result<Revised, Fault>
    ensures { ChangesShelf S.Shelf office.old office.new
        (λ old new. RevisesPlan asked.now edit.now old new result)
        (AfterEdit edit.now.id edit.now.clerk asked.now) }
{
    let clerk = edit.clerk.to_words(alloc)?;
    let reply = office.revise(alloc, edit.id, &clerk, asked);
    revised_by(alloc, office, edit, &reply)
}

/// Edits a plan of which this set runs, and makes notes on what became of it; or tells the fault,
/// explained if the edit asks for that.
fn edit_from<S: Shelf>(
    alloc: Global,
    office: &mut Office<S>,
    edit: &Edit<'_>,
    csv: &[u8],
    asked: &PlanEdit,
    before: RunningTiming,
) -> Result<Edited, Fault>
    ensures { ChangesShelf S.Shelf office.old office.new
        (λ old new. EditsFrom asked.now edit.now old new result)
        (AfterEdit edit.now.id edit.now.clerk asked.now) }
{
    match revise_plan(alloc, office, edit, asked) {
        Ok(revised) => {
            let notes = edit_notes(alloc, office, edit, csv, &before.rows, &revised);
            Ok(Edited {
                before,
                revised,
                notes,
            })
        }
        Err(why) => Err(refused_edit(alloc, office, edit, why)),
    }
}

/// Edits an intersection's plan by a CSV file, in one step of the office: the draft of the clerk is
/// begun or opened again, and changed, and committed if that is asked for and it breaks no rule. On
/// a fault nothing was changed, with one exception: the edit left the draft open, and reading it
/// back failed.
pub fn edit<S: Shelf>(
    alloc: Global,
    office: &mut Office<S>,
    edit: &Edit<'_>,
    csv: &[u8],
) -> Result<Edited, Fault>
    ensures { ChangesShelf S.Shelf office.old office.new
        (λ old new. Edits csv.now edit.now old new result) (AfterEditing csv.now edit.now) }
{
    let asked = plan_edit(alloc, edit, csv)?;
    match before_edit(edit.revision, office.timing(alloc, edit.id)) {
        Ok(before) => edit_from(alloc, office, edit, csv, &asked, before),
        Err(why) => Err(why),
    }
}
