//! A clerk's edit of a plan, decided in one step.
ghost use Rattle.std.specs.Prelude.{◌≡◌, ◌↔◌, [], None, IfOk, IsTrue, ⊤};
ghost use Rattle.office_tables_decisions.specs.Reads.{OnlyReads};
ghost use Rattle.office_desk_timing.specs.Revising.{AreChangesTo, DecidesEdit, PlansChanges};

use crate::changing::answer;
use crate::reading::find;
use draft_core::{Changes, Reach, Timing, overlay, revise};
use office_machine::refusal::Refusal;
use office_machine::reply::Reply;
use office_tables_decisions::decided::Decided;
use office_tables_shelf::shelf::{Shelf, ShelfFault};
use signal_plans::{changes, compare};
use signal_records::{Change, InterId, NoMemory, TimingSet, Words};
use std::alloc::Global;

/// What a clerk asks of an intersection's plan.
#[derive(Drop)]
pub struct PlanEdit {
    /// The rows that are put and the keys that are removed, in their order.
    pub changes: Changes,
    /// The changes make the whole plan: rows that they do not name go.
    pub replaces: bool,
    /// The plan is committed, if it breaks no rule.
    pub commits: bool,
}

/// The changes that make the second set of the first, one for each key at which they differ.
fn changes_to(alloc: Global, first: &TimingSet, second: &TimingSet) -> Result<Vec<Change>, NoMemory>
    ensures { IfOk result (λ changes. AreChangesTo first.now second.now changes.items) }
{
    let differences = compare(alloc, first, second)?;
    changes(alloc, differences.as_slice())
}

/// The changes that make the plan which an edit asks for: of the rows that the clerk goes on with,
/// which are the draft, or the committed set where there is none; and of the committed set.
fn plan_changes(
    alloc: Global,
    timing: &Timing,
    edit: &PlanEdit,
) -> Result<(Changes, Vec<Change>), NoMemory>
    ensures { IfOk result (λ planned.
        PlansChanges timing.now edit.now planned.0 planned.1.items) }
{
    let base = overlay(alloc, &timing.committed, timing.delta.as_slice())?;
    let plan = if edit.replaces {
        TimingSet::new(alloc).changed(edit.changes.as_slice())?
    } else {
        overlay(alloc, &base, edit.changes.as_slice())?
    };
    let edits = Changes::new(changes_to(alloc, &base, &plan)?);
    let settled = changes_to(alloc, &timing.committed, &plan)?;
    Ok((edits, settled))
}

/// Nothing is to be done: nobody holds a draft, and the plan is the committed set.
fn asks_nothing(timing: &Timing, settled: &[Change]) -> bool
    ensures { IsTrue result ↔ ((timing.now.holder ≡ None) × (settled.now ≡ [])) }
{
    timing.holder.is_none() && settled.is_empty()
}

/// Decides an edit of a clerk's plan as one step: the draft is taken up, or begun where nobody
/// holds one, edited, and committed where that is asked for and it breaks no rule. `Same` where the
/// plan is the committed set and nobody holds a draft; else `Moved`, in state Normal exactly where
/// the plan was committed. `UnknownIntersection` where the intersection is not there, and the
/// refusals of the transaction; a refused edit writes no row.
pub fn decide_revision<S: Shelf>(
    shelf: &mut S,
    alloc: Global,
    id: InterId,
    clerk: &Words<40>,
    edit: &PlanEdit,
) -> Result<Decided, ShelfFault>
    ensures decides { DecidesEdit (S.is_honest shelf.new) (S.content shelf.old) id clerk.now
        edit.now result }
    ensures reads { OnlyReads S.Shelf ⊤ result shelf.old shelf.new }
{
    let _name = clerk.as_str();
    let Some(found) = find(shelf, alloc, id, Reach::Plan)? else {
        return Ok(Decided::from_refusal(alloc, Refusal::UnknownIntersection));
    };
    let (drafted, committed) = plan_changes(alloc, &found.timing, edit)?;
    let edits = drafted.as_slice();
    let settled = committed.as_slice();
    if asks_nothing(&found.timing, settled) {
        return Ok(Decided::from_reply(alloc, Reply::Same));
    }
    let decision = revise(alloc, &found.timing, clerk, edits, settled, edit.commits);
    answer(alloc, id, clerk, found, decision)
}
