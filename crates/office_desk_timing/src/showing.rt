//! The list of all intersections, and the queries State, Timing and Draft about one.
ghost use Rattle.std.specs.{Option.option_map, Prelude.◌≡◌, Prelude.⊤};
ghost use Rattle.draft_core.specs.Transaction.{state_of_holder};
ghost use Rattle.office_tables_shelf.specs.Damage.{HasAnyDamagedIntersection};
ghost use Rattle.office_tables_decisions.specs.{Damage.HasDamage, Damage.IsDone, Deciding.Decides, Reads.OnlyReads, Reads.Reports};
ghost use Rattle.office_desk_timing.specs.{Decisions.IsVerdictOf, Listing.ListsEachIntersection};

use crate::reading::{find, intersection_row};
use draft_core::{DbState, DraftRefusal, Holder, Reach, Stage, Timing, Verdict, verdict};
use office_machine::command::Command;
use office_machine::intersections::ListedIntersection;
use office_machine::refusal::Refusal;
use office_machine::reply::{IntersectionState, OpenDraft, Reply, RunningTiming, Violations};
use office_tables_decisions::committed::committed_set;
use office_tables_decisions::decided::Decided;
use office_tables_shelf::rows::IntersectionRow;
use office_tables_shelf::shelf::{Shelf, ShelfFault};
use signal_records::{InterId, NoMemory, Words};
use signal_rules::violations;
use std::alloc::Global;

/// All intersections, in ascending order of their numbers. Their committed rows are counted, not
/// read.
pub fn list_intersections<S: Shelf>(
    shelf: &mut S,
    alloc: Global,
) -> Result<Vec<ListedIntersection>, ShelfFault>
    ensures lists { Reports (S.is_honest shelf.new) result
        (λ found. ListsEachIntersection (S.content shelf.old) found.items)
        (HasAnyDamagedIntersection (S.content shelf.old)) }
    ensures reads { OnlyReads S.Shelf ⊤ result shelf.old shelf.new }
{
    let all = shelf.intersections(alloc)?;
    let mut found = Vec::new(alloc);
    for (id, row) in all.as_slice() {
        let rows = shelf.committed_count(alloc, *id)?;
        let row = row.clone()?;
        let listed = ListedIntersection {
            id: *id,
            name: row.name,
            interval: row.interval,
            revision: row.revision,
            holder: row.holder,
            rows,
        };
        found.push(listed).map_err(NoMemory::from)?;
    }
    Ok(found)
}

/// The state of an intersection and the owner of its draft, by who holds it.
fn state_and_owner(holder: Option<Holder>) -> (DbState, Option<Words<40>>)
    ensures state { result.0 ≡ state_of_holder holder }
    ensures owner { result.1 ≡ option_map (λ holder. holder.owner) holder }
{
    let Some(Holder { stage, owner }) = holder else {
        return (DbState::Normal, None);
    };
    let state = match stage {
        Stage::Transaction => DbState::Transaction,
        Stage::Verify => DbState::Verify,
        Stage::Done => DbState::Done,
    };
    (state, Some(owner))
}

/// The verdict on the draft of an intersection of which this row was read. Only in state Done is
/// the plan read and judged; in any other the verdict is `NotDone`.
fn verdict_at<S: Shelf>(
    shelf: &mut S,
    alloc: Global,
    id: InterId,
    row: &IntersectionRow,
) -> Result<Verdict, ShelfFault>
    ensures verdict { Reports (S.is_honest shelf.new) result
        (IsVerdictOf (S.content shelf.old) id row.now)
        (IsDone row.now × HasDamage (S.content shelf.old) id) }
    ensures reads { OnlyReads S.Shelf (IsDone row.now) result shelf.old shelf.new }
{
    let Some(holder) = &row.holder else {
        return Ok(Verdict::NotDone);
    };
    match holder.stage {
        Stage::Transaction | Stage::Verify => return Ok(Verdict::NotDone),
        Stage::Done => {}
    }
    let Some(found) = find(shelf, alloc, id, Reach::Plan)? else {
        return Ok(Verdict::NotDone);
    };
    Ok(verdict(alloc, &found.timing)?)
}

/// Decides the query State about an intersection; `UnknownIntersection` where there is none. The
/// committed rows are counted, but read only in state Done.
pub fn decide_state<S: Shelf>(
    shelf: &mut S,
    alloc: Global,
    id: InterId,
) -> Result<Decided, ShelfFault>
    ensures decides { Decides (S.is_honest shelf.new) (S.content shelf.old)
        (Command.State id) result }
    ensures reads { OnlyReads S.Shelf ⊤ result shelf.old shelf.new }
{
    let Some(row) = intersection_row(shelf, alloc, id)? else {
        return Ok(Decided::from_refusal(alloc, Refusal::UnknownIntersection));
    };
    let rows = shelf.committed_count(alloc, id)?;
    let verify = verdict_at(shelf, alloc, id, &row)?;
    let (state, owner) = state_and_owner(row.holder);
    let shown = Reply::State(IntersectionState {
        id,
        interval: row.interval,
        name: row.name,
        owner,
        revision: row.revision,
        rows,
        state,
        verify,
    });
    Ok(Decided::from_reply(alloc, shown))
}

/// Decides the query Timing, which shows an intersection's committed rows; `UnknownIntersection`
/// where there is none.
pub fn decide_timing<S: Shelf>(
    shelf: &mut S,
    alloc: Global,
    id: InterId,
) -> Result<Decided, ShelfFault>
    ensures decides { Decides (S.is_honest shelf.new) (S.content shelf.old)
        (Command.Timing id) result }
    ensures reads { OnlyReads S.Shelf ⊤ result shelf.old shelf.new }
{
    let Some(row) = intersection_row(shelf, alloc, id)? else {
        return Ok(Decided::from_refusal(alloc, Refusal::UnknownIntersection));
    };
    let rows = committed_set(shelf, alloc, id)?;
    let timing = RunningTiming {
        name: row.name,
        revision: row.revision,
        rows,
    };
    Ok(Decided::from_reply(alloc, Reply::Timing(timing)))
}

/// Decides the query Draft, which shows who holds the draft, its rows and the rules that they
/// break;
/// `UnknownIntersection` where the intersection is not there, and `NotTransaction` where nobody
/// holds a draft of it.
pub fn decide_draft<S: Shelf>(
    shelf: &mut S,
    alloc: Global,
    id: InterId,
) -> Result<Decided, ShelfFault>
    ensures decides { Decides (S.is_honest shelf.new) (S.content shelf.old)
        (Command.Draft id) result }
    ensures reads { OnlyReads S.Shelf ⊤ result shelf.old shelf.new }
{
    let Some(found) = find(shelf, alloc, id, Reach::Plan)? else {
        return Ok(Decided::from_refusal(alloc, Refusal::UnknownIntersection));
    };
    let Timing {
        holder,
        committed,
        delta,
        ..
    } = found.timing;
    let Some(holder) = holder else {
        let refusal = Refusal::Draft(DraftRefusal::NotTransaction);
        return Ok(Decided::from_refusal(alloc, refusal));
    };
    let rows = committed.changed(delta.as_slice())?;
    let violations = Violations::new(violations(alloc, &rows)?);
    let shown = Reply::Draft(OpenDraft {
        owner: holder.owner,
        rows,
        violations,
    });
    Ok(Decided::from_reply(alloc, shown))
}
