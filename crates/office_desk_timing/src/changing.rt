//! The commands that change an intersection: AddIntersection, and the steps of the transaction, by
//! which a clerk changes its timing.
ghost use Rattle.std.specs.{Prelude.◌≡◌, Prelude.◌∷◌, Prelude.◌==◌, Prelude.◌&&◌, Prelude.⊤, Prelude.IfOk, Str.bytes_eq};
ghost use Rattle.office_tables_decisions.specs.{Asking.asking_command, Deciding.Decides, Reads.OnlyReads};
ghost use Rattle.office_desk_timing.specs.Moving.{TellsDecision, row_change_of, row_changes_of};

use crate::reading::{ReadIntersection, find, intersection_row};
use draft_core::{DraftRefusal, Move, Revision, Step, TimingChange, TimingChanges, next_holder};
use office_machine::command::Command;
use office_machine::refusal::Refusal;
use office_machine::reply::Reply;
use office_tables_decisions::decided::Decided;
use office_tables_shelf::rows::{IntersectionRow, RowChange};
use office_tables_shelf::shelf::{Shelf, ShelfFault};
use signal_records::{Change, InterId, Interval, NoMemory, Words};
use std::alloc::Global;

/// Whether the row has this name and interval.
fn is_same(row: &IntersectionRow, interval: Interval, name: &Words<120>) -> bool
    ensures { result ≡ (bytes_eq row.now.name name.now && (row.now.interval == interval)) }
{
    row.name.as_str() == name.as_str() && row.interval.get() == interval.get()
}

/// Decides the command AddIntersection; `interval` is the days from one inspection to the next.
/// `Added`, with the new row, where none stands under the number; `Same` where name and interval
/// are those of the row; else `IntersectionDiffers`.
pub fn decide_add<S: Shelf>(
    shelf: &mut S,
    alloc: Global,
    id: InterId,
    interval: Interval,
    name: &Words<120>,
) -> Result<Decided, ShelfFault>
    ensures decides { Decides (S.is_honest shelf.new) (S.content shelf.old)
        (Command.AddIntersection id interval name.now) result }
    ensures reads { OnlyReads S.Shelf ⊤ result shelf.old shelf.new }
{
    let _number = id.get();
    let _text = name.as_str();
    let _days = interval.get();
    let Some(row) = intersection_row(shelf, alloc, id)? else {
        let row = IntersectionRow {
            name: name.clone()?,
            interval,
            revision: Revision::first(),
            holder: None,
        };
        let mut decided = Decided::from_reply(alloc, Reply::Added);
        let change = RowChange::AddIntersection(id, row);
        decided.changes.push(change).map_err(NoMemory::from)?;
        return Ok(decided);
    };
    if is_same(&row, interval, name) {
        return Ok(Decided::from_reply(alloc, Reply::Same));
    }
    Ok(Decided::from_refusal(alloc, Refusal::IntersectionDiffers))
}

/// A change of the committed rows or of the draft of an intersection's timing, as a change of rows
/// of the tables.
fn row_change(id: InterId, change: TimingChange) -> RowChange
    ensures { result ≡ row_change_of id change }
{
    match change {
        TimingChange::CommittedNew(row) => RowChange::AddTiming(id, row),
        TimingChange::Committed(Change::Put(row)) => RowChange::PutTiming(id, row),
        TimingChange::Committed(Change::Remove(key)) => RowChange::RemoveTiming(id, key),
        TimingChange::DraftedNew(change) => RowChange::AddDraft(id, change),
        TimingChange::Drafted(change) => RowChange::PutDraft(id, change),
        TimingChange::DraftGone(key) => RowChange::RemoveDraft(id, key),
        TimingChange::DraftDropped(rows) => RowChange::DropDraft(id, rows),
    }
}

/// The changes of rows that a move writes: the intersection's own row, and then those of its timing
/// side, in order.
fn row_changes(
    alloc: Global,
    id: InterId,
    row: IntersectionRow,
    changes: TimingChanges,
) -> Result<Vec<RowChange>, NoMemory>
    ensures { IfOk result (λ made. made.items
        ≡ RowChange.PutIntersection id row ∷ row_changes_of id changes) }
{
    let mut made = Vec::new(alloc);
    made.push(RowChange::PutIntersection(id, row))?;
    for change in changes.into_vec() {
        made.push(row_change(id, change))?;
    }
    Ok(made)
}

/// The answer to a decision of the transaction on what this clerk asked for: a move with its rows,
/// or a refusal without any. A refusal for want of memory is the fault `NoMemory`.
pub(crate) fn answer(
    alloc: Global,
    id: InterId,
    clerk: &Words<40>,
    found: ReadIntersection,
    decision: Result<Move, DraftRefusal>,
) -> Result<Decided, ShelfFault>
    ensures { TellsDecision id clerk.now found decision result }
{
    let step = match decision {
        Ok(step) => step,
        Err(DraftRefusal::NoMemory) => return Err(ShelfFault::NoMemory),
        Err(refusal) => return Ok(Decided::from_refusal(alloc, Refusal::Draft(refusal))),
    };
    let timing = found.timing;
    let row = IntersectionRow {
        name: found.name,
        interval: found.interval,
        revision: step.revision,
        holder: next_holder(step.holder, timing.holder, clerk)?,
    };
    let reply = Reply::Moved {
        revision: step.revision,
        state: step.state,
        verdict: step.verdict,
    };
    let changes = row_changes(alloc, id, row, step.changes)?;
    Ok(Decided { reply, changes })
}

/// Decides a step of the transaction that this clerk asks for; `UnknownIntersection` where the
/// intersection is not there.
pub fn transact<S: Shelf>(
    shelf: &mut S,
    alloc: Global,
    id: InterId,
    clerk: &Words<40>,
    step: &Step,
) -> Result<Decided, ShelfFault>
    ensures decides { Decides (S.is_honest shelf.new) (S.content shelf.old)
        (asking_command id clerk.now step.now) result }
    ensures reads { OnlyReads S.Shelf ⊤ result shelf.old shelf.new }
{
    let _name = clerk.as_str();
    let Some(found) = find(shelf, alloc, id, step.reach())? else {
        return Ok(Decided::from_refusal(alloc, Refusal::UnknownIntersection));
    };
    let decision = step.decide(alloc, &found.timing, clerk);
    answer(alloc, id, clerk, found, decision)
}
