//! The transaction table as decisions: what each command changes, or why it is refused; and a
//! revision, by which a clerk takes a draft up, edits it, and commits it, in one step.

ghost use Rattle.std.specs.Prelude.{◌≡◌, [], IfErr, IfOk, List, ℕ};
ghost use Rattle.signal_records.specs.TimingSet.{after_changes};
ghost use Rattle.signal_rules.specs.Violations.{violations_of};
ghost use Rattle.draft_core.specs.{Transaction.TimingSide, Transaction.Draft, Transaction.committed_with, DraftRows.RowsByKey, DraftRows.Stands, Moves.Follows, Revising.Revises, Steps.IsUnsettled, Steps.Takes, Drafting.commit_rows};
ghost use Rattle.signal_records.specs.declared.state.DbState.TheVariants as state;
ghost use Rattle.draft_core.specs.Moves as moves;

use crate::drafting::{commit_rows, draft_changes};
use crate::holding::{state_after, take_up, test_owner};
use crate::overlaying::{verdict_on, violations_after};
use crate::refusal::DraftRefusal;
use crate::revision::Revision;
use crate::state::{Holding, Stage, Verdict};
use crate::step::Step;
use crate::timing::{Move, Reach, Timing, TimingChanges};
use signal_records::{Change, Words};
use std::alloc::Global;

/// A move to the state that follows from who holds the draft.
fn moves_to(revision: Revision, holder: Holding, verdict: Verdict, changes: TimingChanges) -> Move
    ensures { result ≡ moves.move_to revision holder verdict changes }
{
    Move {
        revision,
        holder,
        state: state_after(holder),
        verdict,
        changes,
    }
}

/// A move that writes no row.
fn stays(alloc: Global, timing: &Timing, holder: Holding, verdict: Verdict) -> Move
    ensures { result ≡ moves.move_to timing.now.revision holder verdict [] }
{
    let changes = TimingChanges::new(Vec::new(alloc));
    moves_to(timing.revision, holder, verdict, changes)
}

/// The clerk becomes the owner of a draft, which equals the committed set.
///
/// `NotNormal` in each state but Normal.
pub fn begin(alloc: Global, timing: &Timing, _clerk: &Words<40>) -> Result<Move, DraftRefusal>
    ensures { Takes Step.Begin timing.now _clerk.now result }
{
    let None = &timing.holder else {
        return Err(DraftRefusal::NotNormal);
    };
    Ok(stays(alloc, timing, Holding::Begun, Verdict::NotDone))
}

/// Makes changes to the draft. A draft row is kept of each key at which the draft then differs from
/// what is committed, of those that the changes name; the others have what they had.
///
/// `NotTransaction` in each state but Transaction, and then `NotOwner` for another clerk;
/// `NoMemory` where a growth was refused.
pub fn edit(
    alloc: Global,
    timing: &Timing,
    clerk: &Words<40>,
    changes: &[Change],
) -> Result<Move, DraftRefusal>
    ensures { Takes (Step.Edit changes.now) timing.now clerk.now result }
{
    let wrong = DraftRefusal::NotTransaction;
    test_owner(&timing.holder, Stage::Transaction, wrong, clerk)?;
    let changes = draft_changes(alloc, timing, changes)?;
    let editing = Holding::Kept(Stage::Transaction);
    Ok(moves_to(timing.revision, editing, Verdict::NotDone, changes))
}

/// Ends the editing: the draft waits to be checked.
///
/// `NotTransaction` in each state but Transaction, and then `NotOwner` for another clerk.
pub fn verify(alloc: Global, timing: &Timing, clerk: &Words<40>) -> Result<Move, DraftRefusal>
    ensures { Takes Step.Verify timing.now clerk.now result }
{
    let wrong = DraftRefusal::NotTransaction;
    test_owner(&timing.holder, Stage::Transaction, wrong, clerk)?;
    let waiting = Holding::Kept(Stage::Verify);
    Ok(stays(alloc, timing, waiting, Verdict::NotDone))
}

/// Checks the draft: the verdict says whether it breaks rules. The committed set must break none.
///
/// `NotVerify` in each state but Verify, and then `NotOwner` for another clerk; `NoMemory` where a
/// growth was refused.
pub fn check(alloc: Global, timing: &Timing, clerk: &Words<40>) -> Result<Move, DraftRefusal>
    ensures { Takes Step.Check timing.now clerk.now result }
{
    let wrong = DraftRefusal::NotVerify;
    test_owner(&timing.holder, Stage::Verify, wrong, clerk)?;
    let found = violations_after(alloc, &timing.committed, timing.delta.as_slice())?;
    let verdict = verdict_on(found.as_slice());
    Ok(stays(alloc, timing, Holding::Kept(Stage::Done), verdict))
}

/// Makes the draft the committed set, and raises the revision by one. The set that was committed
/// before must break no rule.
///
/// `NotDone` in each state but Done, `NotOwner` for another clerk, `VerifyFailed` for a draft that
/// breaks rules, and `RevisionFull` at the last revision, in this order; `NoMemory` where a growth
/// was refused, which comes after `NotOwner`.
pub fn commit(alloc: Global, timing: &Timing, clerk: &Words<40>) -> Result<Move, DraftRefusal>
    ensures { Takes Step.Commit timing.now clerk.now result }
{
    test_owner(&timing.holder, Stage::Done, DraftRefusal::NotDone, clerk)?;
    let found = violations_after(alloc, &timing.committed, timing.delta.as_slice())?;
    if !found.is_empty() {
        return Err(DraftRefusal::VerifyFailed(found.len()));
    }
    commit_settled(alloc, timing, timing.delta.as_slice())
}

/// Makes these changes in the committed set, at the next revision, and drops the draft rows. That
/// they break no rule was tested before. It is refused at the last revision, and for want of
/// memory.
fn commit_settled(alloc: Global, timing: &Timing, settled: &[Change]) -> Result<Move, DraftRefusal>
    ensures line { (rows : RowsByKey) (side : TimingSide) (draft : Draft) (clerk : List ℕ) →
        Stands Reach.Plan timing.now rows side →
        after_changes timing.now.committed settled.now ≡ draft.set →
        Follows rows side clerk result (committed_with side draft []) }
    ensures refuses { IfErr result IsUnsettled }
    ensures state { IfOk result (λ move. move.state ≡ state.Normal) }
    ensures writes { IfOk result (λ move.
        move.changes ≡ commit_rows timing.now.committed timing.now.delta settled.now) }
{
    let Some(revision) = timing.revision.next() else {
        return Err(DraftRefusal::RevisionFull);
    };
    let changes = commit_rows(alloc, &timing.committed, timing.delta.as_slice(), settled)?;
    Ok(moves_to(revision, Holding::Dropped, Verdict::NotDone, changes))
}

/// Goes back to editing. The draft is kept.
///
/// `NotDone` in each state but Done, and then `NotOwner` for another clerk.
pub fn reopen(alloc: Global, timing: &Timing, clerk: &Words<40>) -> Result<Move, DraftRefusal>
    ensures { Takes Step.Reopen timing.now clerk.now result }
{
    test_owner(&timing.holder, Stage::Done, DraftRefusal::NotDone, clerk)?;
    let editing = Holding::Kept(Stage::Transaction);
    Ok(stays(alloc, timing, editing, Verdict::NotDone))
}

/// Drops the draft. Any clerk may.
///
/// `NotTransaction` in state Normal; `NoMemory` where a growth was refused.
pub fn abandon(alloc: Global, timing: &Timing, _clerk: &Words<40>) -> Result<Move, DraftRefusal>
    ensures { Takes Step.Abandon timing.now _clerk.now result }
{
    let Some(_) = &timing.holder else {
        return Err(DraftRefusal::NotTransaction);
    };
    let changes = commit_rows(alloc, &timing.committed, timing.delta.as_slice(), &[])?;
    Ok(moves_to(timing.revision, Holding::Dropped, Verdict::NotDone, changes))
}

/// Revises the plan of an intersection. The clerk takes up the draft, or begins one where nobody
/// holds one, and makes these edits to it. With `commit`, if it then breaks no rule, it becomes the
/// committed set, and no draft row is written; else it stays open. The edits make of the draft, or
/// of the committed set where there is none, what `settled` makes of the committed set, which
/// breaks no rule; the keys of `settled` are in order.
///
/// `NotOwner` where another clerk holds the draft, `RevisionFull` for a commit at the last
/// revision, and `NoMemory` where a growth was refused.
pub fn revise(
    alloc: Global,
    timing: &Timing,
    clerk: &Words<40>,
    edits: &[Change],
    settled: &[Change],
    commit: bool,
) -> Result<Move, DraftRefusal>
    ensures { Revises timing.now clerk.now edits.now settled.now commit result }
{
    let holder = take_up(&timing.holder, clerk)?;
    if commit && violations_after(alloc, &timing.committed, settled)?.is_empty() {
        return commit_settled(alloc, timing, settled);
    }
    let rows = draft_changes(alloc, timing, edits)?;
    Ok(moves_to(timing.revision, holder, Verdict::NotDone, rows))
}
