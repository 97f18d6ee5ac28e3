//! A set with changes made to it, the violations of that set, and the verdict on a draft.

ghost use Rattle.std.specs.Prelude.{◌≡◌, [], length, map, IfOk};
ghost use Rattle.std.specs.List.{flat_map};
ghost use Rattle.signal_records.specs.TimingSet.{after_changes};
ghost use Rattle.signal_rules.specs.{Counts.RisesAtMost, Touched.IsRightOnTouched, Touched.touched_subjects, Violations.violations_of};
ghost use Rattle.signal_records.specs.ChangedRows as rows;
ghost use Rattle.signal_records.specs.declared.state.Stage.TheVariants as stage;
ghost use Rattle.draft_core.specs.{Transaction.TimingSide, DraftRows.RowsByKey, DraftRows.Stands};
ghost use Rattle.draft_core.specs.Transaction as table;

use crate::state::{Stage, Verdict};
use crate::timing::{Reach, Timing};
use signal_records::{Change, Key, NoMemory, TimingSet, changed_key};
use signal_rules::{Judge, Tally, Violation, violations_touched};
use std::alloc::Global;

/// A copy of the set with changes made to it, in their order. `NoMemory` means that a growth was
/// refused.
pub fn overlay(
    alloc: Global,
    committed: &TimingSet,
    changes: &[Change],
) -> Result<TimingSet, NoMemory>
    ensures { IfOk result (λ set. set ≡ after_changes committed.now changes.now) }
{
    committed.copy(alloc)?.changed(changes)
}

/// A copy of a change. `NoMemory` means that a growth was refused.
pub fn copy_change(change: &Change) -> Result<Change, NoMemory>
    ensures { IfOk result (λ copy. copy ≡ change.now) }
{
    Ok(match change {
        Change::Put(row) => Change::Put(row.clone()?),
        Change::Remove(key) => Change::Remove(*key),
    })
}

/// The keys that changes name.
fn changed_keys(alloc: Global, changes: &[Change]) -> Result<Vec<Key>, NoMemory>
    ensures { IfOk result (λ keys. keys.items ≡ map rows.changed_key changes.now) }
{
    let mut keys = Vec::new(alloc);
    for change in changes {
        keys.push(changed_key(change))?;
    }
    Ok(keys)
}

/// What a judge answers of the subjects that changes touch in a set, once they are made. No other
/// subject is judged. The answers are the violations of that set, where the set before the changes
/// has none and the judge answers these subjects by the rules.
///
/// A refusal may leave the judge's counts raised, within the same bounds.
fn answers_after<J: Judge>(
    alloc: Global,
    committed: &TimingSet,
    changes: &[Change],
    judge: &mut J,
) -> Result<Vec<Violation>, NoMemory>
    ensures answers { IfOk result (λ found. found.items ≡
        flat_map (J.answers (after_changes committed.now changes.now))
        (touched_subjects (after_changes committed.now changes.now)
        (map rows.changed_key changes.now))) }
    ensures whole { violations_of committed.now ≡ [] →
        IsRightOnTouched J.answers (after_changes committed.now changes.now)
        (map rows.changed_key changes.now) →
        IfOk result (λ found.
        found.items ≡ violations_of (after_changes committed.now changes.now)) }
    ensures calls { RisesAtMost (length (touched_subjects
        (after_changes committed.now changes.now) (map rows.changed_key changes.now)))
        (J.calls judge.old) (J.calls judge.new) }
{
    let draft = overlay(alloc, committed, changes)?;
    let keys = changed_keys(alloc, changes)?;
    violations_touched(alloc, committed, &draft, keys.as_slice(), judge)
}

/// The violations of a set after changes, if it has none before them: only the subjects that a
/// change touches are judged.
pub(crate) fn violations_after(
    alloc: Global,
    committed: &TimingSet,
    changes: &[Change],
) -> Result<Vec<Violation>, NoMemory>
    ensures { violations_of committed.now ≡ [] →
        IfOk result (λ found.
        found.items ≡ violations_of (after_changes committed.now changes.now)) }
{
    let mut tally = Tally::new();
    answers_after(alloc, committed, changes, &mut tally)
}

/// The verdict on the draft of an intersection whose committed set breaks no rule. It is computed
/// from the draft each time, and never stored. It is `NotDone` where there is no draft or the draft
/// was not checked. `NoMemory` means that a growth was refused.
pub fn verdict(alloc: Global, timing: &Timing) -> Result<Verdict, NoMemory>
    ensures { (rows : RowsByKey) (side : TimingSide) → Stands Reach.Plan timing.now rows side →
        violations_of side.committed ≡ [] →
        IfOk result (λ verdict. verdict ≡ table.verdict_of side.draft) }
{
    let Some(holder) = &timing.holder else {
        return Ok(Verdict::NotDone);
    };
    match holder.stage {
        Stage::Transaction | Stage::Verify => Ok(Verdict::NotDone),
        Stage::Done => {
            let found = violations_after(alloc, &timing.committed, timing.delta.as_slice())?;
            Ok(verdict_on(found.as_slice()))
        }
    }
}

/// The verdict on a checked draft with these violations.
pub(crate) fn verdict_on(found: &[Violation]) -> Verdict
    ensures { result ≡ table.verdict_on stage.Done found.now }
{
    match found {
        [] => Verdict::DoneWithNoError,
        _ => Verdict::DoneWithError,
    }
}
