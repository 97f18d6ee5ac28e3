//! The rows that an edit writes, which keeps only what changes the committed set, and those that a
//! commit does.

ghost use Rattle.std.specs.Prelude.{◌≡◌, ◌↔◌, IfOk, IsTrue};
ghost use Rattle.draft_core.specs.DraftRows.{row_at};
ghost use Rattle.draft_core.specs.Drafting.{AreNamed, DraftsChanges, SaysCommitted, drafted_as};
ghost use Rattle.draft_core.specs.Drafting as written;

use crate::overlaying::copy_change;
use crate::timing::{Timing, TimingChange, TimingChanges};
use signal_records::{Change, Key, NoMemory, TimingSet, changed_key};
use std::alloc::Global;
use std::collections::BTreeSet;

/// The keys that changes name.
fn named_keys(alloc: Global, changes: &[Change]) -> Result<BTreeSet<Key>, NoMemory>
    ensures { IfOk result (AreNamed changes.now) }
{
    let mut keys = BTreeSet::new(alloc);
    for change in changes {
        keys.insert(changed_key(change))?;
    }
    Ok(keys)
}

/// Whether a change leaves at its key what is committed there.
fn says_committed(committed: &TimingSet, change: &Change) -> bool
    ensures { IsTrue result ↔ SaysCommitted committed.now change.now }
{
    let key = changed_key(change);
    match (committed.get(&key), change) {
        (Some(stands), Change::Put(row)) => stands == row,
        (None, Change::Remove(_)) => true,
        _ => false,
    }
}

/// The change as a draft row, which is new where its key has none.
fn drafted_row(change: &Change, is_new: bool) -> Result<TimingChange, NoMemory>
    ensures { IfOk result (λ drafted. drafted ≡ drafted_as is_new change.now) }
{
    let kept = copy_change(change)?;
    if is_new {
        Ok(TimingChange::DraftedNew(kept))
    } else {
        Ok(TimingChange::Drafted(kept))
    }
}

/// Each change that leaves another row than the committed one is kept as a draft row. Where it
/// leaves the committed one, the draft row of its key goes, if one is there by then. Changes are
/// judged in their order, each against the committed set alone, so the last one of a key decides.
pub(crate) fn draft_changes(
    alloc: Global,
    timing: &Timing,
    changes: &[Change],
) -> Result<TimingChanges, NoMemory>
    ensures { IfOk result
        (DraftsChanges timing.now.committed (row_at timing.now.delta) changes.now) }
{
    let mut drafted = named_keys(alloc, timing.delta.as_slice())?;
    let mut written = Vec::new(alloc);
    for change in changes {
        let key = changed_key(change);
        if !says_committed(&timing.committed, change) {
            let is_new = drafted.insert(key)?;
            written.push(drafted_row(change, is_new)?)?;
        } else if drafted.remove(&key) {
            written.push(TimingChange::DraftGone(key))?;
        }
    }
    Ok(TimingChanges::new(written))
}

/// A change as one of the committed set. A row that it puts is new where none is committed under
/// its key.
fn settled_by(committed: &TimingSet, change: &Change) -> Result<TimingChange, NoMemory>
    ensures { IfOk result (λ settled. settled ≡ written.settled_by committed.now change.now) }
{
    match change {
        Change::Put(row) => match committed.get(&row.key()) {
            Some(_) => Ok(TimingChange::Committed(Change::Put(row.clone()?))),
            None => Ok(TimingChange::CommittedNew(row.clone()?)),
        },
        Change::Remove(key) => Ok(TimingChange::Committed(Change::Remove(*key))),
    }
}

/// What a commit of changes writes over these draft rows: a change that drops them, if there are
/// any, and then each of the changes, in order, as one of the committed set.
pub(crate) fn commit_rows(
    alloc: Global,
    committed: &TimingSet,
    delta: &[Change],
    changes: &[Change],
) -> Result<TimingChanges, NoMemory>
    ensures { IfOk result (λ made.
        made ≡ written.commit_rows committed.now delta.now changes.now) }
{
    let mut made = Vec::new(alloc);
    if !delta.is_empty() {
        made.push(TimingChange::DraftDropped(delta.len()))?;
    }
    for change in changes {
        made.push(settled_by(committed, change)?)?;
    }
    Ok(TimingChanges::new(made))
}
