//! `draft_core`: the seven steps of the transaction, and a draft over a committed set.

use crate::records::{changes, make_words, set};
use draft_core::{
    Changes, DbState, DraftRefusal, Move, Revision, Timing, Verdict, abandon, begin, check, commit,
    edit, overlay, reopen, verify,
};
use signal_records::TimingSet;
use std::alloc::Global;
use std::test::Fail;

/// The timing of an intersection in state Normal, by its fields.
fn normal(alloc: Global) -> Result<Timing, Fail> {
    Ok(Timing {
        revision: Revision::new(4).ok_or("a revision")?,
        holder: None,
        committed: TimingSet::new(alloc),
        delta: Changes::new(Vec::new(alloc)),
    })
}

/// The number of a refusal; 0 for a step that begins a transaction, 1 for any other step.
fn number(answer: Result<Move, DraftRefusal>) -> u32 {
    match answer {
        Ok(
            Move {
                state: DbState::Transaction,
                verdict: Verdict::NotDone,
                ..
            },
        ) => 0,
        Ok(_) => 1,
        Err(refusal) => refusal.number(),
    }
}

/// The outcome of each step.
fn steps(alloc: Global, timing: &Timing) -> Result<[u32; 7], Fail> {
    let clerk = make_words(alloc, "Ana")?;
    let changes = changes(alloc)?;
    Ok([
        number(begin(alloc, timing, &clerk)),
        number(edit(alloc, timing, &clerk, &changes)),
        number(verify(alloc, timing, &clerk)),
        number(check(alloc, timing, &clerk)),
        number(commit(alloc, timing, &clerk)),
        number(reopen(alloc, timing, &clerk)),
        number(abandon(alloc, timing, &clerk)),
    ])
}

#[test]
fn transaction(rt: HostRuntime) -> Result<(), Fail> {
    let alloc = rt.alloc();
    let came = steps(alloc, &normal(alloc)?)?;
    assert_eq!(rt; came, [0, 13, 13, 15, 16, 16, 13]);
    let whole: TimingSet = overlay(alloc, &TimingSet::new(alloc), &changes(alloc)?)?;
    assert_eq!(rt; whole.rows(alloc)?.len(), set(alloc)?.rows(alloc)?.len());
    Ok(())
}
