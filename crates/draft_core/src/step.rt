//! The steps of the transaction: a line of its table for each.

ghost use Rattle.draft_core.specs.{Steps.Takes, Steps.asked_changes, Steps.reach_of, Within.AreChangesWithin};

use crate::changes::Changes;
use crate::decide::{abandon, begin, check, commit, edit, reopen, verify};
use crate::refusal::DraftRefusal;
use crate::timing::{Move, Reach, Timing};
use signal_records::Words;
use std::alloc::Global;
use std::marker::Model;

/// What an edit asks for: changes, in their order. It is seen as a list.
#[derive(Drop)]
pub struct Edits<'a> {
    changes: &'a Changes,
}

impl<'a> Model for Edits<'a> {
    ghost use Rattle.std.specs.Prelude.{List};
    ghost use Rattle.signal_records.specs.declared.record.Change.{Change};

    ghost Value = { List Change };

    ghost view = { λ edits. edits.changes.now };
}

/// A step of the transaction.
#[derive(Drop)]
pub enum Step<'a> {
    Begin,
    Edit(Edits<'a>),
    Verify,
    Check,
    Commit,
    Reopen,
    Abandon,
}

impl<'a> Step<'a> {
    ghost use Rattle.std.specs.Prelude.{◌≡◌};

    /// The edit that asks for these changes.
    pub fn edit(changes: &'a Changes) -> Step<'a>
        ensures { result ≡ Step.Edit changes.now }
    {
        Step::Edit(Edits { changes })
    }

    /// How much of a timing side the step reads.
    pub fn reach(&self) -> Reach
        ensures { result ≡ reach_of self.now }
    {
        match self {
            Step::Begin | Step::Verify | Step::Reopen => Reach::Row,
            Step::Abandon => Reach::Drafts,
            Step::Edit(_) | Step::Check | Step::Commit => Reach::Plan,
        }
    }

    /// Decides on the step for a clerk. Of the timing, only what the step reads need be there. The
    /// error is the first refusal of the step's line of the transaction table, or want of memory.
    pub fn decide(
        &self,
        alloc: Global,
        timing: &Timing,
        clerk: &Words<40>,
    ) -> Result<Move, DraftRefusal>
        ensures takes { Takes self.now timing.now clerk.now result }
        ensures within { AreChangesWithin (asked_changes self.now) }
    {
        match self {
            Step::Begin => begin(alloc, timing, clerk),
            Step::Edit(edits) => edit(alloc, timing, clerk, edits.changes.as_slice()),
            Step::Verify => verify(alloc, timing, clerk),
            Step::Check => check(alloc, timing, clerk),
            Step::Commit => commit(alloc, timing, clerk),
            Step::Reopen => reopen(alloc, timing, clerk),
            Step::Abandon => abandon(alloc, timing, clerk),
        }
    }
}
