//! What is kept of an intersection's timing, and what a decision changes of it.

use crate::changes::Changes;
use crate::revision::Revision;
use crate::state::{DbState, Holder, Holding, Verdict};
use signal_records::{Change, Key, Listing, Row, TimingSet};

/// The timing side of an intersection, as it is kept: the draft as its changed rows.
#[derive(Drop)]
pub struct Timing {
    /// How often the set was committed.
    pub revision: Revision,
    /// Who holds the draft, and how far it has come; nobody in state Normal.
    pub holder: Option<Holder>,
    /// The committed set.
    pub committed: TimingSet,
    /// The draft rows: what the draft changes of the committed set.
    pub delta: Changes,
}

/// How much of a timing side a step of the transaction reads. The rest may be left out.
#[derive(Clone, Copy, PartialEq, Eq)]
pub enum Reach {
    /// The revision and the holder, which stand in the intersection's own row.
    Row,
    /// The draft rows too.
    Drafts,
    /// The draft rows and the committed set too.
    Plan,
}

/// A row that a decision changes.
#[derive(Drop)]
pub enum TimingChange {
    /// A timing row is added, where none stands under its key.
    CommittedNew(Row),
    /// A timing row is put or removed.
    Committed(Change),
    /// A draft row that keeps the change is added, where its key has none.
    DraftedNew(Change),
    /// A draft row keeps the change.
    Drafted(Change),
    /// The draft row under the key goes.
    DraftGone(Key),
    /// All draft rows go, which are so many.
    DraftDropped(usize),
}

/// Rows that a decision changes, in their order.
pub type TimingChanges = Listing<TimingChange>;

/// What a step of the transaction makes of a timing side.
#[derive(Drop)]
pub struct Move {
    /// The revision after the step.
    pub revision: Revision,
    /// What becomes of who holds the draft.
    pub holder: Holding,
    /// The state after the step, which follows from the holder.
    pub state: DbState,
    /// The verdict on the draft after the step.
    pub verdict: Verdict,
    /// The rows to be changed, in their order.
    pub changes: TimingChanges,
}
