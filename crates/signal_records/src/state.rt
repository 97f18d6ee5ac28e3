//! The states of the database transaction (NTCIP 1201, `dbCreateTransaction`), and who holds a
//! draft.

use crate::Words;
use std::alloc::AllocError;

/// The states in which a clerk holds the draft.
#[derive(Clone, Copy, PartialEq, Eq)]
pub enum Stage {
    /// The owner edits the draft.
    Transaction,
    /// The draft waits for its check.
    Verify,
    /// The draft was checked.
    Done,
}

/// The four states of the transaction.
#[derive(Clone, Copy, PartialEq, Eq)]
pub enum DbState {
    /// There is no draft.
    Normal,
    /// The owner edits the draft.
    Transaction,
    /// The draft waits for its check.
    Verify,
    /// The draft was checked.
    Done,
}

/// What is known of the draft's consistency (NTCIP 1201, `dbVerifyStatus`). A verdict is never
/// stored.
#[derive(Clone, Copy, PartialEq, Eq)]
pub enum Verdict {
    /// The draft was not checked, or there is none.
    NotDone,
    /// The draft was checked, and breaks a rule.
    DoneWithError,
    /// The draft was checked, and breaks no rule.
    DoneWithNoError,
}

/// Who holds a draft, and how far it has come. There is no holder in state Normal.
#[derive(Drop)]
pub struct Holder {
    /// How far the draft has come.
    pub stage: Stage,
    /// The clerk who began the transaction.
    pub owner: Words<40>,
}

impl Clone for Holder {
    ghost use Rattle.std.specs.Prelude.{◌≡◌};

    ghost is_clone = { λ holder copy. copy ≡ holder };

    fn clone(&self) -> Result<Holder, AllocError> {
        let stage = self.stage;
        let owner = self.owner.clone()?;
        Ok(Holder { stage, owner })
    }
}

/// Who holds the draft after a step; it copies no name.
#[derive(Clone, Copy, PartialEq, Eq)]
pub enum Holding {
    /// The clerk of the command becomes the owner of the draft, in stage Transaction.
    Begun,
    /// The owner of the draft stays, in this stage.
    Kept(Stage),
    /// Nobody holds a draft.
    Dropped,
}
