//! Why a command of the transaction is refused: one table of numbers and names.

ghost use Rattle.std.specs.Prelude.{◌≡◌};
ghost use Rattle.draft_core.specs.Refusal.{line_of};

use signal_records::NoMemory;

/// Why a command of the transaction is refused.
#[derive(Clone, Copy, Debug, PartialEq, Eq)]
pub enum DraftRefusal {
    /// A transaction is under way.
    NotNormal,
    /// There is no draft that can be changed.
    NotTransaction,
    /// Another clerk holds the draft.
    NotOwner,
    /// The draft does not wait to be checked.
    NotVerify,
    /// The draft was not checked.
    NotDone,
    /// The draft breaks rules: how many violations it has.
    VerifyFailed(usize),
    /// The set was committed as often as can be counted: 999,999 times.
    RevisionFull,
    /// A growth was refused.
    NoMemory,
}

impl DraftRefusal {
    /// The refusal's number and name.
    fn line(self) -> (u32, &'static str)
        ensures number { result.0 ≡ (line_of self).0 }
        ensures name { result.1.now ≡ (line_of self).1 }
    {
        match self {
            DraftRefusal::NotNormal => (12, "NotNormal"),
            DraftRefusal::NotTransaction => (13, "NotTransaction"),
            DraftRefusal::NotOwner => (14, "NotOwner"),
            DraftRefusal::NotVerify => (15, "NotVerify"),
            DraftRefusal::NotDone => (16, "NotDone"),
            DraftRefusal::VerifyFailed(_) => (17, "VerifyFailed"),
            DraftRefusal::RevisionFull => (18, "RevisionFull"),
            DraftRefusal::NoMemory => (90, "Unavailable"),
        }
    }

    /// The refusal's number, by which clients know it: 12 to 18, or 90 for want of memory.
    pub fn number(self) -> u32
        ensures { result ≡ (line_of self).0 }
    {
        self.line().0
    }

    /// The refusal's name, as answers show it.
    pub fn name(self) -> &'static str
        ensures { result.now ≡ (line_of self).1 }
    {
        self.line().1
    }
}

impl From<NoMemory> for DraftRefusal {
    ghost use Rattle.std.specs.Prelude.{◌≡◌};
    ghost use Rattle.draft_core.specs.declared.refusal.DraftRefusal.TheVariants.{
      NoMemory as OutOfMemory,
    };

    ghost from_gives = { λ _ refusal. refusal ≡ OutOfMemory };

    fn from(_refused: NoMemory) -> DraftRefusal {
        DraftRefusal::NoMemory
    }
}
