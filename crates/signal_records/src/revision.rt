//! How often a timing set was committed.

ghost use Rattle.std.specs.Prelude.{◌≡◌, ◌≤◌, ◌+◌, ◌↔◌, ◌==◌, if◌then◌else◌, IsSome, IfSome};

use std::marker::Model;

/// The last revision: a set at this one can't be committed again.
pub const LAST_REVISION: u32 = 999_999;

/// How often the timing set of an intersection was committed: 0 to 999,999.
#[derive(Clone, Copy, PartialEq, Eq)]
pub struct Revision {
    number: u32,
}

impl Model for Revision {
    ghost use Rattle.std.specs.Prelude.{ℕ, ◌≤◌};
    ghost use Rattle.signal_records.specs.declared.revision.TheConstants.{LAST_REVISION};

    ghost Value = { ℕ };

    ghost view = { λ r. r.number };

    ghost invariant = { λ r. r.number ≤ LAST_REVISION };

    ghost inverse = { λ n. record { number = n } };
}

impl Revision {
    /// The revision of an intersection for which nothing was committed yet.
    pub fn first() -> Revision
        ensures { result ≡ 0 }
    {
        Revision { number: 0 }
    }

    /// The revision of this number, if it is at most 999,999.
    pub fn new(n: u32) -> Option<Revision>
        ensures accepts { IsSome result ↔ (n ≤ LAST_REVISION) }
        ensures keeps { IfSome result (λ revision. revision ≡ n) }
    {
        if n <= LAST_REVISION {
            Some(Revision { number: n })
        } else {
            None
        }
    }

    /// The next revision, unless this is the last.
    pub fn next(self) -> Option<Revision>
        ensures { result ≡ (if self == LAST_REVISION then None else Some (self + 1)) }
    {
        if self.number == LAST_REVISION {
            None
        } else {
            Some(Revision {
                number: self.number + 1,
            })
        }
    }

    /// The number of the revision, 0 to 999,999.
    pub fn get(self) -> u32
        ensures value { result ≡ self }
        ensures high { result ≤ LAST_REVISION }
    {
        self.number
    }
}
