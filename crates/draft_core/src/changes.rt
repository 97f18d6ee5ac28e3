//! A list of changes of a timing set.

ghost use Rattle.draft_core.specs.Within.{AreChangesWithin};

use signal_records::{Change, change_is_within};
use std::marker::Model;

/// Changes of a timing set, in their order: what an edit asks for, or the rows of a draft. It is
/// seen as a list.
#[derive(Drop)]
pub struct Changes {
    list: Vec<Change>,
}

impl Model for Changes {
    ghost use Rattle.std.specs.Prelude.{List};
    ghost use Rattle.signal_records.specs.declared.record.Change.{Change};
    ghost use Rattle.draft_core.specs.Within.{AreChangesWithin};

    ghost Value = { List Change };

    ghost view = { λ c. c.list.items };

    ghost invariant = { λ c. AreChangesWithin c.list.items };
}

/// Shows of every change that it is within its limits, which its type ensures.
fn are_within(changes: &[Change])
    ensures { AreChangesWithin changes.now }
{
    for change in changes {
        change_is_within(change);
    }
}

impl Changes {
    ghost use Rattle.std.specs.Prelude.{◌≡◌};
    ghost use Rattle.draft_core.specs.Within.{AreChangesWithin};

    /// The changes of a list, in its order.
    pub fn new(list: Vec<Change>) -> Changes
        ensures list { result ≡ list.items }
        ensures within { AreChangesWithin result }
    {
        are_within(list.as_slice());
        Changes { list }
    }

    /// The changes, each of them within its limits.
    pub fn as_slice(&self) -> &[Change]
        ensures list { result.now ≡ self.now }
        ensures within { AreChangesWithin self.now }
    {
        self.list.as_slice()
    }
}
