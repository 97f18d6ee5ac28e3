//! A reply, and what is to be written for it.

use office_machine::refusal::Refusal;
use office_machine::reply::Reply;
use office_tables_shelf::rows::RowChange;
use std::alloc::Global;

/// A reply, and what is to be written for it.
#[derive(Drop)]
pub struct Decided {
    pub reply: Reply,
    /// The rows to be written, in their order; none where the reply is a refusal.
    pub changes: Vec<RowChange>,
}

impl Decided {
    ghost use Rattle.std.specs.Prelude.{◌≡◌, []};
    ghost use Rattle.office_tables_decisions.specs.Changes.{IsRefused};

    /// A refusal, for which nothing is to be written.
    pub fn from_refusal(alloc: Global, refusal: Refusal) -> Decided
        ensures reply { result.reply ≡ Reply.Refused refusal }
        ensures no_changes { result.changes.items ≡ [] }
    {
        Decided::from_reply(alloc, Reply::Refused(refusal))
    }

    /// A reply for which nothing is to be written.
    pub fn from_reply(alloc: Global, reply: Reply) -> Decided
        ensures reply { result.reply ≡ reply }
        ensures no_changes { result.changes.items ≡ [] }
    {
        Decided {
            reply,
            changes: Vec::new(alloc),
        }
    }

    /// The reply to records that were decided in turn, with the rows of all of them; or with none,
    /// if it is a refusal.
    pub fn all_or_none(alloc: Global, reply: Reply, rows: Vec<RowChange>) -> Decided
        ensures reply { result.reply ≡ reply }
        ensures all { ¬ IsRefused reply → result.changes.items ≡ rows.items }
        ensures none { IsRefused reply → result.changes.items ≡ [] }
    {
        match reply {
            Reply::Refused(refusal) => Decided::from_refusal(alloc, refusal),
            reply => Decided {
                reply,
                changes: rows,
            },
        }
    }
}
