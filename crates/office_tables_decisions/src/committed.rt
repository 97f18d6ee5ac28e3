//! The committed set of an intersection, as it is read.
ghost use Rattle.std.specs.Prelude.{⊤};
ghost use Rattle.office_tables_shelf.specs.Damage.{HasDamagedTiming};
ghost use Rattle.office_tables_decisions.specs.{Committed.IsCommittedSet, Reads.OnlyReads, Reads.Reports};

use office_tables_shelf::shelf::{Shelf, ShelfFault};
use signal_records::{InterId, TimingSet};
use std::alloc::Global;

/// The plan that an intersection's controller should run: its committed set. Its draft is not
/// looked at.
pub fn committed_set<S: Shelf>(
    shelf: &mut S,
    alloc: Global,
    id: InterId,
) -> Result<TimingSet, ShelfFault>
    ensures set { Reports (S.is_honest shelf.new) result (IsCommittedSet (S.content shelf.old) id)
        (HasDamagedTiming (S.content shelf.old) id) }
    ensures reads { OnlyReads S.Shelf ⊤ result shelf.old shelf.new }
{
    let rows = shelf.timing_rows(alloc, id)?;
    let set = TimingSet::of_rows(alloc, rows)?;
    Ok(set)
}
