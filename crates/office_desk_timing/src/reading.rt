//! The reading of an intersection and, as far as is asked for, of its timing.
ghost use Rattle.std.specs.Prelude.{⊤, ◌≢◌};
ghost use Rattle.office_tables_shelf.specs.{Damage.HasDamagedIntersection, Shelf.ReadsIntersection};
ghost use Rattle.office_tables_decisions.specs.{Damage.HasDamageIn, Damage.HasDamagedPlan, Reads.OnlyReads, Reads.Reports};
ghost use Rattle.office_desk_timing.specs.Reading.{Finds, ReadsPlan};

use draft_core::{Changes, Reach, Timing};
use office_tables_decisions::committed::committed_set;
use office_tables_shelf::rows::IntersectionRow;
use office_tables_shelf::shelf::{Shelf, ShelfFault};
use signal_records::{InterId, Interval, TimingSet, Words};
use std::alloc::Global;

/// An intersection as it was read. Its timing lacks the committed set, or the draft rows too, where
/// these were not asked for.
#[derive(Drop)]
pub struct ReadIntersection {
    pub name: Words<120>,
    /// Days from one inspection of its cabinet to the next.
    pub interval: Interval,
    pub timing: Timing,
}

/// The row of an intersection, if there is one.
pub fn intersection_row<S: Shelf>(
    shelf: &mut S,
    alloc: Global,
    id: InterId,
) -> Result<Option<IntersectionRow>, ShelfFault>
    ensures row { Reports (S.is_honest shelf.new) result
        (ReadsIntersection (S.content shelf.old) id)
        (HasDamagedIntersection (S.content shelf.old) id) }
    ensures reads { OnlyReads S.Shelf ⊤ result shelf.old shelf.new }
{
    let row = shelf.intersection(alloc, id)?;
    Ok(row)
}

/// The committed set and the draft rows of an intersection: both by `Plan`, only the draft rows by
/// `Drafts`, none by `Row`. What is not asked for is not read, and empty.
fn plan<S: Shelf>(
    shelf: &mut S,
    alloc: Global,
    id: InterId,
    reach: Reach,
) -> Result<(TimingSet, Changes), ShelfFault>
    ensures plan { Reports (S.is_honest shelf.new) result
        (λ read. ReadsPlan reach (S.content shelf.old) id read.0 read.1)
        (HasDamagedPlan reach (S.content shelf.old) id) }
    ensures reads { OnlyReads S.Shelf (reach ≢ Reach.Row) result shelf.old shelf.new }
{
    let committed = match reach {
        Reach::Row => return Ok((TimingSet::new(alloc), Changes::new(Vec::new(alloc)))),
        Reach::Drafts => TimingSet::new(alloc),
        Reach::Plan => committed_set(shelf, alloc, id)?,
    };
    let changes = shelf.draft_rows(alloc, id)?;
    Ok((committed, Changes::new(changes)))
}

/// Reads an intersection, if there is one, and of its plan as much as is asked for; the rest of the
/// plan is left empty.
pub(crate) fn find<S: Shelf>(
    shelf: &mut S,
    alloc: Global,
    id: InterId,
    reach: Reach,
) -> Result<Option<ReadIntersection>, ShelfFault>
    ensures found { Reports (S.is_honest shelf.new) result
        (Finds reach (S.content shelf.old) id) (HasDamageIn reach (S.content shelf.old) id) }
    ensures reads { OnlyReads S.Shelf ⊤ result shelf.old shelf.new }
{
    let Some(row) = intersection_row(shelf, alloc, id)? else {
        return Ok(None);
    };
    let (committed, delta) = plan(shelf, alloc, id, reach)?;
    let timing = Timing {
        revision: row.revision,
        holder: row.holder,
        committed,
        delta,
    };
    Ok(Some(ReadIntersection {
        name: row.name,
        interval: row.interval,
        timing,
    }))
}
