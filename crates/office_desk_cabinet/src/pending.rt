//! Rows of the register that are to be written, and what stands under its keys once they are.
ghost use Rattle.std.specs.Prelude.{◌≡◌, ◌++◌, [], IfOk, IfSome, IsOkAnd};
ghost use Rattle.office_tables_shelf.specs.Change.{changed_by};
ghost use Rattle.office_tables_shelf.specs.Places.{DamagedAt, IsOfPlace, ReadsAt, found_at, place_of};
ghost use Rattle.office_tables_decisions.specs.Reads.{OnlyReads, Reports};
ghost use Rattle.office_desk_cabinet.specs.Pending.{ComesTo};

use office_tables_maps::maps::Maps;
use office_tables_shelf::register::{RegisterKey, RegisterRecord};
use office_tables_shelf::rows::RowChange;
use office_tables_shelf::shelf::{Shelf, ShelfFault};
use signal_records::NoMemory;
use std::alloc::Global;
use std::marker::Model;

/// Rows that are to be written, in their order, with the last put under each key of the register.
/// Contracts see them as the list of those rows.
#[derive(Drop)]
pub struct Pending {
    changes: Vec<RowChange>,
    /// What the changes make of empty tables.
    puts: Maps,
}

impl Model for Pending {
    ghost use Rattle.std.specs.Prelude.{◌≡◌, List};
    ghost use Rattle.office_tables_shelf.specs.{Change.changed_by, Content.no_content, declared.rows.RowChange.RowChange};

    ghost Value = { List RowChange };

    ghost view = { λ p. p.changes.items };

    ghost invariant = { λ p. p.puts ≡ changed_by no_content p.changes.items };
}

impl Pending {
    /// No rows are to be written.
    pub fn new(alloc: Global) -> Pending
        ensures { result ≡ [] }
    {
        Pending {
            changes: Vec::new(alloc),
            puts: Maps::new(alloc),
        }
    }

    /// The rows to be written until now, and others after them, in order.
    pub fn with(self, mut rows: Vec<RowChange>) -> Result<Pending, NoMemory>
        ensures { IfOk result (λ next. next ≡ self ++ rows.items) }
    {
        let Pending {
            mut changes,
            mut puts,
        } = self;
        puts.make_changes(rows.as_slice())?;
        changes.append(&mut rows)?;
        Ok(Pending { changes, puts })
    }

    /// Rows that come to the same: first one for each part, with its last number, since used parts
    /// and deliveries refer to their part, and then the others in their order.
    pub fn into_changes(self, alloc: Global) -> Result<Vec<RowChange>, NoMemory>
        ensures comes { IfOk result (λ rows. ComesTo self rows.items) }
        ensures none { self ≡ [] → IsOkAnd result (λ rows. rows.items ≡ []) }
    {
        let Pending { mut changes, puts } = self;
        if changes.as_slice().is_empty() {
            return Ok(changes);
        }
        let parts = puts.parts(alloc)?.into_iter();
        let rows = parts.map(|(code, hand)| RowChange::PutPart(code, hand));
        let mut rows: Vec<RowChange> = rows.collect(alloc)?;
        changes.retain(|change| !matches!(change, RowChange::PutPart(..)));
        rows.append(&mut changes)?;
        Ok(rows)
    }
}

/// The record under a key of the register once the pending rows are written, if there is one. The
/// stored row is read only where they put none there.
pub fn record_at<S: Shelf>(
    shelf: &mut S,
    alloc: Global,
    pending: &Pending,
    key: &RegisterKey<'_>,
) -> Result<Option<RegisterRecord>, ShelfFault>
    ensures row { Reports (S.is_honest shelf.new) result
        (λ there. ReadsAt (changed_by (S.content shelf.old) pending.now) (place_of key.now)
        (found_at (place_of key.now) there))
        (DamagedAt (S.content shelf.old) (place_of key.now)) }
    ensures within { IfOk result (λ there. IfSome there (IsOfPlace (place_of key.now))) }
    ensures reads { OnlyReads S.Shelf (pending.now ≡ []) result shelf.old shelf.new }
{
    if let Some(put) = pending.puts.record_at(key)? {
        return Ok(Some(put));
    }
    let before = shelf.record_at(alloc, key)?;
    Ok(before)
}
