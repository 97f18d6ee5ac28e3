//! Records kept in trees, each under its place: a function each to find, put, remove and list
//! records and to copy a tree, the same for every kind of record.

ghost use Rattle.std.specs.Prelude.{◌≡◌, OnOk, IfOk, IfSome, map};
ghost use Rattle.std.specs.{List.AllByRecursion, Option.option_map};
ghost use Rattle.office_tables_maps.specs.Stored.{ArePlaced, Stored, stored_rows};
ghost use Rattle.std.specs.FinMap as finite;

use crate::place::TreePlace;
use signal_records::NoMemory;
use std::alloc::{AllocError, Global};
use std::collections::BTreeMap;

/// A record that a tree keeps under its place.
pub(crate) trait Kept: Sized + Drop {
    /// Where a record is kept.
    type Place;

    /// The own place of each record, the other cells of its row, and its limits.
    ghost stored: { Stored Self.Place Self };

    /// A copy of the record. It is within its limits, as each value of its type is.
    fn copy(&self) -> Result<Self, AllocError>
        ensures same { IfOk result (λ copy. copy ≡ self.now) }
        ensures within { IfOk result stored.is_within };
}

/// Puts a copy of a record under its place, instead of the one that stands there, if there is one.
pub(crate) fn put<T: Kept>(
    rows: &mut BTreeMap<T::Place, T>,
    place: T::Place,
    kept: &T,
) -> Result<(), NoMemory>
where
    T::Place: TreePlace,
    requires own { T.stored.own place kept.now ≡ place }
    requires limits { T.Place.places.is_place place }
    ensures rows { OnOk result (stored_rows T.Place.places T.stored rows.new.entries
        ≡ finite.insert (stored_rows T.Place.places T.stored rows.old.entries)
        (T.Place.places.cells (T.stored.own place kept.now))
        (T.stored.columns kept.now)) }
    ensures placed { ArePlaced T.Place.places T.stored rows.old.entries →
        ArePlaced T.Place.places T.stored rows.new.entries }
{
    let copy = kept.copy()?;
    rows.insert(place, copy)?;
    Ok(())
}

/// A copy of the record at a place, if there is one.
pub(crate) fn find<T: Kept>(
    rows: &BTreeMap<T::Place, T>,
    place: &T::Place,
) -> Result<Option<T>, NoMemory>
where
    T::Place: TreePlace,
    ensures stored { IfOk result (λ found.
        finite.get (stored_rows T.Place.places T.stored rows.now.entries)
        (T.Place.places.cells place.now) ≡ option_map T.stored.columns found) }
    ensures keyed { IfOk result (λ found. ArePlaced T.Place.places T.stored rows.now.entries →
        IfSome found (λ x. T.stored.own place.now x ≡ place.now)) }
    ensures within { IfOk result (λ found. IfSome found T.stored.is_within) }
{
    match rows.get(place) {
        Some(record) => Ok(Some(record.copy()?)),
        None => Ok(None),
    }
}

/// Removes the record at a place, if there is one.
pub(crate) fn remove<T: Kept>(rows: &mut BTreeMap<T::Place, T>, place: &T::Place)
where
    T::Place: TreePlace,
    ensures rows { stored_rows T.Place.places T.stored rows.new.entries
        ≡ finite.remove (stored_rows T.Place.places T.stored rows.old.entries)
        (T.Place.places.cells place.now) }
    ensures placed { ArePlaced T.Place.places T.stored rows.old.entries →
        ArePlaced T.Place.places T.stored rows.new.entries }
{
    rows.remove(place);
}

/// Copies of all records with their places, in the order of these.
pub(crate) fn list_all<T: Kept>(
    alloc: Global,
    rows: &BTreeMap<T::Place, T>,
) -> Result<Vec<(T::Place, T)>, NoMemory>
where
    T::Place: TreePlace,
    ensures rows { IfOk result (λ list.
        map (λ e. (T.Place.places.cells e.0, T.stored.columns e.1)) list.items
        ≡ finite.entries (stored_rows T.Place.places T.stored rows.now.entries)) }
    ensures within { IfOk result (λ list. ArePlaced T.Place.places T.stored rows.now.entries →
        AllByRecursion (λ e. T.Place.places.is_place e.0 × T.stored.is_within e.1) list.items) }
{
    let mut list = Vec::new(alloc);
    for (place, kept) in rows {
        let at = place.copy()?;
        let record = kept.copy()?;
        list.push((at, record))?;
    }
    Ok(list)
}

/// A copy of a tree.
#[tactic(auto, using(crate::proofs::TreeRows::put_next))]
pub(crate) fn copied_rows<T: Kept>(
    alloc: Global,
    rows: &BTreeMap<T::Place, T>,
) -> Result<BTreeMap<T::Place, T>, NoMemory>
where
    T::Place: TreePlace,
    ensures { IfOk result (λ copy. copy.entries ≡ rows.now.entries) }
{
    let mut copy = BTreeMap::new(alloc);
    for (place, kept) in rows {
        let at = place.copy()?;
        let record = kept.copy()?;
        copy.insert(at, record)?;
    }
    Ok(copy)
}
