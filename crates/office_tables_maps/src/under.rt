//! The records of one intersection, which stand next to each other in a tree: listed, counted and
//! dropped.

ghost use Rattle.std.specs.Prelude.{◌≡◌, ℕ, IfOk, map, length};
ghost use Rattle.std.specs.{List.AllByRecursion, declared.ops.Bound.TheVariants.Included};
ghost use Rattle.office_tables_shelf.specs.{Content.rows_but, Shelf.rows_of};
ghost use Rattle.office_tables_maps.specs.{Records.under_intersection, Stored.ArePlaced, Stored.stored_rows};

use crate::kept::Kept;
use crate::place::Ends;
use signal_records::{InterId, NoMemory};
use std::alloc::Global;
use std::collections::BTreeMap;
use std::ops::Bound;

/// The bounds of all places of an intersection, both included.
fn all_of<K: Ends>(inter: InterId) -> (Bound<(InterId, K)>, Bound<(InterId, K)>)
    ensures { result ≡ (Included (inter, K.keys.first), Included (inter, K.keys.last)) }
{
    let (first, last) = K::ends();
    (
        Bound::Included((inter, first)),
        Bound::Included((inter, last)),
    )
}

/// Copies of the records of an intersection, in the order of their places.
pub(crate) fn list_under<K: Ends, T: Kept<Place = (InterId, K)>>(
    alloc: Global,
    rows: &BTreeMap<(InterId, K), T>,
    inter: InterId,
) -> Result<Vec<T>, NoMemory>
    requires { (k : ℕ × K) (x : T) → T.stored.own k x ≡ T.stored.own (k.0, K.keys.first) x }
    ensures rows { IfOk result (λ list. ArePlaced (under_intersection K.keys) T.stored
        rows.now.entries →
        map (λ x. (
          (under_intersection K.keys).cells (T.stored.own (inter, K.keys.first) x),
          T.stored.columns x,
        )) list.items
        ≡ rows_of inter (stored_rows (under_intersection K.keys) T.stored rows.now.entries)) }
    ensures within { IfOk result (λ list. ArePlaced (under_intersection K.keys) T.stored
        rows.now.entries →
        AllByRecursion T.stored.is_within list.items) }
{
    let mut list = Vec::new(alloc);
    for (_, kept) in rows.range(all_of(inter)) {
        list.push(kept.copy()?)?;
    }
    Ok(list)
}

/// How many records an intersection has.
pub(crate) fn count_under<K: Ends, T: Kept<Place = (InterId, K)>>(
    rows: &BTreeMap<(InterId, K), T>,
    inter: InterId,
) -> usize
    requires { (k : ℕ × K) (x : T) → T.stored.own k x ≡ T.stored.own (k.0, K.keys.first) x }
    ensures { ArePlaced (under_intersection K.keys) T.stored rows.now.entries →
        result ≡ length (rows_of inter (stored_rows (under_intersection K.keys) T.stored
        rows.now.entries)) }
{
    rows.range(all_of(inter)).count()
}

/// Removes the records of an intersection.
pub(crate) fn drop_under<K: Ends, T: Kept<Place = (InterId, K)>>(
    rows: &mut BTreeMap<(InterId, K), T>,
    inter: InterId,
)
    ensures rows { stored_rows (under_intersection K.keys) T.stored rows.new.entries
        ≡ rows_but inter (stored_rows (under_intersection K.keys) T.stored rows.old.entries) }
    ensures placed { ArePlaced (under_intersection K.keys) T.stored rows.old.entries →
        ArePlaced (under_intersection K.keys) T.stored rows.new.entries }
{
    rows.retain(|place, _| place.0 != inter);
}
