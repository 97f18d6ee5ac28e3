//! The intersections that were found in the tables, so that the row of none of them is read twice.
ghost use Rattle.std.specs.Prelude.{◌≡◌, ◌≢◌, true, false, Ok, IfOk, IsSome};
ghost use Rattle.office_tables_decisions.specs.Reads.{OnlyReads, Reports};
ghost use Rattle.office_desk.specs.Recording.{AreFound, HasDamagedAbout, TellsIntersection};

use crate::recording::is_known;
use office_tables_shelf::shelf::{Shelf, ShelfFault};
use signal_records::InterId;
use std::alloc::Global;
use std::collections::BTreeSet;

/// Whether the intersection is there, or none is asked for. The row of one that was found before is
/// not read again, and one that is there now is kept among those that were found.
pub(crate) fn is_found<S: Shelf>(
    shelf: &mut S,
    alloc: Global,
    found: &mut BTreeSet<InterId>,
    about: Option<InterId>,
) -> Result<bool, ShelfFault>
    requires { S.is_honest shelf.old → AreFound (S.content shelf.old) found.old }
    ensures found { IfOk result (λ _. S.is_honest shelf.new →
        AreFound (S.content shelf.old) found.new) }
    ensures tells { Reports (S.is_honest shelf.new) result
        (TellsIntersection (S.content shelf.old) about)
        (HasDamagedAbout (S.content shelf.old) about) }
    ensures asked { result ≡ Ok false → IsSome about }
    ensures reads { OnlyReads S.Shelf (result ≢ Ok true) result shelf.old shelf.new }
{
    let Some(id) = about else {
        return Ok(true);
    };
    if found.contains(&id) {
        return Ok(true);
    }
    if !is_known(shelf, alloc, about)? {
        return Ok(false);
    }
    match found.insert(id) {
        Ok(_) => Ok(true),
        Err(_) => Err(ShelfFault::NoMemory),
    }
}
