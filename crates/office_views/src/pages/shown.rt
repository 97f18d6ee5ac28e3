//! What the pages show.

use cabinet_core::{Day, latest, open_count};
use office_machine::intersections::ListedIntersection;
use office_machine::orders::NamedOrder;
use office_machine::reply::{CabinetShown, IntersectionState};
use signal_plans::Warning;
use signal_records::{Listing, NoMemory, TimingSet};

/// An intersection as the office's queries State, Timing, Draft and Cabinet show it.
#[derive(Clone, Copy)]
pub struct IntersectionShown<'a> {
    pub state: &'a IntersectionState,
    /// The committed plan.
    pub committed: &'a TimingSet,
    /// The warnings of the committed plan.
    pub warnings: &'a [Warning],
    /// The draft, if a clerk holds one.
    pub draft: Option<&'a TimingSet>,
    pub cabinet: &'a CabinetShown,
}

/// An intersection as the index page shows it.
#[derive(Drop)]
pub struct IndexEntry {
    pub listed: ListedIntersection,
    /// The day of the latest inspection, if there was one.
    pub last: Option<Day>,
    /// How many orders on the intersection are open.
    pub open_orders: usize,
    /// How many warnings the intersection's committed plan has.
    pub warnings: usize,
}

/// What the index page shows of an office, besides its stock.
#[derive(Drop)]
pub struct IndexShown {
    /// The intersections, by their numbers.
    pub entries: Listing<IndexEntry>,
    /// The open orders on all intersections.
    pub orders: Listing<NamedOrder>,
}

/// Appends what the index shows of a listed intersection, by what the register holds of it, and by
/// how many warnings its committed plan has.
pub fn add_entry(
    found: &mut Vec<IndexEntry>,
    listed: &ListedIntersection,
    cabinet: &CabinetShown,
    warnings: usize,
) -> Result<(), NoMemory> {
    let holder = match &listed.holder {
        None => None,
        Some(holder) => Some(holder.clone()?),
    };
    let listed = ListedIntersection {
        id: listed.id,
        name: listed.name.clone()?,
        interval: listed.interval,
        revision: listed.revision,
        holder,
        rows: listed.rows,
    };
    let entry = IndexEntry {
        listed,
        last: latest(cabinet.view.inspections.as_slice()),
        open_orders: open_count(cabinet.view.orders.as_slice()),
        warnings,
    };
    found.push(entry)?;
    Ok(())
}
