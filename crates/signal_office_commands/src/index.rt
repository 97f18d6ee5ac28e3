//! The index of all intersections.
#![tactic(auto, using(office_desk::proofs::Looks::keeps, office_desk::proofs::Looks::keeps_then, office_desk::proofs::Looks::keeps_none))]

ghost use Rattle.office_desk.specs.Asks.{KeepsOffice};

use crate::reads::{or_fault, read_intersections};
use crate::reporting::Report;
use cabinet_core::Day;
use office_desk::office::Office;
use office_machine::intersections::ListedIntersection;
use office_machine::orders::{NamedOrder, add_named};
use office_machine::reply::CabinetShown;
use office_tables_shelf::shelf::Shelf;
use office_views::{IndexEntry, IndexShown, add_entry, index_page};
use signal_office_faults::{Done, Fault};
use signal_plans::warnings;
use signal_records::{InterId, Listing, NoMemory};
use std::alloc::Global;

/// What an index shows of the intersections that were gathered so far.
#[derive(Drop)]
pub(crate) struct Gathered {
    entries: Vec<IndexEntry>,
    orders: Vec<NamedOrder>,
}

impl Gathered {
    pub(crate) fn new(alloc: Global) -> Gathered {
        Gathered {
            entries: Vec::new(alloc),
            orders: Vec::new(alloc),
        }
    }

    /// Adds an intersection with its cabinet and the number of warnings of its committed plan.
    pub(crate) fn add(
        &mut self,
        listed: &ListedIntersection,
        cabinet: &CabinetShown,
        warnings: usize,
    ) -> Result<(), NoMemory> {
        add_entry(&mut self.entries, listed, cabinet, warnings)?;
        let orders = cabinet.view.orders.as_slice();
        add_named(&mut self.orders, &listed.name, cabinet.id, orders)
    }

    fn into_shown(self) -> IndexShown {
        let Gathered { entries, orders } = self;
        IndexShown {
            entries: Listing::new(entries),
            orders: Listing::new(orders),
        }
    }
}

/// The index page over what was gathered; if a day is given, intersections that are overdue for
/// inspection on it come first and are marked.
pub(crate) fn index_over<S: Shelf>(
    alloc: Global,
    office: &mut Office<S>,
    gathered: Gathered,
    day: Option<Day>,
) -> Result<Vec<u8>, Fault>
    ensures { KeepsOffice S.Shelf office.old office.new }
{
    let stock = or_fault(office.stock(alloc))?;
    Ok(index_page(alloc, &gathered.into_shown(), stock.as_slice(), day)?)
}

/// How many warnings the committed plan of an intersection has.
fn count_warnings<S: Shelf>(
    alloc: Global,
    office: &mut Office<S>,
    id: InterId,
) -> Result<usize, Fault>
    ensures { KeepsOffice S.Shelf office.old office.new }
{
    let timing = or_fault(office.timing(alloc, id))?;
    Ok(warnings(alloc, &timing.rows)?.len())
}

/// Reads what the index shows of an intersection, and adds it.
fn gather<S: Shelf>(
    alloc: Global,
    office: &mut Office<S>,
    gathered: &mut Gathered,
    listed: &ListedIntersection,
) -> Result<(), Fault>
    ensures { KeepsOffice S.Shelf office.old office.new }
{
    let cabinet = or_fault(office.cabinet(alloc, listed.id))?;
    let warnings = count_warnings(alloc, office, listed.id)?;
    Ok(gathered.add(listed, &cabinet, warnings)?)
}

/// What the index shows of these intersections.
fn gather_all<S: Shelf>(
    alloc: Global,
    office: &mut Office<S>,
    listed: &[ListedIntersection],
) -> Result<Gathered, Fault>
    ensures { KeepsOffice S.Shelf office.old office.new }
{
    let mut gathered = Gathered::new(alloc);
    for one in listed {
        gather(alloc, office, &mut gathered, one)?;
    }
    Ok(gathered)
}

/// The index page of all intersections.
pub(crate) fn index<S: Shelf>(alloc: Global, office: &mut Office<S>, day: Option<Day>) -> Report
    ensures { KeepsOffice S.Shelf office.old office.new }
{
    let listed = read_intersections(alloc, office)?;
    let gathered = gather_all(alloc, office, &listed)?;
    Ok(Done::with(index_over(alloc, office, gathered, day)?))
}
