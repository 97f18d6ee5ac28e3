//! Folders that are filled with what an office shows.
//!
//! All rows are read twice: first only to check that each is a record, so that no file is put if
//! one is not; then, intersection by intersection, for the texts. So only one text is in memory at
//! a time.
#![tactic(auto, using(office_desk::proofs::Looks::keeps, office_desk::proofs::Looks::keeps_then, office_desk::proofs::Looks::keeps_none))]

ghost use Rattle.office_desk.specs.Asks.{KeepsOffice};

use crate::index::{Gathered, index_over};
use crate::page::{PageRead, read_page};
use crate::reads::{or_fault, read_intersections};
use crate::reporting::report;
use cabinet_core::Day;
use office_desk::office::Office;
use office_machine::intersections::ListedIntersection;
use office_tables_shelf::shelf::Shelf;
use signal_office_faults::{Fault, Folder};
use signal_office_line::{Folder as FolderKind, ListForm, Shown, View};
use signal_plans::warnings;
use signal_records::InterId;
use std::alloc::Global;

/// Reads the plan and the cabinet of an intersection.
fn read_exports<S: Shelf>(alloc: Global, office: &mut Office<S>, id: InterId) -> Result<(), Fault>
    ensures { KeepsOffice S.Shelf office.old office.new }
{
    or_fault(office.timing(alloc, id))?;
    or_fault(office.cabinet(alloc, id))?;
    Ok(())
}

/// Reads all rows that a folder shows of an intersection.
fn read_shown<S: Shelf>(
    alloc: Global,
    office: &mut Office<S>,
    kind: &FolderKind,
    id: InterId,
) -> Result<(), Fault>
    ensures { KeepsOffice S.Shelf office.old office.new }
{
    match kind {
        FolderKind::Records => read_exports(alloc, office, id),
        FolderKind::Pages { .. } => {
            read_page(alloc, office, id)?;
            Ok(())
        }
    }
}

/// Reads all rows that a folder shows of an office. The fault is `Damaged` where one is no record.
fn read_all<S: Shelf>(
    alloc: Global,
    office: &mut Office<S>,
    kind: &FolderKind,
    listed: &[ListedIntersection],
) -> Result<(), Fault>
    ensures { KeepsOffice S.Shelf office.old office.new }
{
    or_fault(office.stock(alloc))?;
    for one in listed {
        read_shown(alloc, office, kind, one.id)?;
    }
    Ok(())
}

/// Puts a file with what a report prints.
fn put_report<S: Shelf, D: Folder>(
    alloc: Global,
    office: &mut Office<S>,
    shown: &Shown<'_>,
    name: &str,
    folder: &mut D,
) -> Result<(), Fault>
    ensures { KeepsOffice S.Shelf office.old office.new }
{
    let done = report(alloc, office, shown, &[])?;
    folder.put(name, done.as_bytes())
}

/// Puts the plan and the cabinet of an intersection.
fn put_exports<S: Shelf, D: Folder>(
    alloc: Global,
    office: &mut Office<S>,
    id: InterId,
    folder: &mut D,
) -> Result<(), Fault>
    ensures { KeepsOffice S.Shelf office.old office.new }
{
    let number = id.get();
    let plan = format!(in alloc; "{number}-plan.csv")?;
    let cabinet = format!(in alloc; "{number}-cabinet.csv")?;
    let (timing, records) = (View::Timing, View::Cabinet);
    put_report(
        alloc,
        office,
        &Shown::Export { id, view: timing },
        plan.as_str(),
        folder,
    )?;
    put_report(
        alloc,
        office,
        &Shown::Export { id, view: records },
        cabinet.as_str(),
        folder,
    )
}

/// Puts CSV files: the lists, then the plan and the cabinet of each intersection.
fn put_records<S: Shelf, D: Folder>(
    alloc: Global,
    office: &mut Office<S>,
    listed: &[ListedIntersection],
    folder: &mut D,
) -> Result<(), Fault>
    ensures { KeepsOffice S.Shelf office.old office.new }
{
    put_report(
        alloc,
        office,
        &Shown::List {
            form: ListForm::Csv,
        },
        "intersections.csv",
        folder,
    )?;
    put_report(
        alloc,
        office,
        &Shown::Stock {
            form: ListForm::Csv,
        },
        "stock.csv",
        folder,
    )?;
    for one in listed {
        put_exports(alloc, office, one.id, folder)?;
    }
    Ok(())
}

/// Puts the page of an intersection, by what was read of it, and gathers what the index shows of
/// it.
fn put_read_page<D: Folder>(
    alloc: Global,
    listed: &ListedIntersection,
    read: &PageRead,
    gathered: &mut Gathered,
    folder: &mut D,
) -> Result<(), Fault> {
    let warnings = warnings(alloc, &read.committed)?;
    gathered.add(listed, &read.cabinet, warnings.len())?;
    let number = listed.id.get();
    let name = format!(in alloc; "{number}.html")?;
    folder.put(name.as_str(), &read.text(alloc, &warnings, true)?)
}

/// Puts the page of an intersection, and gathers what the index shows of it.
fn put_page<S: Shelf, D: Folder>(
    alloc: Global,
    office: &mut Office<S>,
    listed: &ListedIntersection,
    gathered: &mut Gathered,
    folder: &mut D,
) -> Result<(), Fault>
    ensures { KeepsOffice S.Shelf office.old office.new }
{
    let read = read_page(alloc, office, listed.id)?;
    put_read_page(alloc, listed, &read, gathered, folder)
}

/// Puts the page of each intersection, and then the index, which links to them.
fn put_pages<S: Shelf, D: Folder>(
    alloc: Global,
    office: &mut Office<S>,
    listed: &[ListedIntersection],
    day: Option<Day>,
    folder: &mut D,
) -> Result<(), Fault>
    ensures { KeepsOffice S.Shelf office.old office.new }
{
    let mut gathered = Gathered::new(alloc);
    for one in listed {
        put_page(alloc, office, one, &mut gathered, folder)?;
    }
    let text = index_over(alloc, office, gathered, day)?;
    folder.put("index.html", &text)
}

/// Puts the files of a folder of a kind.
fn put_files<S: Shelf, D: Folder>(
    alloc: Global,
    office: &mut Office<S>,
    kind: &FolderKind,
    listed: &[ListedIntersection],
    folder: &mut D,
) -> Result<(), Fault>
    ensures { KeepsOffice S.Shelf office.old office.new }
{
    match kind {
        FolderKind::Records => put_records(alloc, office, listed, folder),
        FolderKind::Pages { day } => put_pages(alloc, office, listed, *day, folder),
    }
}

/// The fault of making a file. A row that was a record when all were read, and is none now, is a
/// fault of the database.
fn late(fault: Fault) -> Fault {
    match fault {
        Fault::Damaged => Fault::Store,
        fault => fault,
    }
}

/// Fills a folder of a kind with the files of an office, which stays as it is. If a row that they
/// show is no record, no file is put, and the fault is Damaged. If a file can't be put later, those
/// before it stay: the fault is Write, Memory or Store.
pub fn fill<S: Shelf, D: Folder>(
    alloc: Global,
    office: &mut Office<S>,
    kind: &FolderKind,
    folder: &mut D,
) -> Result<(), Fault>
    ensures { KeepsOffice S.Shelf office.old office.new }
{
    let listed = read_intersections(alloc, office)?;
    read_all(alloc, office, kind, &listed)?;
    match put_files(alloc, office, kind, &listed, folder) {
        Ok(()) => Ok(()),
        Err(fault) => Err(late(fault)),
    }
}
