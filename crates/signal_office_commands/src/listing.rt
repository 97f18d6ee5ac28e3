//! Lists of an office: intersections, stock, orders, used parts, work done, overdue inspections.
#![tactic(auto, using(office_desk::proofs::Looks::keeps, office_desk::proofs::Looks::keeps_then, office_desk::proofs::Looks::keeps_none))]

ghost use Rattle.office_desk.specs.Asks.{KeepsOffice};

use crate::reads::{or_fault, read_intersections};
use crate::reporting::{Report, report_of};
use cabinet_core::{Day, Order, OverdueRow, PartCode};
use office_desk::office::Office;
use office_files::overdue_text;
use office_machine::intersections::ListedIntersection;
use office_machine::orders::{NamedOrder, add_named, add_open_orders};
use office_machine::reply::CabinetShown;
use office_tables_shelf::shelf::Shelf;
use office_views::{
    DayWork, Days, ListStyle, UsedPart, add_used, add_work, intersections_list, orders_by_age,
    orders_list, orders_text, overdue_csv, stock_list, used_list, work_list,
};
use signal_office_faults::Fault;
use signal_office_line::{Between, ListForm, Part};
use signal_records::{InterId, NoMemory, Words};
use std::alloc::Global;
use std::collections::BTreeMap;

/// The style of a list, by the form in which it is asked for.
fn style_of(form: ListForm) -> ListStyle {
    match form {
        ListForm::Lines => ListStyle::Lines,
        ListForm::Csv => ListStyle::Csv,
        ListForm::HeadedCsv => ListStyle::HeadedCsv,
    }
}

/// The days from one to another, both included.
fn days_of(between: &Between) -> Days {
    Days {
        first: between.from,
        last: between.to,
    }
}

fn overdue_list(
    alloc: Global,
    day: Day,
    form: ListForm,
    rows: &[OverdueRow],
) -> Result<Vec<u8>, NoMemory> {
    match form {
        ListForm::Lines => overdue_text(alloc, day, rows),
        _ => overdue_csv(alloc, style_of(form), rows),
    }
}

/// The first `most` of the intersections that are overdue for an inspection on a day.
pub(crate) fn overdue<S: Shelf>(
    alloc: Global,
    office: &mut Office<S>,
    day: Day,
    most: usize,
    form: ListForm,
) -> Report
    ensures { KeepsOffice S.Shelf office.old office.new }
{
    let rows = or_fault(office.overdue_first(alloc, day, most))?;
    report_of(overdue_list(alloc, day, form, &rows))
}

pub(crate) fn list<S: Shelf>(alloc: Global, office: &mut Office<S>, form: ListForm) -> Report
    ensures { KeepsOffice S.Shelf office.old office.new }
{
    let listed = read_intersections(alloc, office)?;
    report_of(intersections_list(alloc, style_of(form), &listed))
}

pub(crate) fn stock<S: Shelf>(alloc: Global, office: &mut Office<S>, form: ListForm) -> Report
    ensures { KeepsOffice S.Shelf office.old office.new }
{
    let parts = or_fault(office.stock(alloc))?;
    report_of(stock_list(alloc, style_of(form), parts.as_slice()))
}

/// The orders that a map has for an intersection; none if it has no entry.
fn orders_in(orders: &BTreeMap<InterId, Vec<Order>>, id: InterId) -> &[Order] {
    match orders.get(&id) {
        Some(found) => found.as_slice(),
        None => &[],
    }
}

/// The open orders that a map has for the intersections of a list, each with the number and the
/// name of its intersection.
fn named_in(
    alloc: Global,
    listed: &[ListedIntersection],
    orders: &BTreeMap<InterId, Vec<Order>>,
) -> Result<Vec<NamedOrder>, NoMemory> {
    let mut found = Vec::new(alloc);
    for one in listed {
        add_named(&mut found, &one.name, one.id, orders_in(orders, one.id))?;
    }
    Ok(found)
}

fn named_of_all<S: Shelf>(alloc: Global, office: &mut Office<S>) -> Result<Vec<NamedOrder>, Fault>
    ensures { KeepsOffice S.Shelf office.old office.new }
{
    let listed = read_intersections(alloc, office)?;
    let orders = or_fault(office.open_orders(alloc))?;
    Ok(named_in(alloc, &listed, &orders)?)
}

fn named_of(
    alloc: Global,
    name: &Words<120>,
    cabinet: &CabinetShown,
) -> Result<Vec<NamedOrder>, NoMemory> {
    let mut found = Vec::new(alloc);
    add_named(&mut found, name, cabinet.id, cabinet.view.orders.as_slice())?;
    Ok(found)
}

fn named_on<S: Shelf>(
    alloc: Global,
    office: &mut Office<S>,
    id: InterId,
) -> Result<Vec<NamedOrder>, Fault>
    ensures { KeepsOffice S.Shelf office.old office.new }
{
    let state = or_fault(office.state(alloc, id))?;
    let cabinet = or_fault(office.cabinet(alloc, id))?;
    Ok(named_of(alloc, &state.name, &cabinet)?)
}

fn open_text(alloc: Global, cabinet: &CabinetShown) -> Result<Vec<u8>, NoMemory> {
    let mut found = Vec::new(alloc);
    add_open_orders(&mut found, cabinet)?;
    orders_text(alloc, &found)
}

fn orders_on<S: Shelf>(alloc: Global, office: &mut Office<S>, id: InterId) -> Report
    ensures { KeepsOffice S.Shelf office.old office.new }
{
    let cabinet = or_fault(office.cabinet(alloc, id))?;
    report_of(open_text(alloc, &cabinet))
}

/// The open orders of an intersection, or of all, each with the name of its intersection.
fn orders_with_names<S: Shelf>(
    alloc: Global,
    office: &mut Office<S>,
    id: Option<InterId>,
) -> Result<Vec<NamedOrder>, Fault>
    ensures { KeepsOffice S.Shelf office.old office.new }
{
    match id {
        None => named_of_all(alloc, office),
        Some(id) => named_on(alloc, office, id),
    }
}

/// A list of open orders, in their order or by their age on a day.
fn named_list(
    alloc: Global,
    orders: Vec<NamedOrder>,
    by_age: Option<Day>,
    form: ListForm,
) -> Result<Vec<u8>, NoMemory> {
    match by_age {
        None => orders_list(alloc, style_of(form), &orders),
        Some(day) => orders_by_age(alloc, style_of(form), day, orders),
    }
}

fn orders_named<S: Shelf>(
    alloc: Global,
    office: &mut Office<S>,
    id: Option<InterId>,
    by_age: Option<Day>,
    form: ListForm,
) -> Report
    ensures { KeepsOffice S.Shelf office.old office.new }
{
    let orders = orders_with_names(alloc, office, id)?;
    report_of(named_list(alloc, orders, by_age, form))
}

/// The open orders of an intersection, or of all; by their age if a day is given.
pub(crate) fn orders<S: Shelf>(
    alloc: Global,
    office: &mut Office<S>,
    id: Option<InterId>,
    by_age: Option<Day>,
    form: ListForm,
) -> Report
    ensures { KeepsOffice S.Shelf office.old office.new }
{
    match (id, by_age, form) {
        (Some(id), None, ListForm::Lines) => orders_on(alloc, office, id),
        _ => orders_named(alloc, office, id, by_age, form),
    }
}

/// Adds what was used of all parts, or of one, for the orders on an intersection.
fn add_used_on<S: Shelf>(
    alloc: Global,
    office: &mut Office<S>,
    id: InterId,
    part: &Option<PartCode>,
    days: &Option<Days>,
    found: &mut Vec<UsedPart>,
) -> Result<(), Fault>
    ensures { KeepsOffice S.Shelf office.old office.new }
{
    let cabinet = or_fault(office.cabinet(alloc, id))?;
    Ok(add_used(found, part, days, &cabinet)?)
}

/// What was used of all parts, or of one, for the orders of all intersections, closed ones too; if
/// days are given, only on these.
pub(crate) fn used_parts<S: Shelf>(
    alloc: Global,
    office: &mut Office<S>,
    part: &Option<PartCode>,
    days: &Option<Days>,
) -> Result<Vec<UsedPart>, Fault>
    ensures { KeepsOffice S.Shelf office.old office.new }
{
    let listed = read_intersections(alloc, office)?;
    let mut found = Vec::new(alloc);
    for one in &listed {
        add_used_on(alloc, office, one.id, part, days, &mut found)?;
    }
    Ok(found)
}

/// The code of a part, in memory of its own, if one is named.
fn code_of(alloc: Global, part: &Option<Part<'_>>) -> Result<Option<PartCode>, NoMemory> {
    match part {
        Some(part) => Ok(Some(part.to_code(alloc)?)),
        None => Ok(None),
    }
}

pub(crate) fn used<S: Shelf>(
    alloc: Global,
    office: &mut Office<S>,
    part: &Option<Part<'_>>,
    between: &Option<Between>,
    form: ListForm,
) -> Report
    ensures { KeepsOffice S.Shelf office.old office.new }
{
    let part = code_of(alloc, part)?;
    let days = between.as_ref().map(days_of);
    let found = used_parts(alloc, office, &part, &days)?;
    report_of(used_list(alloc, style_of(form), &found))
}

/// Adds what was done in the cabinet of an intersection on some days.
fn add_work_on<S: Shelf>(
    alloc: Global,
    office: &mut Office<S>,
    id: InterId,
    days: &Days,
    found: &mut Vec<DayWork>,
) -> Result<(), Fault>
    ensures { KeepsOffice S.Shelf office.old office.new }
{
    let cabinet = or_fault(office.cabinet(alloc, id))?;
    Ok(add_work(alloc, found, days, &cabinet)?)
}

/// What was done in all intersections on some days, one intersection after the other.
fn work_of_all<S: Shelf>(
    alloc: Global,
    office: &mut Office<S>,
    days: &Days,
) -> Result<Vec<DayWork>, Fault>
    ensures { KeepsOffice S.Shelf office.old office.new }
{
    let listed = read_intersections(alloc, office)?;
    let mut found = Vec::new(alloc);
    for one in &listed {
        add_work_on(alloc, office, one.id, days, &mut found)?;
    }
    Ok(found)
}

/// What was done in all intersections on some days, by day.
pub(crate) fn work<S: Shelf>(
    alloc: Global,
    office: &mut Office<S>,
    between: &Between,
    form: ListForm,
) -> Report
    ensures { KeepsOffice S.Shelf office.old office.new }
{
    let found = work_of_all(alloc, office, &days_of(between))?;
    report_of(work_list(alloc, style_of(form), found))
}
