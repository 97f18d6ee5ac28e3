//! Reports on an office: what is read of it, and the text that is made of that. A new report is a
//! `Shown` with a function of its own.
#![tactic(auto, using(office_desk::proofs::Looks::keeps, office_desk::proofs::Looks::keeps_then))]

ghost use Rattle.office_desk.specs.Asks.{KeepsOffice};

use crate::comparing::{compare_draft, compare_running};
use crate::index::index;
use crate::listing::{list, orders, overdue, stock, used, work};
use crate::page::page;
use crate::parts::report_part;
use crate::reads::or_fault;
use office_desk::office::Office;
use office_files::{records_csv, timing_csv, timing_sheet};
use office_machine::reply::RunningTiming;
use office_tables_shelf::shelf::Shelf;
use office_views::cabinet_text;
use signal_diagram::{PlanOf, diagram};
use signal_office_faults::{Done, Fault};
use signal_office_line::{Shown, View};
use signal_records::{InterId, NoMemory, PatternNo};
use std::alloc::Global;

/// What a report comes to.
pub(crate) type Report = Result<Done, Fault>;

/// The report that prints a text, with status 0.
pub(crate) fn report_of(text: Result<Vec<u8>, NoMemory>) -> Report {
    Ok(Done::with(text?))
}

fn sheet<S: Shelf>(alloc: Global, office: &mut Office<S>, id: InterId) -> Report
    ensures { KeepsOffice S.Shelf office.old office.new }
{
    let timing = or_fault(office.timing(alloc, id))?;
    report_of(timing_sheet(alloc, id, &timing.name, timing.revision, &timing.rows))
}

fn cabinet<S: Shelf>(alloc: Global, office: &mut Office<S>, id: InterId) -> Report
    ensures { KeepsOffice S.Shelf office.old office.new }
{
    let state = or_fault(office.state(alloc, id))?;
    let cabinet = or_fault(office.cabinet(alloc, id))?;
    report_of(cabinet_text(alloc, &state.name, state.interval, &cabinet))
}

fn export_timing<S: Shelf>(alloc: Global, office: &mut Office<S>, id: InterId) -> Report
    ensures { KeepsOffice S.Shelf office.old office.new }
{
    let timing = or_fault(office.timing(alloc, id))?;
    report_of(timing_csv(alloc, &timing.rows))
}

fn export_draft<S: Shelf>(alloc: Global, office: &mut Office<S>, id: InterId) -> Report
    ensures { KeepsOffice S.Shelf office.old office.new }
{
    let draft = or_fault(office.draft(alloc, id))?;
    report_of(timing_csv(alloc, &draft.rows))
}

fn export_cabinet<S: Shelf>(alloc: Global, office: &mut Office<S>, id: InterId) -> Report
    ensures { KeepsOffice S.Shelf office.old office.new }
{
    let cabinet = or_fault(office.cabinet(alloc, id))?;
    report_of(records_csv(alloc, id, &cabinet.view))
}

fn export<S: Shelf>(alloc: Global, office: &mut Office<S>, id: InterId, view: View) -> Report
    ensures { KeepsOffice S.Shelf office.old office.new }
{
    match view {
        View::Timing => export_timing(alloc, office, id),
        View::Draft => export_draft(alloc, office, id),
        View::Cabinet => export_cabinet(alloc, office, id),
    }
}

/// The picture of a pattern of a committed plan, which names its intersection and revision.
fn draw_running(alloc: Global, id: InterId, timing: &RunningTiming, pattern: PatternNo) -> Report {
    let of = PlanOf {
        id,
        name: timing.name.as_str(),
        revision: timing.revision.get(),
    };
    match diagram(alloc, &timing.rows, pattern, Some(&of))? {
        Some(text) => Ok(Done::with(text)),
        None => Err(Fault::UnknownPattern),
    }
}

fn picture<S: Shelf>(
    alloc: Global,
    office: &mut Office<S>,
    id: InterId,
    pattern: PatternNo,
) -> Report
    ensures { KeepsOffice S.Shelf office.old office.new }
{
    let timing = or_fault(office.timing(alloc, id))?;
    draw_running(alloc, id, &timing, pattern)
}

/// What is printed of an office, which stays as it is; `plan` is the text of the CSV file that
/// `CompareRunning` names. The fault is UnknownIntersection, UnknownPattern, Refused where nobody
/// holds a draft, Csv where `plan` can't be read, Damaged where a row that is read is no record,
/// Memory or Store.
pub fn report<S: Shelf>(
    alloc: Global,
    office: &mut Office<S>,
    shown: &Shown<'_>,
    plan: &[u8],
) -> Result<Done, Fault>
    ensures { KeepsOffice S.Shelf office.old office.new }
{
    match shown {
        Shown::Sheet { id } => sheet(alloc, office, *id),
        Shown::Overdue { day, most, form } => overdue(alloc, office, *day, *most, *form),
        Shown::List { form } => list(alloc, office, *form),
        Shown::Stock { form } => stock(alloc, office, *form),
        Shown::Part { part } => report_part(alloc, office, part),
        Shown::Orders { id, by_age, form } => orders(alloc, office, *id, *by_age, *form),
        Shown::Used {
            part,
            between,
            form,
        } => used(alloc, office, part, between, *form),
        Shown::Work { between, form } => work(alloc, office, between, *form),
        Shown::Cabinet { id } => cabinet(alloc, office, *id),
        Shown::Export { id, view } => export(alloc, office, *id, *view),
        Shown::Diagram { id, pattern } => picture(alloc, office, *id, *pattern),
        Shown::CompareDraft { id, csv } => compare_draft(alloc, office, *id, *csv),
        Shown::CompareRunning { id, csv, .. } => compare_running(alloc, office, *id, plan, *csv),
        Shown::Page { id, linked } => page(alloc, office, *id, *linked),
        Shown::Index { day } => index(alloc, office, *day),
    }
}
