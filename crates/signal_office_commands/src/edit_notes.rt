//! Notes on an edit of a plan that was made: what its clerk may not have meant.
#![tactic(auto, using(office_desk::proofs::Looks::keeps, office_desk::proofs::Looks::keeps_then))]

ghost use Rattle.office_desk.specs.Asks.{KeepsOffice};

use crate::counting::count_rows;
use crate::editing::Revised;
use crate::reads::{or_fault, read_intersections};
use office_desk::office::Office;
use office_files::read_timing_csv;
use office_machine::intersections::ListedIntersection;
use office_tables_shelf::shelf::Shelf;
use signal_office_faults::Fault;
use signal_office_line::Edit;
use signal_plans::compare;
use signal_records::{Change, InterId, Key, NoMemory, TimingSet, changed_key};
use std::alloc::{AllocError, Global};
use std::collections::BTreeSet;
use std::fmt::Write;

/// The plan after an edit, if that changed anything and the plan could be read.
fn plan_after(revised: &Revised) -> Option<&TimingSet> {
    match revised {
        Revised::Open(draft) => Some(&draft.rows),
        Revised::Committed(Some(running)) => Some(&running.rows),
        Revised::Same | Revised::Committed(None) => None,
    }
}

/// Appends a note if more than half of the committed rows are changed or removed.
fn push_share(
    alloc: Global,
    text: &mut String,
    before: &TimingSet,
    after: &TimingSet,
) -> Result<(), NoMemory> {
    let differences = compare(alloc, before, after)?;
    let counts = count_rows(&differences);
    let count = counts.changed.saturating_add(counts.removed);
    let all = before.rows(alloc)?.len();
    if all / 2 < count {
        writeln!(text, "note: {count} of {all} committed rows change")?;
    }
    Ok(())
}

/// The keys of the rows of a plan that none of these changes names.
fn unnamed_keys(alloc: Global, changes: &[Change], plan: &TimingSet) -> Result<Vec<Key>, NoMemory> {
    let mut named = BTreeSet::new(alloc);
    for change in changes {
        named.insert(changed_key(change))?;
    }
    let mut unnamed = Vec::new(alloc);
    for row in plan.rows(alloc)?.iter() {
        if !named.contains(&row.key()) {
            unnamed.push(row.key())?;
        }
    }
    Ok(unnamed)
}

/// Whether two keys are of one split or one sequence, or both of phases or both of patterns.
fn share_group(one: &Key, other: &Key) -> bool {
    match (one, other) {
        (Key::Phase(_), Key::Phase(_)) | (Key::Pattern(_), Key::Pattern(_)) => true,
        (Key::Seq(n, _), Key::Seq(m, _)) => n == m,
        (Key::Split(n, _), Key::Split(m, _)) => n == m,
        _ => false,
    }
}

/// Appends how many rows there are, as `8 rows of split 3` if all are of one split or sequence, or
/// all phases or patterns. `first` is one of `keys`.
fn push_rows(text: &mut String, first: &Key, keys: &[Key]) -> Result<(), AllocError> {
    let count = keys.len();
    let s = if count == 1 { "" } else { "s" };
    if !keys.iter().all(|key| share_group(first, key)) {
        return write!(text, "{count} rows that are not in the file");
    }
    match first {
        Key::Phase(_) => write!(text, "{count} phase{s}"),
        Key::Seq(n, _) => write!(text, "{count} row{s} of sequence {}", n.get()),
        Key::Split(n, _) => write!(text, "{count} row{s} of split {}", n.get()),
        Key::Pattern(_) => write!(text, "{count} pattern{s}"),
    }
}

/// Appends a note if rows stay that a file does not name. A file that removes a row is not meant as
/// a whole plan, and needs no note.
fn push_stays(
    alloc: Global,
    text: &mut String,
    changes: &[Change],
    plan: &TimingSet,
) -> Result<(), NoMemory> {
    if changes.iter().any(|it| matches!(it, Change::Remove(_))) {
        return Ok(());
    }
    let unnamed = unnamed_keys(alloc, changes, plan)?;
    let Some(first) = unnamed.first() else {
        return Ok(());
    };
    text.push_str("note: ")?;
    push_rows(text, first, &unnamed)?;
    text.push_str(match unnamed.len() {
        1 => " stays; --replace would remove it\n",
        _ => " stay; --replace would remove them\n",
    })
}

/// Whether this is the committed plan of an intersection; false if that can't be read.
fn is_plan_of<S: Shelf>(
    alloc: Global,
    office: &mut Office<S>,
    id: InterId,
    plan: &TimingSet,
) -> Result<bool, NoMemory>
    ensures { KeepsOffice S.Shelf office.old office.new }
{
    match office.timing(alloc, id) {
        Ok(timing) => Ok(compare(alloc, &timing.rows, plan)?.is_empty()),
        Err(_) => Ok(false),
    }
}

/// Whether this plan of `count` rows is the committed one of `other`, and `other` is not the
/// intersection `id`. A committed plan with another number of rows is not read.
fn is_plan_of_other<S: Shelf>(
    alloc: Global,
    office: &mut Office<S>,
    other: &ListedIntersection,
    id: InterId,
    count: usize,
    plan: &TimingSet,
) -> Result<bool, NoMemory>
    ensures { KeepsOffice S.Shelf office.old office.new }
{
    if other.rows != count || other.id == id {
        return Ok(false);
    }
    is_plan_of(alloc, office, other.id, plan)
}

/// The first intersection other than `id` whose committed plan this is. Only plans with as many
/// rows are read.
fn whose_plan<S: Shelf>(
    alloc: Global,
    office: &mut Office<S>,
    id: InterId,
    plan: &TimingSet,
) -> Result<Option<InterId>, Fault>
    ensures { KeepsOffice S.Shelf office.old office.new }
{
    let count = plan.rows(alloc)?.len();
    let all = read_intersections(alloc, office)?;
    for one in &all {
        if is_plan_of_other(alloc, office, one, id, count, plan)? {
            return Ok(Some(one.id));
        }
    }
    Ok(None)
}

/// Appends a note if the plan that changes make from nothing is the committed one of another
/// intersection, as far as that can be read.
fn push_other<S: Shelf>(
    alloc: Global,
    office: &mut Office<S>,
    text: &mut String,
    id: InterId,
    changes: &[Change],
) -> Result<(), NoMemory>
    ensures { KeepsOffice S.Shelf office.old office.new }
{
    let plan = TimingSet::new(alloc).changed(changes)?;
    if plan.rows(alloc)?.is_empty() {
        return Ok(());
    }
    match whose_plan(alloc, office, id, &plan) {
        Ok(Some(other)) => writeln!(text, "note: this is the plan of {}", other.get()),
        _ => Ok(()),
    }
}

/// Appends the notes on an edit by the file `csv`, empty if there is none, by the committed set
/// before it and the plan after it.
fn push_notes<S: Shelf>(
    alloc: Global,
    office: &mut Office<S>,
    text: &mut String,
    edit: &Edit<'_>,
    csv: &[u8],
    before: &TimingSet,
    after: &TimingSet,
) -> Result<(), Fault>
    ensures { KeepsOffice S.Shelf office.old office.new }
{
    let changes = read_timing_csv(alloc, csv)?;
    push_other(alloc, office, text, edit.id, &changes)?;
    push_share(alloc, text, before, after)?;
    if edit.csv.is_some() && !edit.replace {
        push_stays(alloc, text, &changes, after)?;
    }
    Ok(())
}

/// The notes on an edit that was made; `before` is the committed set before it. They say if the
/// file is the committed plan of another intersection, if more than half of the committed rows
/// change, and if rows stay that the file does not name. Without memory for them there are none.
pub(crate) fn edit_notes<S: Shelf>(
    alloc: Global,
    office: &mut Office<S>,
    edit: &Edit<'_>,
    csv: &[u8],
    before: &TimingSet,
    revised: &Revised,
) -> String
    ensures { KeepsOffice S.Shelf office.old office.new }
{
    let mut text = String::new(alloc);
    let Some(after) = plan_after(revised) else {
        return text;
    };
    match push_notes(alloc, office, &mut text, edit, csv, before, after) {
        Ok(()) => text,
        Err(_) => String::new(alloc),
    }
}
