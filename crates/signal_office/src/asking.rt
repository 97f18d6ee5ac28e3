//! Requests to the office of a file, and what is printed of them once the file is closed.

ghost use Rattle.office_desk.specs.Asks.{KeepsOffice};
ghost use Rattle.signal_office.specs.Requests.{IsEditedPlan, IsPrinted, IsReplied};

use crate::reading::{check_tried, read_for};
use crate::record_notes::note_records;
use crate::refusal_notes::note_refused;
use office_desk::office::Office;
use office_http::{Sink, Source, write_all};
use office_machine::reply::Reply;
use office_tables_shelf::shelf::Shelf;
use signal_office_commands::{
    Edited, abandon, add, check, edit, fill, import, report, tell_edited, told,
};
use signal_office_faults::{Done, Fault, SystemFolder, find_office, print_done};
use signal_office_file::{OfficeTask, do_task};
use signal_office_line::{Folder as FolderKind, OfficeFile, Path, Request};
use std::alloc::Global;

/// What an office gave for a request.
#[derive(Drop)]
pub(crate) enum Outcome {
    /// What is printed: what the office shows, or the line on a draft that was dropped.
    Printed(Done),
    /// The reply to a command.
    Replied(Reply),
    /// A plan was edited.
    Edited(Edited),
}

/// A request, with the text of the CSV file that was read for it, and the lines of that file on
/// which the records begin, counted from 1; both are empty where none was read.
#[derive(Clone, Copy)]
struct Asked<'a> {
    request: &'a Request<'a>,
    text: &'a [u8],
    lines: &'a [usize],
}

/// What is printed, as the outcome.
fn print_outcome(done: Result<Done, Fault>) -> Result<Outcome, Fault>
    ensures { IsPrinted done result }
{
    match done {
        Ok(done) => Ok(Outcome::Printed(done)),
        Err(fault) => Err(fault),
    }
}

/// The reply to a command, as the outcome.
fn reply_outcome(reply: Result<Reply, Fault>) -> Result<Outcome, Fault>
    ensures { IsReplied reply result }
{
    match reply {
        Ok(reply) => Ok(Outcome::Replied(reply)),
        Err(fault) => Err(fault),
    }
}

/// An edit of a plan, as the outcome.
fn edit_outcome(edited: Result<Edited, Fault>) -> Result<Outcome, Fault>
    ensures { IsEditedPlan edited result }
{
    match edited {
        Ok(edited) => Ok(Outcome::Edited(edited)),
        Err(fault) => Err(fault),
    }
}

/// Fills a folder of the system with what the office shows, and prints nothing.
fn fill_folder<S: Shelf>(
    rt: &HostRuntime,
    alloc: Global,
    office: &mut Office<S>,
    dir: &Path<'_>,
    kind: &FolderKind,
) -> Result<Done, Fault>
    ensures { KeepsOffice S.Shelf office.old office.new }
{
    let mut folder = SystemFolder::new(rt, alloc, dir.as_str());
    match fill(alloc, office, kind, &mut folder) {
        Ok(()) => Ok(Done::telling("")),
        Err(fault) => Err(fault),
    }
}

impl OfficeTask<Outcome> for Asked<'_> {
    ghost use Rattle.signal_office.specs.Requests.{effect_of};

    ghost effect = { λ asked _. effect_of asked.request.now asked.text.now };

    fn done_with<S: Shelf, W: Sink>(
        &mut self,
        rt: &HostRuntime,
        alloc: Global,
        office: &mut Office<S>,
        _out: &mut W,
    ) -> Result<Outcome, Fault> {
        let (text, lines) = (self.text, self.lines);
        match self.request {
            Request::Show(shown) => print_outcome(report(alloc, office, shown, text)),
            Request::Fill { dir, folder } => {
                print_outcome(fill_folder(rt, alloc, office, dir, folder))
            }
            Request::Add { id, interval, name } => {
                reply_outcome(add(alloc, office, *id, *interval, name))
            }
            Request::Import { check: tried, .. } => {
                note_records(rt, alloc, office, text);
                if *tried {
                    print_outcome(check(alloc, office, text, lines))
                } else {
                    reply_outcome(import(alloc, office, text))
                }
            }
            Request::Edit(it) => edit_outcome(edit(alloc, office, it, text)),
            Request::Abandon { id, clerk } => print_outcome(abandon(alloc, office, *id, clerk)),
        }
    }
}

/// What is printed of an edited plan, with the status; notes on it go to `err` before. Only the
/// request to edit has such an outcome.
fn tell_plan<E: Sink>(
    alloc: Global,
    request: &Request<'_>,
    edited: &Edited,
    err: &mut E,
) -> Result<Done, Fault> {
    let _ = write_all(err, edited.notes.as_bytes());
    match request {
        Request::Edit(edit) => tell_edited(alloc, edit, edited),
        _ => Err(Fault::Store),
    }
}

/// What is printed of an outcome, with the status. It fails only for a draft that an edit left
/// open, for want of memory.
fn tell<E: Sink>(
    alloc: Global,
    request: &Request<'_>,
    outcome: Outcome,
    err: &mut E,
) -> Result<Done, Fault> {
    match outcome {
        Outcome::Printed(done) => Ok(done),
        Outcome::Replied(reply) => Ok(told(&reply)),
        Outcome::Edited(edited) => tell_plan(alloc, request, &edited, err),
    }
}

/// Whether a request makes the file of an office if there is none. Only adding an intersection
/// does, so that no other request makes an office by a mistyped name.
fn makes_file(request: &Request<'_>) -> bool {
    matches!(request, Request::Add { .. })
}

/// Reads the CSV file that a request names, asks the office of a file, and prints what came of it
/// once the file is closed, so that nothing is reported as done before it is on disk. If there is
/// no file, or an empty one with no log beside it, only `add` makes it; else the fault is File.
pub(crate) fn ask<R: Source, W: Sink, E: Sink>(
    rt: &HostRuntime,
    alloc: Global,
    db: &OfficeFile<'_>,
    request: &Request<'_>,
    source: &mut R,
    out: &mut W,
    err: &mut E,
) -> Result<u8, Fault> {
    let csv = read_for(rt, alloc, request, source, err)?;
    let path = db.path.as_str();
    if !makes_file(request) {
        find_office(rt, alloc, path, Fault::File)?;
    }
    let mut asked = Asked {
        request: &*request, // lent again, for a shorter time
        text: &csv.text,
        lines: &csv.lines,
    };
    match do_task(rt, alloc, path, db.wait, &mut asked, out) {
        Ok(outcome) => {
            let status = print_done(tell(alloc, request, outcome, err), out)?;
            check_tried(alloc, request, &csv.text)?;
            Ok(status)
        }
        Err(fault) => {
            note_refused(rt, path, request, &fault);
            Err(fault)
        }
    }
}
