//! Does what the program's words ask for, with one source of bytes and two outputs.

use crate::asking::ask;
use crate::backup::backup;
use crate::memory::{open_in_memory, serve_new_office};
use crate::reading::{INPUT, read_plan};
use crate::refusal_notes::note_unshown;
use crate::serving::Serving;
use crate::version::VERSION;
use arrayvec::ArrayString;
use clap::error::ErrorKind;
use office_http::{Sink, Source};
use signal_office_commands::{compare_files, show_plan};
use signal_office_faults::{Done, Fault, find_office, note, print_done, print_text, report};
use signal_office_file::{answer_stream, do_in_turns, migrate_at};
use signal_office_line::{
    BadWord, CsvFile, Job, JobFault, OfficeFile, PlanShown, Request, Shown, job_of,
};
use signal_values::PatternNo;
use std::alloc::Global;
use std::fmt::Write;

/// The most requests of one run of `batch`.
const BATCH_LIMIT: u32 = 1_000_000;

/// The status where the words of the command line are refused.
const WORDS_REFUSED: u8 = 2;

/// Answers the requests of the source, at most `BATCH_LIMIT`, by an office over tables in memory,
/// or in a file where one is given.
fn batch<R: Source, W: Sink>(
    rt: &HostRuntime,
    alloc: Global,
    db: &Option<OfficeFile<'_>>,
    source: &mut R,
    out: &mut W,
) -> Result<u8, Fault> {
    let served = match db {
        None => serve_new_office(alloc, source, out, BATCH_LIMIT),
        Some(db) => {
            let path = db.path.as_str();
            answer_stream(rt, alloc, path, db.wait, source, out, BATCH_LIMIT)?
        }
    };
    served?;
    Ok(0)
}

/// Serves connections on a port by an office over tables in memory, or in a file where one is
/// given.
fn serve<W: Sink>(
    rt: &HostRuntime,
    alloc: Global,
    port: u16,
    count: u32,
    db: &Option<OfficeFile<'_>>,
    out: &mut W,
) -> Result<u8, Fault> {
    let mut task = Serving::new(port, count);
    match db {
        None => task.serve_port(rt, alloc, &mut open_in_memory(alloc), out)?,
        Some(db) => do_in_turns(rt, alloc, db.path.as_str(), db.wait, &mut task, out)?,
    }
    Ok(0)
}

/// Brings the tables of a file to today's version, and prints how many rows were rewritten, in a
/// line that needs no memory. If there is no file, or an empty one with no log beside it, the fault
/// is Version, and none is made.
fn migrate<W: Sink>(
    rt: &HostRuntime,
    alloc: Global,
    db: &OfficeFile<'_>,
    out: &mut W,
) -> Result<u8, Fault> {
    let path = db.path.as_str();
    find_office(rt, alloc, path, Fault::Version)?;
    let rows = migrate_at(rt, alloc, path, db.wait)?;
    let mut line = ArrayString::new();
    let _ = writeln!(line, "migrated {rows} rows"); // has room for any number
    print_done(Ok(Done::line(line)), out)
}

/// Prints what is shown of the office of a file.
fn show_office<R: Source, W: Sink, E: Sink>(
    rt: &HostRuntime,
    alloc: Global,
    db: &OfficeFile<'_>,
    shown: Shown<'_>,
    source: &mut R,
    out: &mut W,
    err: &mut E,
) -> Result<u8, Fault> {
    let request = Request::Show(shown);
    ask(rt, alloc, db, &request, source, out, err)
}

/// Prints the differences between the plans of two CSV files. If both are the input of the run, the
/// fault is File, after a note.
fn compare<R: Source, W: Sink, E: Sink>(
    rt: &HostRuntime,
    alloc: Global,
    files: (&CsvFile<'_>, &CsvFile<'_>),
    csv: bool,
    source: &mut R,
    out: &mut W,
    err: &mut E,
) -> Result<u8, Fault> {
    if files.0.path.as_str() == INPUT && files.1.path.as_str() == INPUT {
        note(
            rt,
            "",
            INPUT,
            " is standard input, which is read once; name another file",
        );
        return Err(Fault::File);
    }
    let first = read_plan(rt, alloc, files.0, false, source, err)?;
    let second = read_plan(rt, alloc, files.1, true, source, err)?;
    let done = compare_files(alloc, &first.text, &second.text, csv);
    print_done(done, out)
}

/// The pattern that is to be drawn, if one is.
fn pattern_of(shown: &PlanShown) -> Option<PatternNo> {
    match shown {
        PlanShown::Diagram { pattern } => Some(*pattern),
        PlanShown::Violations { .. } | PlanShown::Page => None,
    }
}

/// Prints what is shown of the plan in a CSV file.
fn show<R: Source, W: Sink, E: Sink>(
    rt: &HostRuntime,
    alloc: Global,
    file: &CsvFile<'_>,
    shown: PlanShown,
    source: &mut R,
    out: &mut W,
    err: &mut E,
) -> Result<u8, Fault> {
    let plan = read_plan(rt, alloc, file, false, source, err)?;
    let pattern = pattern_of(&shown);
    let done = show_plan(alloc, file.path.as_str(), &plan.text, shown);
    note_unshown(rt, file.path.as_str(), &done, &pattern);
    print_done(done, out)
}

/// Prints help or the version to `out`, with status 0, or why the words are refused to `err`, with
/// status 2.
fn refuse<W: Sink, E: Sink>(
    alloc: Global,
    error: &clap::Error,
    out: &mut W,
    err: &mut E,
) -> Result<u8, Fault> {
    if matches!(error.kind(), ErrorKind::DisplayVersion) {
        return print_text(VERSION.as_bytes(), 0, out);
    }
    let text = error.to_string(alloc)?;
    if error.use_stderr() {
        print_text(text.as_str().as_bytes(), WORDS_REFUSED, err)
    } else {
        print_text(text.as_str().as_bytes(), 0, out)
    }
}

/// The fault that reports a bad word of the command line.
fn fault_of_word(bad: BadWord) -> Fault {
    match bad {
        BadWord::Day => Fault::Day,
        BadWord::Clerk => Fault::Clerk,
        BadWord::Name => Fault::Name,
        BadWord::Part => Fault::Part,
    }
}

/// Does what the words ask for, and gives the status: 0 done, 1 a fault, 2 the words were refused,
/// 3 a plan breaks a rule, 4 two plans differ. The first word is the name under which the program
/// was called.
pub fn run_words<R: Source, W: Sink, E: Sink>(
    rt: &HostRuntime,
    alloc: Global,
    words: &[&str],
    source: &mut R,
    out: &mut W,
    err: &mut E,
) -> u8 {
    let done = match &job_of(alloc, words) {
        Ok(Job::Batch { db }) => batch(rt, alloc, db, source, out),
        Ok(Job::Serve { port, count, db }) => serve(rt, alloc, *port, *count, db, out),
        Ok(Job::Sheet { db, id }) => {
            let sheet = Shown::Sheet { id: *id };
            show_office(rt, alloc, db, sheet, source, out, err)
        }
        Ok(
            Job::Overdue {
                db,
                day,
                most,
                form,
            },
        ) => {
            let overdue = Shown::Overdue {
                day: *day,
                most: *most,
                form: *form,
            };
            show_office(rt, alloc, db, overdue, source, out, err)
        }
        Ok(
            Job::VerifyFile {
                csv,
                explain,
                advise,
            },
        ) => {
            let violations = PlanShown::Violations {
                explain: *explain,
                advise: *advise,
            };
            show(rt, alloc, csv, violations, source, out, err)
        }
        Ok(Job::Office { db, request }) => ask(rt, alloc, db, request, source, out, err),
        Ok(Job::Migrate { db }) => migrate(rt, alloc, db, out),
        Ok(Job::Backup { db, to, force }) => backup(rt, alloc, db, to, *force, out),
        Ok(Job::CompareFiles { first, second, csv }) => {
            compare(rt, alloc, (first, second), *csv, source, out, err)
        }
        Ok(Job::ShowPlan { csv, shown }) => show(rt, alloc, csv, *shown, source, out, err),
        Ok(Job::ReportBadWord(bad)) => Err(fault_of_word(*bad)),
        Err(JobFault::Refused(error)) => refuse(alloc, error, out, err),
        Err(JobFault::NoMemory) => Err(Fault::Memory),
    };
    match done {
        Ok(status) => status,
        Err(fault) => report(err, fault),
    }
}
