//! What the words of a command line ask for.

ghost use Rattle.std.specs.Prelude.{◌≡◌, IfOk, map, true};
ghost use Rattle.clap.specs.Matches.{found_of};
ghost use Rattle.clap.specs.Simple.{is_simple};
ghost use Rattle.clap.specs.Values.{kind_of};
ghost use Rattle.clap.specs.Walk.{rows_of};
ghost use Rattle.signal_office_line.specs.CommandLine.{app_for};
ghost use Rattle.signal_office_line.specs.Job.{job_at};
ghost use Rattle.signal_office_line.specs.Refusals.{IsAnswer, IsFaultOf, IsFoundInWords, IsJobFound, IsJudged};

use crate::arguments::{Usage, command_of};
use crate::command_line::{named_in, program};
use crate::jobs::job_at;
use crate::shows::{CsvFile, ListForm, PlanShown, Shown};
use crate::words::{Name, Path};
use cabinet_core::Day;
use clap::error::ErrorKind;
use clap::{ArgMatches, Error};
use signal_values::{InterId, Interval};
use std::alloc::{AllocError, Global};

/// The file of an office, and for how many seconds, 0 to 3600, a run waits while another one has it
/// open.
#[derive(Drop)]
pub struct OfficeFile<'a> {
    pub path: Path<'a>,
    pub wait: u32,
}

/// What a folder is filled with.
#[derive(Clone, Copy)]
pub enum Folder {
    /// CSV files: the lists of intersections and of stock, and for each intersection its committed
    /// timing set and its cabinet.
    Records,
    /// The HTML pages of all intersections and an index, which marks those that are overdue for
    /// inspection on a day, if one is given.
    Pages { day: Option<Day> },
}

/// An edit of an intersection's plan by a CSV file, in the draft of a clerk. Without a file, which
/// only `commit` without `replace` allows, the draft is taken as it is. `replace` removes the rows
/// that the file lacks, and `commit` commits a draft that breaks no rule. `revision`, 0 to 999,999,
/// is the committed revision that the edit requires. `explain` adds the reasons of broken rules,
/// the owner of a draft and what a commit changed, and `advise` warnings.
#[derive(Drop)]
pub struct Edit<'a> {
    pub id: InterId,
    pub clerk: Name<'a, 40>,
    pub csv: Option<CsvFile<'a>>,
    pub replace: bool,
    pub commit: bool,
    pub revision: Option<u32>,
    pub explain: bool,
    pub advise: bool,
}

/// What is asked of the office of one file.
#[derive(Drop)]
pub enum Request<'a> {
    /// Print what is shown of the office.
    Show(Shown<'a>),
    /// Fill a folder, which is made if there is none, with files of what the office shows.
    Fill {
        dir: Path<'a>,
        folder: Folder,
    },
    /// Add an intersection.
    Add {
        id: InterId,
        interval: Interval,
        name: Name<'a, 120>,
    },
    /// Take the records of a CSV file in turn: all of them, or none. None is taken if one is of a
    /// later day than `until`. With `check` none is taken either, and those that would be refused
    /// are reported.
    Import {
        csv: CsvFile<'a>,
        until: Option<Day>,
        check: bool,
    },
    /// Change a plan by a CSV file.
    Edit(Edit<'a>),
    /// Drop the draft of an intersection, whoever holds it; `clerk` is who drops it.
    Abandon {
        id: InterId,
        clerk: Name<'a, 40>,
    },
}

/// What the words ask the program to do.
#[derive(Drop)]
pub enum Job<'a> {
    /// Answer the HTTP requests on standard input, over the office of a file, or without one over
    /// an office in memory.
    Batch {
        db: Option<OfficeFile<'a>>,
    },
    /// Answer the HTTP requests of `count` connections, 1 to 1,000,000, on `port`, 1 to 65535, over
    /// the office of a file, or without one over an office in memory.
    Serve {
        port: u16,
        count: u32,
        db: Option<OfficeFile<'a>>,
    },
    /// Print the timing sheet of an intersection.
    Sheet {
        db: OfficeFile<'a>,
        id: InterId,
    },
    /// Print the intersections that are overdue for inspection on a day, at most `most` of them, 1
    /// to 9999, those with the lowest numbers.
    Overdue {
        db: OfficeFile<'a>,
        day: Day,
        most: usize,
        form: ListForm,
    },
    /// Print the rules that the plan in a CSV file breaks, with their reasons if `explain`, and
    /// then its warnings if `advise`.
    VerifyFile {
        csv: CsvFile<'a>,
        explain: bool,
        advise: bool,
    },
    /// Do what else is asked of the office of a file.
    Office {
        db: OfficeFile<'a>,
        request: Request<'a>,
    },
    /// Bring the tables of a file to today's version.
    Migrate {
        db: OfficeFile<'a>,
    },
    /// Copy the office of a file into another file; `force` lets it replace an existing one.
    Backup {
        db: OfficeFile<'a>,
        to: Path<'a>,
        force: bool,
    },
    /// Print the differences between the plans in two CSV files, as a text or as CSV.
    CompareFiles {
        first: CsvFile<'a>,
        second: CsvFile<'a>,
        csv: bool,
    },
    /// Print what else is shown of the plan in a CSV file.
    ShowPlan {
        csv: CsvFile<'a>,
        shown: PlanShown,
    },
    /// Report a word that is not what the command requires there.
    ReportBadWord(BadWord),
}

/// What a word of the command line had to be, and is not.
#[derive(Clone, Copy)]
pub enum BadWord {
    /// A day from 1970-01-01 to 2199-12-31, as `YYYY-MM-DD`.
    Day,
    /// A clerk's name: 1 to 40 bytes without control characters.
    Clerk,
    /// An intersection's name: 1 to 120 bytes without control characters.
    Name,
    /// A part's code: 1 to 20 of the bytes `A` to `Z`, `0` to `9` and `-`.
    Part,
}

/// Why the values of a command do not state what it is to do.
#[derive(Clone, Copy)]
pub(crate) enum NoJob {
    /// The values are too few or too many, do not go together, or a number is out of its range.
    Unstated,
    /// A word is not what it had to be.
    Bad(BadWord),
}

/// Why the words of a command line give no job to do.
#[derive(Drop)]
pub enum JobFault {
    /// The words are refused, or ask for help or for the version.
    Refused(Error),
    NoMemory,
}

impl From<Error> for JobFault {
    ghost use Rattle.signal_office_line.specs.Refusals.{IsToldAs};

    ghost from_gives = { IsToldAs };

    fn from(error: Error) -> JobFault {
        match error.kind() {
            ErrorKind::OutOfMemory => JobFault::NoMemory,
            _ => JobFault::Refused(error),
        }
    }
}

/// What `clap` answers to the words of a command, the first being its name. Texts of help are made
/// only where the words ask for help.
fn matches_of<'a>(
    alloc: Global,
    usage: &Usage,
    words: &'a [&'a str],
) -> Result<ArgMatches<'a>, Error>
    ensures { is_simple (app_for usage.now) ≡ true →
        IsAnswer (app_for usage.now) (map (λ word. word.now) words.entry.now) result }
{
    match command_of(alloc, usage, false)?.try_get_matches_from(words) {
        Ok(matches) => Ok(matches),
        Err(error) => {
            if matches!(error.kind(), ErrorKind::DisplayHelp) {
                return command_of(alloc, usage, true)?.try_get_matches_from(words);
            }
            Err(error)
        }
    }
}

/// The refusal of a command's values that state no job though `clap` takes them.
fn refusal_of(alloc: Global, usage: &Usage) -> Result<Error, AllocError>
    ensures { IfOk result (λ error. kind_of error ≡ ErrorKind.ValueValidation) }
{
    let reason = match usage.0 {
        "compare" => "compare --db FILE takes the number of an intersection, 1 to 9999",
        "diagram" => "diagram --file FILE takes the number of a pattern, 1 to 48",
        _ => "these words state nothing to do",
    };
    command_of(alloc, usage, false)?.error(ErrorKind::ValueValidation, reason)
}

/// The fault that reports a refusal, or that memory for it was refused.
fn fault_for(refusal: Result<Error, AllocError>) -> JobFault
    ensures { IsFaultOf refusal result }
{
    match refusal {
        Ok(error) => JobFault::from(error),
        Err(_) => JobFault::NoMemory,
    }
}

/// The job that the values of a command state, or the one that reports a bad word among them; or
/// the fault of values that state none.
fn job_in<'a>(alloc: Global, usage: &Usage, matches: &ArgMatches<'a>) -> Result<Job<'a>, JobFault>
    ensures { IsJobFound (job_at usage.now.0.now (rows_of (found_of matches.now))) result }
{
    match job_at(usage.0, matches) {
        Ok(job) => Ok(job),
        Err(NoJob::Bad(bad)) => Ok(Job::ReportBadWord(bad)),
        Err(NoJob::Unstated) => Err(fault_for(refusal_of(alloc, usage))),
    }
}

/// What the words of a command ask for, by what `clap` answered to them.
fn judged<'a>(
    alloc: Global,
    usage: &Usage,
    answer: Result<ArgMatches<'a>, Error>,
) -> Result<Job<'a>, JobFault>
    ensures { IsJudged usage.now.0.now answer.entry result }
{
    match answer {
        Ok(matches) => job_in(alloc, usage, &matches),
        Err(error) => Err(JobFault::from(error)),
    }
}

/// The help or the version, or the refusal, for words that do not begin with a command.
fn help_for<'a>(alloc: Global, words: &'a [&'a str]) -> Result<Error, AllocError> {
    let mut program = program(alloc)?;
    match program.try_get_matches_from_mut(words) {
        Ok(_) => program.error(ErrorKind::MissingSubcommand, "a command comes first"),
        Err(error) => Ok(error),
    }
}

/// What the words ask for; the first is the program's name. It is a job, or the refusal, help or
/// version for words that state none.
#[tactic(auto, using(crate::proofs::FoundLemmas::none_found))]
pub fn job_of<'a>(alloc: Global, words: &'a [&'a str]) -> Result<Job<'a>, JobFault>
    ensures { IsFoundInWords (map (λ word. word.now) words.entry.now) result }
{
    let Some((usage, words)) = named_in(words) else {
        return Err(fault_for(help_for(alloc, words)));
    };
    judged(alloc, &usage, matches_of(alloc, &usage, words))
}
