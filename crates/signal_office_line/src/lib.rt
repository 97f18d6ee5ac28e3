//! The command line of the program: the job that its words ask for.
//!
//! A new command is a line of `COMMANDS` (`command_line.rt`), with texts in `help.rt`. A command
//! that always asks the office of a file is a variant of `Shown` (`shows.rt`) or of `Request`
//! (`job.rt`), and an arm of `request_at` (`jobs.rt`); any other is a variant of `Job` (`job.rt`),
//! and an arm of `job_at` (`jobs.rt`). In `specs` each command has a line of `commands`, and one of
//! `requests` or of `jobs`.
#![tactic(auto)]

mod arguments;
mod command_line;
mod help;
mod job;
mod jobs;
mod shows;
mod values;
mod words;

pub use job::{BadWord, Edit, Folder, Job, JobFault, OfficeFile, Request, job_of};
pub use shows::{Between, CsvFile, ListForm, PlanShown, Shown, View};
pub use words::{Name, Part, Path};
