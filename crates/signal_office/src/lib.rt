//! What the program does for its words: `run_words` finds the job that they state, does it, prints
//! what came of it, and gives the status.
//!
//! A job is one function: it reads the CSV files that it names, opens the office of a file, does
//! its work, closes the file, and only then prints. `run_words` (`program.rt`) is the table of
//! jobs. Each request to the office of a file is a variant of `Request`, an arm of `done_with`
//! (`asking.rt`) and a row of `effect_of` (`specs/Requests`).
#![tactic(auto)]

mod asking;
mod backup;
mod copy_place;
mod memory;
mod program;
mod reading;
mod record_notes;
mod refusal_notes;
mod serving;
mod version;

pub use program::run_words;
