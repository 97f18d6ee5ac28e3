//! What a job comes to: what is printed, or the fault with which the program ends.
//!
//! For users of CSV files the crate drops the empty fields with which spreadsheets pad records, and
//! finds the line of a record, what is wrong with a bad one, and the records of a plan that put or
//! remove a key again. It reads and finds files, puts files into a folder by name, and notes on
//! standard error what the system refuses.
#![tactic(auto)]

mod bad_records;
mod done;
mod fault;
mod fields;
mod files;
mod folder;
mod hints;
mod kinds;
mod limits;
mod lines;
mod notes;
mod padded;
mod standard_error;
mod width;

pub use bad_records::bad_records_text;
pub use done::{Done, LINE_ROOM, print_done, print_text};
pub use fault::{Fault, report};
pub use files::{find_office, is_missing, read_file};
pub use folder::{Folder, SystemFolder};
pub use hints::CsvKind;
pub use limits::{MOST_BYTES, TooLong, check_length};
pub use lines::{line_of_record, record_lines};
pub use notes::notes_in;
pub use padded::{unpadded_csv, unpadded_lines};
pub use standard_error::{note, note_system, note_text};
