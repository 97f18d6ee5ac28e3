//! The reports and the commands of the program, over any office.
//!
//! A report reads an office, which stays as it is, and gives what is printed. A command that
//! changes an office gives what the office replied, or what became of a plan; `told` and
//! `tell_edited` make what is printed of that, once the file is closed. Other commands show or
//! compare plans in CSV files.
#![tactic(auto)]

mod changing;
mod check_text;
mod checking;
mod comparing;
mod counting;
mod days;
mod edit_notes;
mod editing;
mod explained;
mod filling;
mod import_notes;
mod index;
mod listing;
mod page;
mod parts;
mod reading;
mod reads;
mod refused;
mod remarks;
mod reporting;
mod showing;
mod telling;

pub use changing::{abandon, add, import};
pub use checking::check;
pub use comparing::compare_files;
pub use days::check_days;
pub use editing::{Edited, Revised, edit};
pub use filling::fill;
pub use import_notes::record_notes;
pub use refused::fault_of;
pub use reporting::report;
pub use showing::show_plan;
pub use telling::{tell_edited, told};
