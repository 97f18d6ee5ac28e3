//! The office over the tables of a file: opened, used for a task or a stream of requests, closed,
//! copied, and brought from version 1 to today's. A call takes the two files of an office, the log
//! and the database file, and gives back what is left of them; the calls of `at_path` open the
//! files at a path themselves, and give the result of the work.
#![tactic(auto)]

mod at_path;
mod copying;
mod ended;
mod left;
mod migrating;
mod notes;
mod noting;
mod opening;
mod serving;
mod task;
mod turn;
mod turns;
mod waiting;
mod work;

pub use at_path::{answer_stream, copy_at, do_task, migrate_at};
pub use copying::copied_in;
pub use ended::Ended;
pub use left::{FileLeft, Refused};
pub use migrating::migrate_file;
pub use opening::{FileOffice, close_office, open_file};
pub use serving::{ServedOffice, serve_file};
pub use task::{OfficeTask, TakesTurns};
pub use turns::do_in_turns;
pub use work::{answered_in, done_in};
