//! The tables of a file, brought from version 1 to today's version.

ghost use Rattle.std.specs.Prelude.{◌≡◌};
ghost use Rattle.signal_office_file.specs.Migrating.{told_of_outcome, MigratesFiles};

use crate::ended::{Ended, first_fault};
use crate::left::{FileLeft, fault_of_opening};
use crate::opening::{close_file, database_in};
use office_tables::Migrated;
use office_tables::open::OpenFault;
use office_tables::sql_shelf::SqlShelf;
use signal_office_faults::Fault;
use sqlite::Options;
use sqlite_disk::{Disk, Files};
use std::alloc::Global;

/// Brings the tables in the two files of an office, the log and the database file, from version 1
/// to today's, and closes the files, so that the log is copied. It gives how many rows were
/// rewritten (0 if today's version was stored) or the fault, and the files or what is left of them.
/// `Version` means that another version is stored or none, `Damaged` that a row of `timing` or
/// `draft` is no row of version 1, `Store` also that the tables have another layout.
pub fn migrate_file<D: Disk + Drop>(
    alloc: Global,
    files: Files<D>,
    options: Options,
) -> Ended<Result<u128, Fault>, D>
    // On a clean disk, which returned what was written, closed files hold the migrated tables, with
    // the count of rewritten rows, or, if the migration was refused, the tables as they were; a
    // stop leaves either of files that could not be closed. Migrated tables stand for the office
    // that they stood for in version 1, so a run over the files that came back begins from that
    // office.
    ensures { MigratesFiles files result }
{
    let mut conn = match database_in(alloc, files, options) {
        Ok(conn) => conn,
        Err((fault, left)) => return Ended::Refused(fault, FileLeft::Unopened(left)),
    };
    let outcome = SqlShelf::migrate(alloc, &mut conn);
    let done = rows_written(outcome);
    match close_file(conn) {
        Ok(files) => Ended::Closed(done, files),
        Err((fault, left)) => Ended::Unclosed(first_fault(done, fault), left),
    }
}

/// How many rows a migration rewrote, of `timing` and `draft` together, or the fault that reports
/// its refusal.
fn rows_written(outcome: Result<Migrated, OpenFault>) -> Result<u128, Fault>
    ensures { result ≡ told_of_outcome outcome }
{
    match outcome {
        Ok(migrated) => Ok(migrated.timing as u128 + migrated.draft as u128),
        Err(fault) => Err(fault_of_opening(fault)),
    }
}
