//! The office over the tables of a database in files: opened, and closed, so that the log is copied
//! into the database file.

ghost use Rattle.std.specs.Prelude.{◌≡◌, IfOk, IfErr};
ghost use Rattle.sqlite.specs.Held.{state};
ghost use Rattle.office_tables.specs.Opening.{IsOpened, IsRefused};
ghost use Rattle.office_tables.specs.Arranged.{IsArrangedIfClean};
ghost use Rattle.signal_office_file.specs.Left.{ClosesFiles, ClosesOffice, IsOpenedIn, IsUnopened};
ghost use Rattle.signal_office_file.specs.Serving.{OpensFiles};

use crate::left::{FileLeft, Refused, fault_of_database, fault_of_opening};
use office_desk::office::Office;
use office_tables::open::{Left, OpenFault};
use office_tables::sql_shelf::SqlShelf;
use signal_office_faults::Fault;
use sqlite::{Alter, Connection, FileStore, Leftover, Options};
use sqlite_disk::{Disk, Files};
use std::alloc::Global;

/// An office over tables in files.
pub type FileOffice<D> = Office<SqlShelf<FileStore<D>>>;

/// The database in the two files, which is made where the database file is empty. Files on which a
/// sync has failed are not used. A refusal is `Store` or `Memory`, with what is left of the files.
pub(crate) fn database_in<D: Disk + Drop>(
    alloc: Global,
    files: Files<D>,
    options: Options,
) -> Result<Connection<FileStore<D>>, (Fault, Leftover<D>)>
    ensures opened { IfOk result (λ conn. IsOpenedIn files conn) }
    ensures unopened { IfErr result (λ e. IsUnopened files e.0 e.1) }
{
    if !files.may_be_used() {
        return Err((Fault::Store, Leftover::Files(files)));
    }
    match Connection::open_files(alloc, files, options) {
        Ok(conn) => Ok(conn),
        Err((error, left)) => Err((fault_of_database(error), left)),
    }
}

/// The office over the tables of a database that was just opened, whose rows are known to be in
/// order. The tables are made where there are none. A refusal gives what is left of the database.
fn office_over<S: Alter + Drop>(
    alloc: Global,
    conn: Connection<S>,
) -> Result<Office<SqlShelf<S>>, (OpenFault, Left<S>)>
    requires { IsArrangedIfClean (state S.Store conn) }
    ensures opened { IfOk result (λ office. IsOpened S.Store conn office) }
    ensures refused { IfErr result (λ e. IsRefused S.Store conn e.0 e.1) }
{
    match SqlShelf::open_arranged(alloc, conn) {
        Ok(shelf) => Ok(Office::new(shelf)),
        Err(refused) => Err(refused),
    }
}

/// The office over the tables in the two files, which are made where there are none. A refusal
/// gives what is left of the files, with `Version` if another version is stored, `Damaged` if a
/// table has a row and no version is stored, `Store` or `Memory`.
pub fn open_file<D: Disk + Drop>(
    alloc: Global,
    files: Files<D>,
    options: Options,
) -> Result<FileOffice<D>, Refused<D>>
    ensures { OpensFiles files result }
{
    let conn = match database_in(alloc, files, options) {
        Ok(conn) => conn,
        Err((fault, left)) => return Err((fault, FileLeft::Unopened(left))),
    };
    match office_over(alloc, conn) {
        Ok(office) => Ok(office),
        Err((fault, left)) => Err((fault_of_opening(fault), FileLeft::Database(left))),
    }
}

/// Closes a database, so that its log is copied, and gives its files back. If that fails, with
/// `Store` or `Memory`, the store of the database is left.
pub(crate) fn close_file<D: Disk + Drop>(
    conn: Connection<FileStore<D>>,
) -> Result<Files<D>, Refused<D>>
    ensures { ClosesFiles conn result }
{
    match conn.close_files() {
        Ok(files) => Ok(files),
        Err((error, store)) => Err((fault_of_database(error), FileLeft::Database(Err(store)))),
    }
}

/// Closes the files of an office, and gives them back: on a clean disk they then hold its tables,
/// with today's version, as the next opening finds them. A fault is `Store` or `Memory`, with what
/// is left of the files.
pub fn close_office<D: Disk + Drop>(office: FileOffice<D>) -> Result<Files<D>, Refused<D>>
    // Where closing fails, a stop leaves no more of the database than before.
    ensures { ClosesOffice office.conn result }
{
    close_file(office.into_shelf().into_file_conn())
}
