//! Why the files of an office were refused or not closed, and what is left of them.

ghost use Rattle.std.specs.Prelude.{◌≡◌};
ghost use Rattle.signal_office_file.specs.Left.{TellsError, database_of, told_of};

use office_tables::open::{Left, OpenFault};
use signal_office_faults::Fault;
use sqlite::{Alter, Error, ErrorCode, FileStore, Leftover};
use sqlite_disk::Disk;

/// What is left of the two files of an office that were refused or could not be closed.
pub enum FileLeft<D: Disk> {
    /// What is left of files in which no database was opened.
    Unopened(Leftover<D>),
    /// The database, which is not closed: its connection, or its store.
    Database(Left<FileStore<D>>),
}

impl<D: Disk + Drop> FileLeft<D> {
    /// The database, if it was not closed: its connection, or its store. Anything else is dropped.
    pub fn database(self) -> Option<Left<FileStore<D>>>
        ensures { result ≡ database_of self }
    {
        match self {
            FileLeft::Database(left) => Some(left),
            _ => None,
        }
    }
}

/// Drops a database, or its store.
fn let_go<S: Alter + Drop>(_left: Left<S>) {}

// The drop is written out, so that a caller does not prove again how each part is dropped.
impl<D: Disk + Drop> Drop for FileLeft<D> {
    fn drop(self) {
        match self {
            FileLeft::Unopened(_files) => {}
            FileLeft::Database(left) => let_go(left),
        }
    }
}

/// Why the files of an office were refused or not closed, and what is left of them.
pub type Refused<D> = (Fault, FileLeft<D>);

/// The fault that reports an error of the database: `Memory` if memory was refused, else `Store`.
pub(crate) fn fault_of_database(error: Error) -> Fault
    ensures { TellsError error result }
{
    match error {
        Error::SqliteFailure(ErrorCode::OutOfMemory) => Fault::Memory,
        _ => Fault::Store,
    }
}

/// The fault that reports tables that were refused when they were opened or migrated.
pub(crate) fn fault_of_opening(fault: OpenFault) -> Fault
    ensures { result ≡ told_of fault }
{
    match fault {
        OpenFault::Version => Fault::Version,
        OpenFault::Damaged => Fault::Damaged,
        OpenFault::Store => Fault::Store,
        OpenFault::NoMemory => Fault::Memory,
    }
}
